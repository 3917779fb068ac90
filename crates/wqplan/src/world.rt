//! What the program asks of the system: files by their paths (`-` is standard input), a seed, and a place for its
//! answer.
//!
//! `perform` is proved for anything that does this. The program itself knows only the files and the seed of a process;
//! these few lines are read and tested, and not proved. If a file can't be opened, or a read of it fails, standard
//! error names it and says why, before the line of the fault. An opening takes the time of one system call, and so do a
//! read and a seed.

ghost use Rattle.std.specs.Prelude.{◌≡◌};
ghost use Rattle.std.specs.Io.{ReadsAtMost};
ghost use Rattle.std.specs.Io.KnownBytes.{ReadConsumes};
ghost use Rattle.wqplan.specs.Told.{shown_name};

use std::alloc::Global;
use std::io::{self, ErrorKind, Read, Write};
use std::random::RandomSource;
use std::rt::Files;
use std::{fs, str};
use wq_diagnosis::of_failed;

/// The path that stands for standard input.
pub(crate) const INPUT: &str = "-";

/// The name of standard input in a diagnosis.
pub(crate) const STDIN: &str = "<stdin>";

/// The name of standard output.
const STDOUT: &str = "<stdout>";

/// Opens files by their paths, and draws seeds.
pub(crate) trait World<'a> {
    ghost use Rattle.std.specs.Prelude.{ℕ, List, Option};

    /// What a file is read by.
    type File: Read + Drop;

    // opening this path gave this reader, or nothing if it can't be opened
    ghost opens: { Self → List ℕ → Option Self.File → Type 0 };

    // this seed was drawn, or nothing if there is none
    ghost seeds: { Self → Option ℕ → Type 0 };

    /// Opens the file at this path. Nothing if it can't be opened.
    fn open(&self, path: &'a str) -> Option<Self::File>
        ensures { opens self.now path.now result };

    /// Draws the number with which the names of a declaration are hashed. `None` if the system gives no number. It is
    /// drawn anew for each command, so that the author of a declaration can't know which names have the same hash.
    fn seed(&self) -> Option<u64>
        ensures { seeds self.now result };
}

/// The files and the random bytes of a process.
#[derive(Drop)]
pub(crate) struct Process<'a, R> {
    pub(crate) rt: &'a R,
}

impl<'a, R: Files + Input + RandomSource + Eprint + AllocGlobal> World<'a> for Process<'a, R> {
    type File = NamedReader<'a, R, Opened<R::File, R::Reader>>;

    ghost opens = { λ _ _ _. Unit {0} };

    ghost seeds = { λ _ _. Unit {0} };

    fn open(&self, path: &'a str) -> Option<NamedReader<'a, R, Opened<R::File, R::Reader>>> {
        let rt: &'a R = self.rt;
        if path == INPUT {
            return Some(NamedReader::new(rt, STDIN, Opened::Input(rt.reader())));
        }
        match fs::open(rt, path) {
            Ok(file) => Some(NamedReader::new(rt, path, Opened::File(file))),
            Err(error) => {
                say_failed(rt, path, read_reason(error.kind()));
                None
            }
        }
    }

    fn seed(&self) -> Option<u64> {
        let mut bytes = [0; 8];
        self.rt.fill_bytes(&mut bytes).ok()?;
        Some(u64::from_le_bytes(bytes))
    }
}

/// What opening a path gives: a file, or standard input.
#[derive(Drop)]
pub(crate) enum Opened<F, I> {
    /// The file at the path.
    File(F),
    /// Standard input.
    Input(I),
}

impl<F: Read, I: Read> Read for Opened<F, I> {
    fn read(&mut self, buf: &mut [u8]) -> io::Result<usize> {
        match self {
            Opened::File(file) => file.read(buf),
            Opened::Input(input) => input.read(buf),
        }
    }
}

/// The name of the file at this path in a diagnosis.
pub(crate) fn shown_name(path: &str) -> &str
    ensures { result.now ≡ shown_name path.now }
{
    if path == INPUT { STDIN } else { path }
}

/// A reader with a name. If a read fails, standard error has the name, and why it failed.
#[derive(Drop)]
pub(crate) struct NamedReader<'a, R, I> {
    rt: &'a R,
    name: &'a str,
    input: I,
}

impl<'a, R, I> NamedReader<'a, R, I> {
    /// The reader with this name.
    pub(crate) fn new(rt: &'a R, name: &'a str, input: I) -> NamedReader<'a, R, I> {
        NamedReader { rt, name, input }
    }
}

impl<'a, R: Eprint + AllocGlobal, I: Read> Read for NamedReader<'a, R, I> {
    ghost remaining = { λ named. I.remaining named.input };

    fn read(&mut self, buf: &mut [u8]) -> io::Result<usize> {
        let outcome = self.input.read(buf);
        if let Err(error) = &outcome {
            say_failed(self.rt, self.name, read_reason(error.kind()));
        }
        outcome
    }
}

/// A writer that keeps the reason why the last write failed, if one did.
#[derive(Drop)]
pub(crate) struct Noting<W> {
    output: W,
    failed: Option<ErrorKind>,
}

impl<W> Noting<W> {
    /// This writer, of which no write has failed.
    pub(crate) fn new(output: W) -> Noting<W> {
        Noting {
            output,
            failed: None,
        }
    }

    /// Why the last write failed, if one did.
    pub(crate) fn unwritten(&self) -> Unwritten {
        Unwritten::by(self.failed)
    }
}

impl<W: Write> Write for Noting<W> {
    ghost contents = { λ noting. W.contents noting.output };

    fn write(&mut self, buf: &[u8]) -> io::Result<usize> {
        let outcome = self.output.write(buf);
        if let Err(error) = &outcome {
            self.failed = Some(error.kind());
        }
        outcome
    }

    fn flush(&mut self) -> io::Result<()> {
        self.output.flush()
    }
}

/// Names a file that can't be opened, read or written, and says why.
fn say_failed<R: Eprint + AllocGlobal>(rt: &R, file: &str, why: &str) {
    let alloc: Global = rt.alloc();
    if let Ok(text) = of_failed(alloc, file, why) {
        let _ = rt.eprint(str::from_utf8(&text).unwrap_or(""));
    }
}

/// Says why standard output couldn't be written.
pub(crate) fn say_unwritten<R: Eprint + AllocGlobal>(rt: &R, why: &str) {
    say_failed(rt, STDOUT, why);
}

/// Why an opening or a read failed, as far as the kind of the error tells.
fn read_reason(kind: ErrorKind) -> &'static str {
    match kind {
        ErrorKind::NotFound => "no such file",
        ErrorKind::PermissionDenied => "permission denied",
        ErrorKind::IsADirectory => "is a directory",
        ErrorKind::NotADirectory => "a part of the path isn't a directory",
        ErrorKind::FilesystemLoop => "too many symbolic links",
        ErrorKind::InvalidFilename => "the name is too long",
        ErrorKind::Interrupted => "the read was interrupted",
        _ => "can't be read",
    }
}

/// Why standard output couldn't be written.
#[derive(Clone, Copy)]
pub(crate) enum Unwritten {
    /// Nobody reads it any more.
    Unread,
    /// The system had another reason, in these words.
    Failed(&'static str),
}

impl Unwritten {
    /// What an error of this kind says, or that a write took no byte.
    pub(crate) fn by(failed: Option<ErrorKind>) -> Unwritten {
        match failed {
            Some(ErrorKind::BrokenPipe) => Unwritten::Unread,
            Some(ErrorKind::StorageFull) => Unwritten::Failed("no space left"),
            Some(ErrorKind::QuotaExceeded) => Unwritten::Failed("the disk quota is used up"),
            Some(ErrorKind::FileTooLarge) => Unwritten::Failed("the file is too large"),
            Some(ErrorKind::Interrupted) => Unwritten::Failed("the write was interrupted"),
            _ => Unwritten::Failed("can't be written"),
        }
    }
}
