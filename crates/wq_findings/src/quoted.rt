//! Bytes of a text in a message, and how a byte is shown. It takes time linear in the number of bytes.

ghost use Rattle.std.specs.Prelude.{◌≡◌, None};
ghost use Rattle.wq_findings.specs.Shown.{shown};

use std::fmt;

/// The byte as it is shown: printable ASCII as it is, a TAB as a space, any other byte as `?`.
pub fn shown(byte: u8) -> u8
    ensures { result ≡ shown byte }
{
    if byte == b'\t' {
        b' '
    } else if byte >= b' ' && byte <= b'~' {
        byte
    } else {
        b'?'
    }
}

/// Bytes of a text in a message, as they are shown.
#[derive(Clone, Copy)]
pub struct Quoted<'a>(pub &'a [u8]);

impl fmt::Display for Quoted<'_> {
    ghost output = { λ _. None };

    fn fmt<W: fmt::Write>(&self, f: &mut fmt::Formatter<W>) -> fmt::Result {
        for byte in self.0 {
            f.write_char(char::from(shown(*byte)))?;
        }
        Ok(())
    }
}
