//! The text of a diagnosis, and the diagnoses of the texts of a command.
//!
//! The form is that of "Diagnoses" in docs/FORMAT.md. A call takes the time and the memory of searching the text for
//! the fault and, for a declaration, those of reading it again, mended.

ghost use Rattle.std.specs.Prelude.{◌≡◌, ◌∷◌, codes, map, option_map, ℕ, IfOk};
ghost use Rattle.wq_diagnosis.specs.Diagnosis.{head, shown_lines, IsDiagnosis};
ghost use Rattle.wq_checker.specs.Codes.{no_code};
ghost use Rattle.wq_checker.specs.CodesAround.{no_around_code};
ghost use Rattle.wq_diagnosis.specs.Refused.{no_item_note, NotesNoItem};

use crate::further::push_further;
use crate::layout::{column, lines_of, place_words, push_excerpt, put_line, put_lines};
use std::alloc::{AllocError, Allocator};
use wq_checker::{No, NoAround};
use wq_commands::TOO_MANY_LANES;
use wq_findings::{
    CertificateKind, Finding, Found, Mark, Refused, What, in_answer, in_certificate,
    in_declaration, line_at,
};
use wq_groups::Declaration;
use wq_names::messages;
use wq_text::{Line, Text};

/// A text of a command, and the file that it comes from.
#[derive(Clone, Copy, Debug, PartialEq, Eq)]
pub struct Source<'a> {
    /// The path of the file, as it was given.
    pub file: &'a str,
    /// The bytes of the text.
    pub text: &'a [u8],
}

/// A refusal, or a `no`: the word, its number, and the line, which is 0 if none is meant.
#[derive(Clone, Copy)]
pub(crate) struct Refusal {
    pub(crate) word: &'static str,
    pub(crate) code: u32,
    pub(crate) line: u32,
}

impl Refusal {
    /// The refusal with this number, for this line.
    pub(crate) fn new(code: u32, line: u32) -> Refusal
        ensures word { result.word.now ≡ codes "refused" }
        ensures code { result.code ≡ code }
        ensures line { result.line ≡ line }
    {
        Refusal {
            word: "refused",
            code,
            line,
        }
    }

    /// The `no` with this number, shown on this line.
    fn no(code: u32, line: u32) -> Refusal
        ensures word { result.word.now ≡ codes "no" }
        ensures code { result.code ≡ code }
        ensures line { result.line ≡ line }
    {
        Refusal {
            word: "no",
            code,
            line,
        }
    }
}

/// The first line: the file, the place, what is wrong, and the word of the answer with its number.
pub(crate) fn head<A: Allocator + Copy>(
    alloc: A,
    file: &str,
    place: &[u32],
    what: &str,
    word: &str,
    code: u32,
) -> Result<Vec<u8, A>, AllocError>
    ensures { IfOk result (λ line. line.items ≡ head file.now place.now what.now word.now code) }
{
    let place = place_words(alloc, place)?;
    let code = code.to_string(alloc)?;
    messages::answered(
        alloc,
        file.as_bytes(),
        &place,
        what.as_bytes(),
        word.as_bytes(),
        code.as_bytes(),
    )
}

/// Appends the line that is meant and its marks, if bytes of it are meant.
pub(crate) fn push_details<A: Allocator + Copy>(
    alloc: A,
    details: &mut Vec<Vec<u8, A>, A>,
    line: Option<Line<'_>>,
    finding: Finding<'_>,
) -> Result<(), AllocError> {
    if let (Some(line), Some(mark)) = (line, finding.mark) {
        push_excerpt(alloc, details, line.bytes(), mark, finding.hint)?;
    }
    Ok(())
}

/// The lines below the first one: the line and its marks if bytes of it are meant, otherwise none.
fn details<A: Allocator + Copy>(
    alloc: A,
    line: Option<Line<'_>>,
    finding: Finding<'_>,
) -> Result<Vec<Vec<u8, A>, A>, AllocError> {
    let mut details = Vec::new(alloc);
    push_details(alloc, &mut details, line, finding)?;
    Ok(details)
}

/// The whole text of a diagnosis.
fn whole_text<A: Allocator + Copy>(
    alloc: A,
    file: &str,
    place: &[u32],
    what: &str,
    word: &str,
    code: u32,
    details: &[Vec<u8, A>],
) -> Result<Vec<u8, A>, AllocError>
    ensures { IfOk result (λ text. text.items
        ≡ shown_lines (head file.now place.now what.now word.now code ∷ map (λ line. line.items) details.now)) }
{
    let head = head(alloc, file, place, what, word, code)?;
    let mut out = Vec::new(alloc);
    put_line(&mut out, &head)?;
    put_lines(&mut out, details)?;
    Ok(out)
}

/// The diagnosis of a refusal, from the bytes that are meant, what is wrong, and the lines below the first one.
fn diagnosis_at<A: Allocator + Copy>(
    alloc: A,
    file: &str,
    refusal: Refusal,
    mark: Option<Mark>,
    what: &str,
    details: &[Vec<u8, A>],
) -> Result<Vec<u8, A>, AllocError>
    ensures { IfOk result (λ said. IsDiagnosis file.now refusal.word.now refusal.code refusal.line said.items) }
{
    let Refusal { word, code, line } = refusal;
    if line == 0 {
        return whole_text(alloc, file, &[], what, word, code, details);
    }
    match mark {
        Some(mark) => whole_text(
            alloc,
            file,
            &[line, column(mark)],
            what,
            word,
            code,
            details,
        ),
        None => whole_text(alloc, file, &[line], what, word, code, details),
    }
}

/// The diagnosis of a text's refusal, from the line that is meant, if there is one, and what was found.
fn diagnosis<A: Allocator + Copy>(
    alloc: A,
    file: &str,
    line: Option<Line<'_>>,
    refusal: Refusal,
    finding: Finding<'_>,
) -> Result<Vec<u8, A>, AllocError>
    ensures { IfOk result (λ said. IsDiagnosis file.now refusal.word.now refusal.code refusal.line said.items) }
{
    let what = finding.what.to_string(alloc)?;
    let details = details(alloc, line, finding)?;
    diagnosis_at(alloc, file, refusal, finding.mark, &what, &details)
}

/// The diagnosis of a declaration with this refusal, and below it those of its further mistakes.
fn of_refused<A: Allocator + Copy>(
    alloc: A,
    seed: u64,
    declaration: Source<'_>,
    refusal: Refusal,
) -> Result<Vec<u8, A>, AllocError>
    ensures { IfOk result (λ said.
        IsDiagnosis declaration.entry.file.now refusal.word.now refusal.code refusal.line said.items) }
{
    let text = lines_of(declaration.text);
    let finding = in_declaration(alloc, &text, refusal.code, refusal.line)?;
    let what = finding.what.to_string(alloc)?;
    let mut below = details(alloc, line_at(&text, refusal.line), finding)?;
    push_further(alloc, seed, &mut below, declaration, refusal)?;
    diagnosis_at(
        alloc,
        declaration.file,
        refusal,
        finding.mark,
        &what,
        &below,
    )
}

/// The diagnosis of a declaration that is refused with the number `code` for `line`, and below it those of its further
/// mistakes.
///
/// The only error is out of memory (20). Names are hashed with `seed`; nothing that is said depends on it.
pub fn of_refused_declaration<A: Allocator + Copy>(
    alloc: A,
    seed: u64,
    declaration: Source<'_>,
    code: u32,
    line: u32,
) -> Result<Vec<u8, A>, AllocError>
    ensures { IfOk result (λ said. IsDiagnosis declaration.entry.file.now (codes "refused") code line said.items) }
{
    of_refused(alloc, seed, declaration, Refusal::new(code, line))
}

/// Finds what is wrong in a certificate with this refusal, and the line that is meant, if there is one.
fn find_fault<'a, A: Allocator + Copy>(
    alloc: A,
    kind: CertificateKind,
    declared: &Declaration<'a, A>,
    declaration: &'a [u8],
    text: &Text<'a>,
    refusal: Refusal,
) -> Result<Found<'a>, AllocError> {
    let Declaration { table, groups } = declared;
    let declaration = lines_of(declaration);
    let refused = Refused {
        kind,
        declaration: &declaration,
        table,
        groups,
        text,
    };
    in_certificate(alloc, &refused, refusal.code, refusal.line)
}

/// The diagnosis of a certificate with this refusal.
fn of_fault<A: Allocator + Copy>(
    alloc: A,
    kind: CertificateKind,
    declared: &Declaration<'_, A>,
    declaration: &[u8],
    certificate: Source<'_>,
    refusal: Refusal,
) -> Result<Vec<u8, A>, AllocError>
    ensures { IfOk result (λ said.
        IsDiagnosis certificate.entry.file.now refusal.word.now refusal.code refusal.line said.items) }
{
    let text = lines_of(certificate.text);
    let Found { line, finding } = find_fault(alloc, kind, declared, declaration, &text, refusal)?;
    diagnosis(alloc, certificate.file, line, refusal, finding)
}

/// The diagnosis of a certificate that is refused with the number `code` for `line`. `declared` is what the text
/// `declaration` declares.
///
/// The only error is out of memory (20).
pub fn of_refused_certificate<A: Allocator + Copy>(
    alloc: A,
    kind: CertificateKind,
    declared: &Declaration<'_, A>,
    declaration: &[u8],
    certificate: Source<'_>,
    code: u32,
    line: u32,
) -> Result<Vec<u8, A>, AllocError>
    ensures { IfOk result (λ said. IsDiagnosis certificate.entry.file.now (codes "refused") code line said.items) }
{
    let refusal = Refusal::new(code, line);
    of_fault(alloc, kind, declared, declaration, certificate, refusal)
}

/// The diagnosis of a declaration whose plan has too many workqueues to run.
///
/// The only error is out of memory (20).
pub fn of_too_many<A: Allocator + Copy>(
    alloc: A,
    declaration: Source<'_>,
) -> Result<Vec<u8, A>, AllocError>
    ensures { IfOk result (λ said. IsDiagnosis declaration.entry.file.now (codes "refused") 69 0 said.items) }
{
    let what = What::Said("the plan has more than 256 workqueues, each of which takes a thread");
    diagnosis(
        alloc,
        declaration.file,
        None,
        Refusal::new(TOO_MANY_LANES, 0),
        Finding::whole(what),
    )
}

/// The note about a declaration without items.
fn no_item_note<A: Allocator + Copy>(alloc: A, file: &str) -> Result<Vec<u8, A>, AllocError>
    ensures { IfOk result (λ said. said.items ≡ no_item_note file.now) }
{
    let line = messages::no_item(alloc, file.as_bytes())?;
    let mut out = Vec::new(alloc);
    put_line(&mut out, &line)?;
    Ok(out)
}

/// The note that the declaration in this file has no items; `None` if it has one.
///
/// The only error is out of memory (20).
pub fn of_no_item<A: Allocator + Copy>(
    alloc: A,
    declared: &Declaration<'_, A>,
    file: &str,
) -> Result<Option<Vec<u8, A>>, AllocError>
    ensures { IfOk result (λ said. NotesNoItem file.now declared.now (option_map (λ text. text.items) said)) }
{
    if !declared.table.is_empty() {
        return Ok(None);
    }
    let said = no_item_note(alloc, file)?;
    Ok(Some(said))
}

/// The number of the line that is meant; 0 if none is.
fn number_of(line: &Option<Line<'_>>) -> u32 {
    match line {
        Some(line) => line.no(),
        None => 0,
    }
}

/// What is wrong with a line of a certificate around fixed workqueues that is refused with this number; or, if that is
/// 0, with the whole text.
fn fault_around(code: u32, line: u32) -> &'static str {
    match code {
        40 if line == 0 => "the text ends too early, or it has more than 8,388,608 bytes",
        41 => "an item is on two workqueues, or one that FIXED doesn't have is on none",
        42 => "the items of a group are on several workqueues",
        43 => "a number isn't the next one, or is too large",
        _ => "this isn't the next line of a plan, a circle or a norescuer text around workqueues",
    }
}

/// What is wrong with the whole of fixed workqueues that are refused with this number.
fn unfit(code: u32) -> &'static str {
    match code {
        42 => "a group has an item on a workqueue, and another one on none",
        _ => "these workqueues and the groups on none of them are more than 4,096",
    }
}

/// The diagnosis of a text that is refused with the number `code` for `line`, of which no byte is meant.
fn of_text<A: Allocator + Copy>(
    alloc: A,
    text: Source<'_>,
    code: u32,
    line: u32,
    what: &'static str,
) -> Result<Vec<u8, A>, AllocError>
    ensures { IfOk result (λ said. IsDiagnosis text.entry.file.now (codes "refused") code line said.items) }
{
    let finding = Finding::whole(What::Said(what));
    diagnosis(alloc, text.file, None, Refusal::new(code, line), finding)
}

/// The diagnosis of a certificate around fixed workqueues that is refused with the number `code` for `line`. No byte is
/// meant.
///
/// The only error is out of memory (20).
pub fn of_refused_around<A: Allocator + Copy>(
    alloc: A,
    certificate: Source<'_>,
    code: u32,
    line: u32,
) -> Result<Vec<u8, A>, AllocError>
    ensures { IfOk result (λ said. IsDiagnosis certificate.entry.file.now (codes "refused") code line said.items) }
{
    of_text(alloc, certificate, code, line, fault_around(code, line))
}

/// The diagnosis of fixed workqueues that are refused with the number `code` for `line`. `declared` is what the text
/// `declaration` declares. If all of its lines may stand, no byte is meant.
///
/// The only error is out of memory (20).
pub fn of_refused_fixed<A: Allocator + Copy>(
    alloc: A,
    declared: &Declaration<'_, A>,
    declaration: &[u8],
    fixed: Source<'_>,
    code: u32,
    line: u32,
) -> Result<Vec<u8, A>, AllocError>
    ensures { IfOk result (λ said. IsDiagnosis fixed.entry.file.now (codes "refused") code line said.items) }
{
    if line == 0 && (code == 42 || code == 43) {
        return of_text(alloc, fixed, code, line, unfit(code));
    }
    let kind = CertificateKind::Assignment;
    of_refused_certificate(alloc, kind, declared, declaration, fixed, code, line)
}

/// What is wrong with a certificate around fixed workqueues to which the checker answered this no.
fn lack_around(no: &NoAround) -> &'static str {
    match no {
        NoAround::Plain(No::NotFalling { .. }) => {
            "a flush leads to no workqueue that comes before its own in `order`"
        }
        NoAround::Plain(No::LengthDiffers) => {
            "the chain should have as many new workqueues as there are"
        }
        NoAround::Plain(No::ChainBroken { .. }) => "the chain doesn't join",
        NoAround::Plain(No::CircleBroken { .. }) => "the circle doesn't join",
        NoAround::Plain(No::RunBroken) => {
            "these steps don't deadlock where each free group has a workqueue of its own"
        }
        NoAround::HasRescuer => "this isn't a flush that leads to no rescuer",
    }
}

/// The diagnosis of a certificate around fixed workqueues to which the checker answered this no. No line is meant.
///
/// The only error is out of memory (20).
pub fn of_lack_around<A: Allocator + Copy>(
    alloc: A,
    certificate: Source<'_>,
    no: &NoAround,
) -> Result<Vec<u8, A>, AllocError>
    ensures { IfOk result (λ said.
        IsDiagnosis certificate.entry.file.now (codes "no") (no_around_code no.now) 0 said.items) }
{
    diagnosis(
        alloc,
        certificate.file,
        None,
        Refusal::no(no.code(), 0),
        Finding::whole(What::Said(lack_around(no))),
    )
}

/// The diagnosis of a certificate of this declaration to which the checker answered `no`.
///
/// The only error is out of memory (20).
pub fn of_lack<A: Allocator + Copy>(
    alloc: A,
    declared: &Declaration<'_, A>,
    certificate: Source<'_>,
    no: &No,
) -> Result<Vec<u8, A>, AllocError>
    ensures { IfOk result (λ said. (line : ℕ)
        × IsDiagnosis certificate.entry.file.now (codes "no") (no_code no.now) line said.items) }
{
    let text = lines_of(certificate.text);
    let Found { line, finding } = in_answer(&declared.table, &text, no);
    let refusal = Refusal::no(no.code(), number_of(&line));
    diagnosis(alloc, certificate.file, line, refusal, finding)
}
