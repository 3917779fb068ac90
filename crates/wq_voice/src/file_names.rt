//! The files that the texts of a command come from.
//!
//! Nothing is computed here.

/// The names of the files of a command's texts, as diagnoses show them. A text that the command doesn't have has the
/// empty name.
#[derive(Clone, Copy, Debug, PartialEq, Eq)]
pub struct FileNames<'n> {
    /// That of the declaration.
    pub declaration: &'n str,
    /// That of the second text: a certificate, or an assignment.
    pub second: &'n str,
    /// That of the third text: a run.
    pub run: &'n str,
}
