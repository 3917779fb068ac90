//! A text that is refused in the place of a certificate, and the declaration that it was read with.

ghost use Rattle.std.specs.Prelude.{◌≡◌, length};

use crate::stage::CertificateKind;
use std::alloc::Allocator;
use wq_groups::Groups;
use wq_items::ItemTable;
use wq_text::Text;

/// A text that is refused in the place of a certificate, and the declaration that it was read with.
#[derive(Drop)]
pub struct Refused<'t, 'a, A: Allocator> {
    /// Which certificate the text should be.
    pub kind: CertificateKind,
    /// The text of the declaration.
    pub declaration: &'t Text<'a>,
    /// The items that are declared.
    pub table: &'t ItemTable<'a, A>,
    /// The groups of these items.
    pub groups: &'t Groups<A>,
    /// The text that is refused.
    pub text: &'t Text<'a>,
    ghost grouped: { length groups.now.group_of ≡ length table.now.names },
}
