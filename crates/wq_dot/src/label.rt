//! The label of a workqueue: its name, or its number if it has none.
//!
//! The rule is that of "The command `dot`" in docs/FORMAT.md. Printing takes time and memory linear in the length of
//! the name.

ghost use Rattle.std.specs.Prelude.{◌≡◌, ◌++◌, OnOk};
ghost use Rattle.wq_dot.specs.Labels.{before_name, is_plain, label_of, label_text, named, numbered, rescuer_text};

use crate::tooltip::put_all_escaped;
use std::alloc::{AllocError, Allocator};
use wq_text::{put, put_number};

/// Appends the number of a workqueue.
pub(crate) fn put_numbered<A: Allocator + Copy>(
    out: &mut Vec<u8, A>,
    number: u16,
) -> Result<(), AllocError>
    ensures { OnOk result (out.new.items ≡ out.old.items ++ numbered number) }
{
    put(out, b"wq")?;
    put_number(out, u32::from(number))
}

/// Appends what comes before the name of a workqueue: its number, if others have the same name.
fn put_before_name<A: Allocator + Copy>(
    out: &mut Vec<u8, A>,
    shared: bool,
    number: u16,
) -> Result<(), AllocError>
    ensures { OnOk result (out.new.items ≡ out.old.items ++ before_name shared number) }
{
    if !shared {
        return Ok(());
    }
    put_numbered(out, number)?;
    put(out, b" ")
}

/// Appends the name of a workqueue, or its number. `shared` says whether others have the same name.
fn put_named<A: Allocator + Copy>(
    out: &mut Vec<u8, A>,
    shared: bool,
    number: u16,
    name: &[u8],
) -> Result<(), AllocError>
    ensures { OnOk result (out.new.items ≡ out.old.items ++ named shared number name.now) }
{
    if name.is_empty() {
        return put_numbered(out, number);
    }
    put_before_name(out, shared, number)?;
    put_all_escaped(out, name)
}

/// What follows if a workqueue has no rescuer.
fn rescuer_text(bare: bool) -> &'static [u8]
    ensures { result.now ≡ rescuer_text bare }
{
    if bare { b" (no rescuer)" } else { b"" }
}

/// Appends the label of a workqueue.
fn put_label_of<A: Allocator + Copy>(
    out: &mut Vec<u8, A>,
    name: &[u8],
    shared: bool,
    bare: bool,
    number: u16,
) -> Result<(), AllocError>
    ensures { OnOk result (out.new.items ≡ out.old.items ++ label_of name.now shared bare number) }
{
    put_named(out, shared, number, name)?;
    put(out, rescuer_text(bare))
}

/// Whether the label is what Graphviz makes of the number.
fn is_plain(name: &[u8], bare: bool) -> bool
    ensures { result ≡ is_plain name.now bare }
{
    name.is_empty() && !bare
}

/// Appends the label of a workqueue as an attribute, unless it is what Graphviz makes of the number. `shared` says
/// whether others have the same name, and `bare` whether the workqueue has no rescuer.
pub(crate) fn put_label<A: Allocator + Copy>(
    out: &mut Vec<u8, A>,
    name: &[u8],
    shared: bool,
    bare: bool,
    number: u16,
) -> Result<(), AllocError>
    ensures { OnOk result (out.new.items ≡ out.old.items ++ label_text name.now shared bare number) }
{
    if is_plain(name, bare) {
        return Ok(());
    }
    put(out, b"label=\"")?;
    put_label_of(out, name, shared, bare, number)?;
    put(out, b"\", ")
}
