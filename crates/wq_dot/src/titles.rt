//! The titles of drawings: what is drawn, in words, and the legend of the marks.
//!
//! The titles are those of "The command `dot`" in docs/FORMAT.md. Making a title takes time and memory linear in its
//! length.

ghost use Rattle.std.specs.Prelude.{◌≡◌, ◌==◌, ◌++◌, [], codes, cond, IfOk, OnOk};
ghost use Rattle.wq_dot.specs.Dotting.{awaited, bold_legend, bold_text, circles_title, counted, dashed_legend};
ghost use Rattle.wq_dot.specs.Dotting.{dotted_legend, leading_text, plan_end, red_legends, unsure_text};
ghost use Rattle.wq_dot.specs.Dotting.{legend_end, plan_title, red_legend, red_text, shortest_legend, shortest_text};
ghost use Rattle.wq_dot.specs.Dotting.{some_bare};

use std::alloc::{AllocError, Allocator};
use wq_text::{put, put_number, put_word};

/// The ending of a noun that is counted by this number.
fn plural_end(number: u32) -> &'static [u8]
    ensures { result.now ≡ cond (number == 1) [] (codes "s") }
{
    if number == 1 { b"" } else { b"s" }
}

/// Appends a number and the noun that it counts.
fn put_counted<A: Allocator + Copy>(
    out: &mut Vec<u8, A>,
    number: u32,
    thing: &[u8],
) -> Result<(), AllocError>
    ensures { OnOk result (out.new.items ≡ out.old.items ++ counted number thing.now) }
{
    put_number(out, number)?;
    put_word(out, thing)?;
    put(out, plural_end(number))
}

/// Appends how many waits are bold.
fn put_bold<A: Allocator + Copy>(out: &mut Vec<u8, A>, bold: u32) -> Result<(), AllocError>
    ensures { OnOk result (out.new.items ≡ out.old.items ++ bold_text bold) }
{
    if bold == 0 {
        return Ok(());
    }
    put(out, b",")?;
    put_counted(out, bold, b"wait")?;
    put(out, b" in bold")
}

/// Appends how many flushes are unsure.
fn put_unsure<A: Allocator + Copy>(out: &mut Vec<u8, A>, unsure: u32) -> Result<(), AllocError>
    ensures { OnOk result (out.new.items ≡ out.old.items ++ unsure_text unsure) }
{
    if unsure == 0 {
        return Ok(());
    }
    put(out, b",")?;
    put_number(out, unsure)?;
    put(out, b" not sure")
}

/// The legend of bold waits of a plan, if there are any.
fn bold_legend(bold: u32) -> &'static [u8]
    ensures { result.now ≡ bold_legend bold }
{
    if bold == 0 {
        b""
    } else {
        b"\\lBold: the chain that needs so many workqueues."
    }
}

/// The legend of dotted arrows, if any flush is unsure.
fn dotted_legend(unsure: u32) -> &'static [u8]
    ensures { result.now ≡ dotted_legend unsure }
{
    if unsure == 0 {
        b""
    } else {
        b"\\lDotted: not sure."
    }
}

/// The end of the last line of the legend of a plan, if there is one.
fn plan_end(bold: u32, unsure: u32) -> &'static [u8]
    ensures { result.now ≡ plan_end bold unsure }
{
    if bold == 0 && unsure == 0 {
        b""
    } else {
        b"\\l"
    }
}

/// The title of a plan with this many workqueues, bold waits and unsure flushes.
pub(crate) fn plan_title<A: Allocator + Copy>(
    alloc: A,
    workqueues: u16,
    bold: u32,
    unsure: u32,
) -> Result<Vec<u8, A>, AllocError>
    ensures { IfOk result (λ title. title.items ≡ plan_title workqueues bold unsure) }
{
    let mut title = Vec::new(alloc);
    put(&mut title, b"plan of")?;
    put_counted(&mut title, u32::from(workqueues), b"workqueue")?;
    put_bold(&mut title, bold)?;
    put_unsure(&mut title, unsure)?;
    put(&mut title, bold_legend(bold))?;
    put(&mut title, dotted_legend(unsure))?;
    put(&mut title, plan_end(bold, unsure))?;
    Ok(title)
}

/// Appends how many of the red waits lead to no rescuer.
fn put_leading<A: Allocator + Copy>(out: &mut Vec<u8, A>, leading: u32) -> Result<(), AllocError>
    ensures { OnOk result (out.new.items ≡ out.old.items ++ leading_text leading) }
{
    if leading == 0 {
        return Ok(());
    }
    put(out, b",")?;
    put_number(out, leading)?;
    put(out, b" to no rescuer")
}

/// Appends how many of the red waits are bold, if not all are.
fn put_shortest<A: Allocator + Copy>(
    out: &mut Vec<u8, A>,
    red: u32,
    bold: u32,
) -> Result<(), AllocError>
    ensures { OnOk result (out.new.items ≡ out.old.items ++ shortest_text red bold) }
{
    if red == bold {
        return Ok(());
    }
    put(out, b",")?;
    put_number(out, bold)?;
    put(out, b" in bold")
}

/// The legend of bold waits, if not all red waits are bold.
fn shortest_legend(red: u32, bold: u32) -> &'static [u8]
    ensures { result.now ≡ shortest_legend red bold }
{
    if red == bold {
        b""
    } else {
        b"\\lBold: enough to hang it, in the fewest steps."
    }
}

/// The work that red waits wait for, if `leading` of `red` lead to no rescuer.
fn awaited(leading: u32, red: u32) -> &'static [u8]
    ensures { result.now ≡ awaited leading red }
{
    if leading == 0 {
        b"only it, or one that waits for it, can do"
    } else if leading == red {
        b"no rescuer does"
    } else {
        b"only it, or one that waits for it, can do,\\lor that no rescuer does"
    }
}

/// Appends the legend of red waits.
fn put_red_legend<A: Allocator + Copy>(
    out: &mut Vec<u8, A>,
    leading: u32,
    red: u32,
) -> Result<(), AllocError>
    ensures { OnOk result (out.new.items ≡ out.old.items ++ red_legend leading red) }
{
    put(
        out,
        b"\\lRed: while memory is short, a worker may wait for work\\lthat ",
    )?;
    put(out, awaited(leading, red))?;
    put(out, b".")
}

/// Appends the legends of red waits and of bold ones, if there are any.
fn put_red_legends<A: Allocator + Copy>(
    out: &mut Vec<u8, A>,
    leading: u32,
    red: u32,
    bold: u32,
) -> Result<(), AllocError>
    ensures { OnOk result (out.new.items ≡ out.old.items ++ red_legends leading red bold) }
{
    if red == 0 {
        return Ok(());
    }
    put_red_legend(out, leading, red)?;
    put(out, shortest_legend(red, bold))
}

/// Appends what hangs, with the red waits, or that nothing does.
fn put_red<A: Allocator + Copy>(
    out: &mut Vec<u8, A>,
    hanging: &[u8],
    leading: u32,
    red: u32,
    bold: u32,
) -> Result<(), AllocError>
    ensures { OnOk result (out.new.items ≡ out.old.items ++ red_text hanging.now leading red bold) }
{
    if red == 0 {
        return put(out, b"safe");
    }
    put(out, hanging)?;
    put(out, b",")?;
    put_counted(out, red, b"wait")?;
    put(out, b" in red")?;
    put_leading(out, leading)?;
    put_shortest(out, red, bold)
}

/// Whether any workqueue has no rescuer.
fn some_bare(bare: &[bool]) -> bool
    ensures { result ≡ some_bare bare.now }
{
    bare.iter().any(|is_bare| *is_bare)
}

/// The legend of dashed frames, if there is one.
fn dashed_legend(bare: &[bool]) -> &'static [u8]
    ensures { result.now ≡ dashed_legend bare.now }
{
    if some_bare(bare) {
        b"\\lDashed: no rescuer. While memory is short, nothing\\lguarantees that work there runs."
    } else {
        b""
    }
}

/// The end of the last line of a legend, if there is one.
fn legend_end(bare: &[bool], red: u32, unsure: u32) -> &'static [u8]
    ensures { result.now ≡ legend_end bare.now red unsure }
{
    if red == 0 && !some_bare(bare) && unsure == 0 {
        b""
    } else {
        b"\\l"
    }
}

/// The title of a drawing of workqueues: what hangs, or that nothing does. There are `red` red waits, of which
/// `leading` lead to no rescuer and `bold` are bold, and `unsure` unsure flushes. `bare` says which workqueues have no
/// rescuer.
pub(crate) fn circles_title<A: Allocator + Copy>(
    alloc: A,
    hanging: &[u8],
    leading: u32,
    bare: &[bool],
    red: u32,
    bold: u32,
    unsure: u32,
) -> Result<Vec<u8, A>, AllocError>
    ensures { IfOk result (λ title. title.items ≡ circles_title hanging.now leading bare.now red bold unsure) }
{
    let mut title = Vec::new(alloc);
    put_red(&mut title, hanging, leading, red, bold)?;
    put_unsure(&mut title, unsure)?;
    put_red_legends(&mut title, leading, red, bold)?;
    put(&mut title, dashed_legend(bare))?;
    put(&mut title, dotted_legend(unsure))?;
    put(&mut title, legend_end(bare, red, unsure))?;
    Ok(title)
}
