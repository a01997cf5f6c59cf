//! What is said of lines that decide nothing.

ghost use Rattle.std.specs.Prelude.{◌≡◌, ◌++◌, ◌∷◌, [], IfOk, OnOk, filter, map};
ghost use Rattle.std.specs.BTreeSet.{contains};
ghost use Rattle.std.specs.List.{flat_map};
ghost use Rattle.std.specs.Ordering.{nat_cmp};
ghost use Rattle.desk_remarks.specs.PrivateRemarks.{HasOthers};
ghost use Rattle.desk_remarks.specs.PrivateUnwarnedLines.{is_outside};
ghost use Rattle.desk_remarks.specs.Remarks as spec;
ghost use Rattle.desk_remarks.specs.Remarks.{idle_remarks};

use crate::remark::{Example, LineRemark, Remark};
use crate::said_of_systems::Said;
use crate::unwarned_lines::push_unwarned;
use desk_idle::{Idle, Reason};
use desk_server::WiderGrant;
use desk_text::Sequence;
use std::alloc::{AllocError, Global};
use std::collections::BTreeSet;

/// Adds that the lines of file systems decide nothing that do, but of those that are warned of.
pub(crate) fn push_idle(
    alloc: Global,
    saids: &[Said<'_>],
    warned: &BTreeSet<u32>,
    found: &mut Sequence<LineRemark>,
) -> Result<(), AllocError>
    ensures { OnOk result (found.new ≡ found.old ++ flat_map (λ said. filter (is_outside warned.now) (idle_remarks said)) saids.now) }
{
    for said in saids {
        push_idle_of(
            alloc,
            said.idle.as_slice(),
            said.wider.as_slice(),
            warned,
            found,
        )?;
    }
    Ok(())
}

/// Adds that these lines of a file system decide nothing, where the server grants more to the clients of those lines.
fn push_idle_of(
    alloc: Global,
    idle: &[Idle],
    wider: &[WiderGrant<'_>],
    warned: &BTreeSet<u32>,
    found: &mut Sequence<LineRemark>,
) -> Result<(), AllocError>
    ensures { OnOk result (found.new ≡ found.old ++ filter (is_outside warned.now) (map (spec.idle_remark wider.now) idle.now)) }
{
    let others = others_of(alloc, wider)?;
    push_each(idle, &others, warned, found)?;
    drop(others);
    Ok(())
}

/// Gathers the numbers of the lines by which the server grants more.
fn others_of(alloc: Global, wider: &[WiderGrant<'_>]) -> Result<BTreeSet<u32>, AllocError>
    ensures { IfOk result (HasOthers wider.now) }
{
    let mut others = BTreeSet::new(alloc);
    for one in wider {
        others.insert(one.other)?;
    }
    Ok(others)
}

/// Adds that these lines decide nothing. By the others the server may grant.
fn push_each(
    idle: &[Idle],
    others: &BTreeSet<u32>,
    warned: &BTreeSet<u32>,
    found: &mut Sequence<LineRemark>,
) -> Result<(), AllocError>
    ensures { OnOk result (found.new ≡ found.old
        ++ flat_map (λ one. filter (is_outside warned.now) (spec.idle_remark_if (contains nat_cmp others.now one.line) one ∷ [])) idle.now) }
{
    for one in idle {
        let remark = idle_remark(others.contains(&one.line), *one);
        push_unwarned(remark, warned, found)?;
    }
    Ok(())
}

/// Makes the remark that a line decides nothing, by which mountd(8) may grant, or not.
fn idle_remark(grants: bool, idle: Idle) -> LineRemark
    ensures { result ≡ spec.idle_remark_if grants idle }
{
    LineRemark {
        line: idle.line,
        remark: remark_of(grants, idle.reason),
        example: example_of(idle.reason),
        directory: None,
    }
}

/// Gives what is said of a line that decides nothing, by the reason.
fn remark_of(grants: bool, reason: Reason) -> Remark
    ensures { result ≡ spec.remark_of grants reason }
{
    match (reason, grants) {
        (Reason::NoClient, _) => Remark::NoClient,
        (Reason::Shadowed(_, _), true) => Remark::ShadowedHere,
        (Reason::Shadowed(_, _), false) => Remark::Shadowed,
        (Reason::Repeated(_, _), _) => Remark::Repeated,
    }
}

/// Gives what shows it, if anything does.
fn example_of(reason: Reason) -> Option<Example>
    ensures { result ≡ spec.example_of reason }
{
    match reason {
        Reason::NoClient => None,
        Reason::Shadowed(line, address) | Reason::Repeated(line, address) => {
            Some(Example { line, address })
        }
    }
}
