//! The cells of a row of the table of networks, as parts of the page.

ghost use Rattle.std.specs.Prelude.{◌≡◌, ◌++◌, ◌∷◌, IfOk, OnOk, map};
ghost use Rattle.std.specs.List.{flat_map};
ghost use Rattle.page_html.specs.Parts.{item_of};
ghost use Rattle.page_maps.specs.NetworkCells as spec;

use crate::networks::{SystemClass, SystemCounts};
use desk_policy::{Policy, mount_text};
use page_findings::{Measure, badge_part, measured};
use page_html::Part;
use std::alloc::{AllocError, Global};

/// So many file systems are named in a cell.
const MOST: usize = 12;

/// Gathers the file systems on which all addresses may the same.
pub(crate) fn alike_parts<'a>(
    alloc: Global,
    policy: &'a Policy,
    ones: &[SystemClass],
) -> Result<Vec<Part<'a>>, AllocError>
    ensures { IfOk result (λ parts. map item_of parts.items ≡ spec.alike_cell policy.now ones.now) }
{
    let (named, others) = ones.split_at(MOST.min(ones.len()));
    let mut parts = Vec::new(alloc);
    push_alike(policy, named, &mut parts)?;
    push_more(Part::Words("; "), others.len() as u64, &mut parts)?;
    Ok(parts)
}

/// Adds some of them, or a dash if there are none.
fn push_alike<'a>(
    policy: &'a Policy,
    ones: &[SystemClass],
    parts: &mut Vec<Part<'a>>,
) -> Result<(), AllocError>
    ensures { OnOk result (map item_of parts.new.items ≡ map item_of parts.old.items ++ spec.each_or_dash (spec.alike policy.now) spec.semicolon ones.now) }
{
    match ones {
        [] => push_all(&[Part::Zero("-")], parts),
        [first, others @ ..] => {
            push_all(&alike(policy, first), parts)?;
            push_later_alike(policy, others, parts)
        }
    }
}

/// Adds those behind the first.
fn push_later_alike<'a>(
    policy: &'a Policy,
    ones: &[SystemClass],
    parts: &mut Vec<Part<'a>>,
) -> Result<(), AllocError>
    ensures { OnOk result (map item_of parts.new.items
        ≡ map item_of parts.old.items ++ flat_map (λ one. spec.semicolon ∷ spec.alike policy.now one) ones.now) }
{
    for one in ones {
        push_all(&[Part::Words("; ")], parts)?;
        push_all(&alike(policy, one), parts)?;
    }
    Ok(())
}

/// Returns a file system, and what all addresses may there.
fn alike<'a>(policy: &'a Policy, one: &SystemClass) -> [Part<'a>; 3]
    ensures { map item_of result ≡ spec.alike policy.now one.now }
{
    [
        Part::System(one.fs, mount_text(policy, one.fs)),
        Part::Words(" "),
        badge_part(one.class),
    ]
}

/// Gathers the file systems on which they do not all may the same.
pub(crate) fn mixed_parts<'a>(
    alloc: Global,
    policy: &'a Policy,
    ones: &[SystemCounts],
) -> Result<Vec<Part<'a>>, AllocError>
    ensures { IfOk result (λ parts. map item_of parts.items ≡ spec.mixed_cell policy.now ones.now) }
{
    let (named, others) = ones.split_at(MOST.min(ones.len()));
    let mut parts = Vec::new(alloc);
    push_mixed(alloc, policy, named, &mut parts)?;
    push_more(Part::Break, others.len() as u64, &mut parts)?;
    Ok(parts)
}

/// Adds some of them, or a dash if there are none.
fn push_mixed<'a>(
    alloc: Global,
    policy: &'a Policy,
    ones: &[SystemCounts],
    parts: &mut Vec<Part<'a>>,
) -> Result<(), AllocError>
    ensures { OnOk result (map item_of parts.new.items ≡ map item_of parts.old.items ++ spec.each_or_dash (spec.counted policy.now) spec.line_break ones.now) }
{
    match ones {
        [] => push_all(&[Part::Zero("-")], parts),
        [first, others @ ..] => {
            push_counted(alloc, policy, first, parts)?;
            push_later_mixed(alloc, policy, others, parts)
        }
    }
}

/// Adds those behind the first.
fn push_later_mixed<'a>(
    alloc: Global,
    policy: &'a Policy,
    ones: &[SystemCounts],
    parts: &mut Vec<Part<'a>>,
) -> Result<(), AllocError>
    ensures { OnOk result (map item_of parts.new.items
        ≡ map item_of parts.old.items ++ flat_map (λ one. spec.line_break ∷ spec.counted policy.now one) ones.now) }
{
    for one in ones {
        push_all(&[Part::Break], parts)?;
        push_counted(alloc, policy, one, parts)?;
    }
    Ok(())
}

/// Adds a file system, and how many addresses may what there.
fn push_counted<'a>(
    alloc: Global,
    policy: &'a Policy,
    one: &SystemCounts,
    parts: &mut Vec<Part<'a>>,
) -> Result<(), AllocError>
    ensures { OnOk result (map item_of parts.new.items ≡ map item_of parts.old.items ++ spec.counted policy.now one.now) }
{
    let counts = measured(alloc, Measure::Share, &one.counts)?;
    let link = [
        Part::System(one.fs, mount_text(policy, one.fs)),
        Part::Words(" "),
    ];
    push_all(&link, parts)?;
    push_all(counts.as_slice(), parts)
}

/// Adds how many more file systems there are, if there are any.
fn push_more<'a>(between: Part<'a>, count: u64, parts: &mut Vec<Part<'a>>) -> Result<(), AllocError>
    ensures { OnOk result (map item_of parts.new.items ≡ map item_of parts.old.items ++ spec.more_systems (item_of between.entry) count) }
{
    if count == 0 {
        return Ok(());
    }
    let more = [
        between,
        Part::Plural(count, "more file system", "more file systems"),
    ];
    push_all(&more, parts)
}

/// Adds parts behind others.
fn push_all<'a>(more: &[Part<'a>], parts: &mut Vec<Part<'a>>) -> Result<(), AllocError>
    ensures { OnOk result (map item_of parts.new.items ≡ map item_of parts.old.items ++ map item_of more.now) }
{
    parts.extend_from_slice(more)?;
    Ok(())
}
