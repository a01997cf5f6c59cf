//! How many lines there are where mountd(8) may decide otherwise.

ghost use Rattle.std.specs.Prelude.{◌≡◌, ◌++◌, IfOk, OnOk};
ghost use Rattle.std.specs.String.{string_bytes};
ghost use Rattle.desk_server_notes.specs.CountsNote as spec;
ghost use Rattle.desk_server_notes.specs.CountsNote.{CountsFound, TellsCounts};
ghost use Rattle.desk_server_notes.specs.MountFindings.{AreRepeatedAt, AreWiderAt};

use crate::mount_findings::{repeated_at, wider_at};
use desk_index::Index;
use desk_policy::PolicyView;
use desk_tables::Mount;
use std::alloc::{AllocError, Global};

/// Counts, over all file systems, the lines where mountd(8) grants more than this desk, and the lines that it may leave out, since
/// they have a client of an earlier one. It says nothing if there are none.
pub fn counts_note(alloc: Global, index: &Index) -> Result<String, AllocError>
    ensures { IfOk result (λ note. TellsCounts index.now (string_bytes note)) }
{
    let mounts = index.policy().filesystems().as_slice();
    let wider = wider_count(alloc, index, mounts)?;
    let left_out = left_out_count(alloc, index, mounts)?;
    let mut note = String::new(alloc);
    push_counts(wider, left_out, &mut note)?;
    Ok(note)
}

/// Counts the lines of the file systems of these mount points where mountd(8) grants more. They are gathered, so that their number
/// is that of a list, and no sum.
fn wider_count(alloc: Global, index: &Index, mounts: &[Mount]) -> Result<usize, AllocError>
    ensures { IfOk result (CountsFound (AreWiderAt index.now) mounts.now) }
{
    let mut all = Vec::new(alloc);
    for mount in mounts {
        let found = wider_at(alloc, index, &mount.path)?;
        all.extend_from_slice(found.as_slice())?;
        drop(found);
    }
    Ok(all.len())
}

/// Counts the lines of the file systems of these mount points that have a client of an earlier one.
fn left_out_count(alloc: Global, index: &Index, mounts: &[Mount]) -> Result<usize, AllocError>
    ensures { IfOk result (CountsFound (AreRepeatedAt index.now) mounts.now) }
{
    let mut all = Vec::new(alloc);
    for mount in mounts {
        let found = repeated_at(alloc, index, &mount.path)?;
        all.extend_from_slice(found.as_slice())?;
        drop(found);
    }
    Ok(all.len())
}

/// Says how many lines there are of each kind, if there is one.
fn push_counts(wider: usize, left_out: usize, note: &mut String) -> Result<(), AllocError>
    ensures { OnOk result (string_bytes note.new ≡ string_bytes note.old ++ spec.counts_text wider left_out) }
{
    if wider == 0 && left_out == 0 {
        return Ok(());
    }
    note.push_str("exportdesk: mountd(8) ")?;
    push_both(wider, left_out, note)?;
    note.push_str(": see exportdesk check\n")
}

/// Adds what mountd(8) does at these lines.
fn push_both(wider: usize, left_out: usize, note: &mut String) -> Result<(), AllocError>
    ensures { OnOk result (string_bytes note.new ≡ string_bytes note.old ++ spec.both_text wider left_out) }
{
    push_wider(wider, note)?;
    push_between(wider, left_out, note)?;
    push_left_out(left_out, note)
}

/// Adds at how many lines it grants more, if there is one.
fn push_wider(wider: usize, note: &mut String) -> Result<(), AllocError>
    ensures { OnOk result (string_bytes note.new ≡ string_bytes note.old ++ spec.wider_text wider) }
{
    if wider == 0 {
        return Ok(());
    }
    note.push_str("grants more than this desk at ")?;
    push_lines(wider, note)
}

/// Adds what stands between the two, if both are there.
fn push_between(wider: usize, left_out: usize, note: &mut String) -> Result<(), AllocError>
    ensures { OnOk result (string_bytes note.new ≡ string_bytes note.old ++ spec.between wider left_out) }
{
    if wider == 0 || left_out == 0 {
        return Ok(());
    }
    note.push_str(", and ")
}

/// Adds how many lines it may leave out, if there is one.
fn push_left_out(left_out: usize, note: &mut String) -> Result<(), AllocError>
    ensures { OnOk result (string_bytes note.new ≡ string_bytes note.old ++ spec.left_out_text left_out) }
{
    if left_out == 0 {
        return Ok(());
    }
    note.push_str("may leave out ")?;
    push_lines(left_out, note)
}

/// Adds how many lines these are.
fn push_lines(count: usize, note: &mut String) -> Result<(), AllocError>
    ensures { OnOk result (string_bytes note.new ≡ string_bytes note.old ++ spec.lines_text count) }
{
    if count == 1 {
        return note.push_str("1 line");
    }
    write!(note, "{count} lines")
}
