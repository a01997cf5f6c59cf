//! What is said of the lines of a policy.

ghost use Rattle.std.specs.Prelude.{◌≡◌, ◌++◌, IfOk, OnOk, filter, ℕ};
ghost use Rattle.std.specs.List.{flat_map};
ghost use Rattle.desk_idle.specs.Laws.{WriteDirectories};
ghost use Rattle.desk_remarks.specs.EntryRemarks.{entry_remarks};
ghost use Rattle.desk_remarks.specs.PrivateUnwarnedLines.{is_outside};
ghost use Rattle.desk_remarks.specs.Remarks.{AreRemarks, AreRemarksOf};

use crate::entry_remarks::push_entry;
use crate::idle_remarks::push_idle;
use crate::remark::LineRemark;
use crate::said_of_systems::said_of_each;
use crate::server_remarks::push_server;
use crate::unwarned_lines::warned_lines;
use desk_index::Index;
use desk_policy::{Policy, PolicyView, Row, Warning};
use desk_text::{ReadError, Sequence};
use std::alloc::{AllocError, Global};
use std::collections::BTreeSet;

/// Lists what is said of the lines of a policy, which has these warnings of words: of each file system the lines that decide
/// nothing, and then what is said of each line by itself, but of lines that are warned of; and then of each file system where mountd(8)
/// grants more, and which lines have a client of an earlier one. It is nothing if the policy contradicts itself. In a policy that is
/// read from a text lines write directories (law `read_lines_write_directories` of desk_idle).
pub fn find_remarks(
    alloc: Global,
    policy: Policy,
    warnings: &[Warning],
    opinions: bool,
) -> Result<Sequence<LineRemark>, AllocError>
    requires { (fs : ℕ) → WriteDirectories policy fs }
    ensures { IfOk result (AreRemarks opinions policy warnings.now) }
{
    match Index::build(alloc, policy) {
        Ok(index) => {
            let found = remarks_in_force(alloc, &index, warnings, opinions);
            drop(index);
            found
        }
        Err(ReadError::Fault(fault)) => {
            drop(fault);
            Ok(Sequence::new(alloc))
        }
        Err(ReadError::Memory) => Err(AllocError),
    }
}

/// Lists what is said of the lines of a policy that does not contradict itself.
fn remarks_in_force(
    alloc: Global,
    index: &Index,
    warnings: &[Warning],
    opinions: bool,
) -> Result<Sequence<LineRemark>, AllocError>
    requires { (fs : ℕ) → WriteDirectories index.now fs }
    ensures { IfOk result (AreRemarksOf opinions index.now warnings.now) }
{
    let warned = warned_lines(alloc, warnings)?;
    let policy = index.policy();
    let saids = said_of_each(alloc, index, policy.filesystems().as_slice())?;
    let mut found = Sequence::new(alloc);
    push_idle(alloc, saids.as_slice(), &warned, &mut found)?;
    push_files(policy.rows_by_filesystem(), opinions, &warned, &mut found)?;
    push_server(saids.as_slice(), &mut found)?;
    drop(saids);
    drop(warned);
    Ok(found)
}

/// Adds what is said of each line of these file systems by itself, but of those that are warned of.
fn push_files(
    files: &[Sequence<Row>],
    opinions: bool,
    warned: &BTreeSet<u32>,
    found: &mut Sequence<LineRemark>,
) -> Result<(), AllocError>
    ensures { OnOk result (found.new ≡ found.old ++ flat_map (λ rows. flat_map (λ row. filter (is_outside warned.now) (entry_remarks opinions row.entry)) rows) files.now) }
{
    for rows in files {
        push_rows(rows.as_slice(), opinions, warned, found)?;
    }
    Ok(())
}

/// Adds what is said of each of these lines by itself, but of those that are warned of.
fn push_rows(
    rows: &[Row],
    opinions: bool,
    warned: &BTreeSet<u32>,
    found: &mut Sequence<LineRemark>,
) -> Result<(), AllocError>
    ensures { OnOk result (found.new ≡ found.old ++ flat_map (λ row. filter (is_outside warned.now) (entry_remarks opinions row.entry)) rows.now) }
{
    for row in rows {
        push_entry(&row.entry, opinions, warned, found)?;
    }
    Ok(())
}
