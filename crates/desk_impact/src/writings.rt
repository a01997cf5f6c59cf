//! The lines that write a directory.

ghost use Rattle.std.specs.Prelude.{◌≡◌, ◌++◌, IfOk, OnOk, map};
ghost use Rattle.std.specs.List.{flat_map};
ghost use Rattle.desk_impact.specs.PrivateWritings.{HasWriters};
ghost use Rattle.desk_impact.specs.Writings.{AreInByteOrder, AreWritings, writing_value, written_by, written_by_all};

use desk_policy::{Policy, Row};
use desk_text::Path;
use std::alloc::{AllocError, Global};

/// A line, and a directory that it writes.
#[derive(Clone, Copy)]
pub struct Writing<'a> {
    pub dir: &'a Path,
    pub row: &'a Row,
}

/// Lists the lines of two policies, each for each directory that it writes, in byte order of the directories.
pub fn writings_of_both<'a>(
    alloc: Global,
    before: &'a Policy,
    after: &'a Policy,
) -> Result<Vec<Writing<'a>>, AllocError>
    ensures { IfOk result (λ writings. AreWritings before.now after.now writings.items) }
{
    let mut writings = Vec::new(alloc);
    push_policy(&mut writings, before)?;
    push_policy(&mut writings, after)?;
    writings.sort_unstable_by_key(|writing| writing.dir);
    Ok(writings)
}

/// Adds those of a policy.
fn push_policy<'a>(writings: &mut Vec<Writing<'a>>, policy: &'a Policy) -> Result<(), AllocError>
    ensures { OnOk result (map writing_value writings.new.items ≡ map writing_value writings.old.items ++ flat_map written_by_all policy.now.rows) }
{
    for rows in policy.rows_by_filesystem() {
        push_rows(writings, rows.as_slice())?;
    }
    Ok(())
}

/// Adds those of some lines.
fn push_rows<'a>(writings: &mut Vec<Writing<'a>>, rows: &'a [Row]) -> Result<(), AllocError>
    ensures { OnOk result (map writing_value writings.new.items ≡ map writing_value writings.old.items ++ written_by_all rows.now) }
{
    for row in rows {
        push_row(writings, row)?;
    }
    Ok(())
}

/// Adds those of a line.
fn push_row<'a>(writings: &mut Vec<Writing<'a>>, row: &'a Row) -> Result<(), AllocError>
    ensures { OnOk result (map writing_value writings.new.items ≡ map writing_value writings.old.items ++ written_by row.now) }
{
    for dir in row.entry.dirs.as_slice() {
        writings.push(Writing { dir, row })?;
    }
    Ok(())
}

/// Lists the lines that write a directory, by two binary searches.
pub(crate) fn writers<'a>(
    alloc: Global,
    writings: &[Writing<'a>],
    dir: &Path,
) -> Result<Vec<&'a Row>, AllocError>
    requires { AreInByteOrder writings.now }
    ensures { IfOk result (λ rows. HasWriters writings.now dir.now (map (λ row. row.now) rows.items)) }
{
    let end = writings.partition_point(|writing| *writing.dir <= *dir);
    let begin = writings[..end].partition_point(|writing| *writing.dir < *dir);
    let mut rows = Vec::new(alloc);
    for writing in &writings[begin..end] {
        rows.push(writing.row)?;
    }
    Ok(rows)
}
