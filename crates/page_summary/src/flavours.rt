//! The security flavours of the lines that grant something.

ghost use Rattle.std.specs.Prelude.{◌≡◌, ◌++◌, OnOk, map};
ghost use Rattle.std.specs.String.{string_bytes};
ghost use Rattle.page_html.specs.Tables.{row_html, rows_html};
ghost use Rattle.page_summary.specs.FlavoursTable as spec;

use desk_exports::Flavour;
use page_html::{Column, Frame, Part, Tag, Title, push_row, push_table_start, push_tag};
use page_lists::{Mention, some_parts};
use std::alloc::{AllocError, Global};

/// How many file systems a cell names.
const MOST_SYSTEMS: usize = 12;

/// The table.
const FLAVOURS: Frame = Frame {
    class: "a",
    is_titled: true,
    columns: &[
        Column::Name("Flavours"),
        Column::Plain("In words"),
        Column::Count("Lines"),
        Column::Count("without -ro"),
        Column::Plain("File systems"),
    ],
};

/// The lines with these flavours that grant something: how many there are, how many of them are not read-only, and the file systems that
/// have them.
#[derive(Clone, Copy)]
pub struct FlavoursRow<'a> {
    pub flavours: &'a [Flavour],
    pub lines: u64,
    pub writable: u64,
    pub systems: &'a [Mention<'a>],
}

/// Adds the flavours of the lines that grant something, in the order given.
pub fn push_flavours_table(
    alloc: Global,
    rows: &[FlavoursRow<'_>],
    page: &mut String,
) -> Result<(), AllocError>
    ensures { OnOk result (string_bytes page.new ≡ string_bytes page.old ++ spec.flavours_table rows.now) }
{
    push_table_start(
        alloc,
        &FLAVOURS,
        &[Title::Said("Security flavours of the lines that grant")],
        page,
    )?;
    push_rows(alloc, rows, page)?;
    push_tag(Tag::TableEnd, page)
}

/// Adds rows.
#[tactic(auto, unfolding(page_html::specs::Tables::rows_html))]
fn push_rows(alloc: Global, rows: &[FlavoursRow<'_>], page: &mut String) -> Result<(), AllocError>
    ensures { OnOk result (string_bytes page.new ≡ string_bytes page.old ++ rows_html spec.flavours_frame (map spec.row_cells rows.now)) }
{
    for row in rows {
        push_flavours(alloc, row, page)?;
    }
    Ok(())
}

/// Adds a row.
fn push_flavours(alloc: Global, row: &FlavoursRow<'_>, page: &mut String) -> Result<(), AllocError>
    ensures { OnOk result (string_bytes page.new ≡ string_bytes page.old ++ row_html spec.flavours_frame (spec.row_cells row.now)) }
{
    let systems = some_parts(alloc, row.systems, MOST_SYSTEMS)?;
    push_row(
        alloc,
        &FLAVOURS,
        &page_html::five_cells(
            &[Part::FlavourNames(row.flavours)],
            &[Part::Flavours(row.flavours)],
            &[Part::Number(row.lines)],
            &[Part::Number(row.writable)],
            systems.as_slice(),
        ),
        page,
    )?;
    Ok(())
}
