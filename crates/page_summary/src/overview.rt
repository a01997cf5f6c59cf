//! The file systems of a site, with a row for each.

ghost use Rattle.std.specs.Prelude.{◌≡◌, ◌++◌, OnOk, map};
ghost use Rattle.std.specs.Option.{option_copied};
ghost use Rattle.std.specs.String.{string_bytes};
ghost use Rattle.page_html.specs.Parts.{item_of};
ghost use Rattle.page_html.specs.Tables.{row_html, rows_html, short_row_html};
ghost use Rattle.page_summary.specs.Overview as spec;

use crate::findings::SPACE;
use desk_core::Head;
use desk_tables::FsId;
use desk_text::Text;
use page_data::Class;
use page_findings::badge_part;
use page_html::{
    Column, Frame, Part, Tag, Title, push_fixed, push_row, push_short_row, push_table_start,
    push_tag,
};
use page_maps::FixedMaps;
use std::alloc::{AllocError, Global};

/// The key of the maps.
const LEGEND: &str = r##"<ul class="legend">
<li><svg class="key" viewBox="-.5 -.5 5 5" aria-hidden="true" focusable="false"><path class="g" d="M0 0h4v4h-4z"/></svg> nobody</li>
<li><svg class="key" viewBox="-.5 -.5 5 5" aria-hidden="true" focusable="false"><path class="g" d="M0 0h4v4h-4z"/><path class="o" d="M0 0h4v4h-4z"/></svg> all read-only</li>
<li><svg class="key" viewBox="-.5 -.5 5 5" aria-hidden="true" focusable="false"><path class="g" d="M0 0h4v4h-4z"/><path class="w" d="M0 0h4v4h-4z"/></svg> all read-write</li>
<li><svg class="key" viewBox="-.5 -.5 5 5" aria-hidden="true" focusable="false"><path class="g" d="M0 0h4v4h-4z"/><path class="r" d="M0 0h4v4h-4z"/></svg> all, root kept</li>
<li><svg class="key" viewBox="-.5 -.5 5 5" aria-hidden="true" focusable="false"><path class="g" d="M0 0h4v4h-4z"/><path class="o k" d="M1 1h2v2h-2z"/></svg> some read-only</li>
<li><svg class="key" viewBox="-.5 -.5 5 5" aria-hidden="true" focusable="false"><path class="g" d="M0 0h4v4h-4z"/><path class="w k" d="M1 1h2v2h-2z"/></svg> some read-write</li>
<li><svg class="key" viewBox="-.5 -.5 5 5" aria-hidden="true" focusable="false"><path class="g" d="M0 0h4v4h-4z"/><path class="r k" d="M2 0l2 2-2 2-2-2z"/></svg> some, root kept</li>
<li><svg class="key" viewBox="-.5 -.5 5 5" aria-hidden="true" focusable="false"><path class="g" d="M0 0h4v4h-4z"/><path class="o" d="M0 0h4v4h-4z"/><path class="r k" d="M2 0l2 2-2 2-2-2z"/></svg> all read-only, and some with root kept</li>
</ul>
<p class="key">A cell shows what all its addresses may, and in its middle the most that some may. <a href="#read">More on the maps</a></p>
"##;

/// The table.
const OVERVIEW: Frame = Frame {
    class: "o",
    is_titled: false,
    columns: &[
        Column::Name("File system"),
        Column::Plain("At the most"),
        Column::Plain("all of IPv4"),
        Column::Plain("10.0.0.0/8"),
        Column::Plain("172.16.0.0/12"),
        Column::Plain("192.168.0.0/16"),
        Column::Count("Addresses"),
        Column::Plain("Kept by"),
        Column::Plain("In force"),
        Column::Plain("Stands out"),
    ],
};

/// How far file systems reach: the most that an address may, the maps, and how many addresses may something.
#[derive(Clone, Copy)]
pub struct Reach<'a> {
    pub most: Class,
    pub maps: &'a FixedMaps,
    pub addresses: u64,
}

/// A file system: how far it reaches, who keeps it, its newest revision, whether a proposal waits, and how many of its lines are to be
/// looked at first and to be checked.
#[derive(Clone, Copy)]
pub struct SystemRow<'a> {
    pub fs: FsId,
    pub name: &'a str,
    pub reach: Reach<'a>,
    pub custodians: &'a [Text],
    pub guarded: bool,
    pub head: Option<&'a Head>,
    pub has_proposal: bool,
    pub first: u64,
    pub check: u64,
}

/// Adds the key of the maps, a row for all file systems together, and one for each.
pub fn push_overview(
    alloc: Global,
    together: &Reach<'_>,
    rows: &[SystemRow<'_>],
    page: &mut String,
) -> Result<(), AllocError>
    ensures { OnOk result (string_bytes page.new ≡ string_bytes page.old ++ spec.overview together.now rows.now) }
{
    push_fixed(LEGEND, page)?;
    push_table_start(
        alloc,
        &OVERVIEW,
        &[Title::Said(
            "The file systems, and where the clients are that may mount some directory of them",
        )],
        page,
    )?;
    push_any(alloc, together, page)?;
    push_rows(alloc, rows, page)?;
    push_tag(Tag::TableEnd, page)
}

/// Adds the row for all file systems together.
fn push_any(alloc: Global, together: &Reach<'_>, page: &mut String) -> Result<(), AllocError>
    ensures { OnOk result (string_bytes page.new ≡ string_bytes page.old ++ short_row_html spec.overview_frame (spec.any_cells together.now)) }
{
    push_short_row(
        alloc,
        &OVERVIEW,
        &[
            &[Part::Strong("any of them")],
            &[badge_part(together.most)],
            &[Part::Drawn(&together.maps.all)],
            &[Part::Drawn(&together.maps.wide)],
            &[Part::Drawn(&together.maps.middle)],
            &[Part::Drawn(&together.maps.narrow)],
            &[Part::PartOf(together.addresses, SPACE)],
        ],
        page,
    )
}

/// Adds the rows for each.
#[tactic(auto, unfolding(page_html::specs::Tables::rows_html))]
fn push_rows(alloc: Global, rows: &[SystemRow<'_>], page: &mut String) -> Result<(), AllocError>
    ensures { OnOk result (string_bytes page.new ≡ string_bytes page.old ++ rows_html spec.overview_frame (map spec.cells rows.now)) }
{
    for row in rows {
        push_system(alloc, row, page)?;
    }
    Ok(())
}

/// Adds the row of a file system.
fn push_system(alloc: Global, row: &SystemRow<'_>, page: &mut String) -> Result<(), AllocError>
    ensures { OnOk result (string_bytes page.new ≡ string_bytes page.old ++ row_html spec.overview_frame (spec.cells row.now)) }
{
    push_row(
        alloc,
        &OVERVIEW,
        &[
            &[Part::System(row.fs, row.name)],
            &[badge_part(row.reach.most)],
            &[Part::Drawn(&row.reach.maps.all)],
            &[Part::Drawn(&row.reach.maps.wide)],
            &[Part::Drawn(&row.reach.maps.middle)],
            &[Part::Drawn(&row.reach.maps.narrow)],
            &[Part::PartOf(row.reach.addresses, SPACE)],
            &keepers(row.custodians, row.guarded),
            &in_force(row),
            &standing_out(row),
        ],
        page,
    )
}

/// Returns who keeps a file system, and whether it is guarded.
fn keepers<'a>(custodians: &'a [Text], guarded: bool) -> [Part<'a>; 3]
    ensures { map item_of result ≡ spec.keepers custodians.now guarded }
{
    [
        Part::Codes(custodians),
        part_if(guarded, Part::Words(" ")),
        part_if(guarded, Part::Strong("guarded")),
    ]
}

/// Returns a part, if something is so.
fn part_if<'a>(is_so: bool, part: Part<'a>) -> Part<'a>
    ensures { item_of result ≡ spec.item_if is_so (item_of part.entry) }
{
    if is_so { part } else { Part::Nothing }
}

/// Returns the newest revision, by whom it is, and whether a proposal waits.
fn in_force<'a>(row: &SystemRow<'a>) -> [Part<'a>; 6]
    ensures { map item_of result ≡ spec.in_force (option_copied row.now.head) row.now.has_proposal }
{
    let space = part_if(row.has_proposal, Part::Words(" "));
    let waits = part_if(row.has_proposal, Part::Strong("proposal waits"));
    match row.head {
        None => [
            Part::Words("none"),
            Part::Nothing,
            Part::Nothing,
            Part::Nothing,
            space,
            waits,
        ],
        Some(head) => [
            Part::Words("rev "),
            Part::Digits(head.rev),
            Part::Words(" by "),
            Part::Code(head.author.as_str()),
            space,
            waits,
        ],
    }
}

/// Returns how many lines are to be looked at first, and behind it how many are to be checked.
fn standing_out<'a>(row: &SystemRow<'a>) -> [Part<'a>; 3]
    ensures { map item_of result ≡ spec.standing_out row.now.first row.now.check }
{
    let first = Part::Plural(row.first, "look first", "look first");
    let check = Part::Plural(row.check, "check", "check");
    if row.first == 0 && row.check == 0 {
        [Part::Zero("nothing"), Part::Nothing, Part::Nothing]
    } else if row.first == 0 {
        [check, Part::Nothing, Part::Nothing]
    } else if row.check == 0 {
        [first, Part::Nothing, Part::Nothing]
    } else {
        [first, Part::Words(", "), check]
    }
}
