//! What stands around the groups of directories: their heading, and how many are not listed.

ghost use Rattle.std.specs.Prelude.{◌≡◌, ◌++◌, OnOk, map};
ghost use Rattle.std.specs.String.{string_bytes};
ghost use Rattle.page_html.specs.Parts.{item_of};
ghost use Rattle.page_places.specs.Lists as spec;

use crate::names::more_directories;
use page_html::{Element, Part, push_element};
use std::alloc::{AllocError, Global};

/// How many groups of directories may have maps of their own.
const MOST_DRAWN: u64 = 12;

/// Begins what tells of so many groups of directories.
pub fn push_groups_start(alloc: Global, count: u64, page: &mut String) -> Result<(), AllocError>
    ensures { OnOk result (string_bytes page.new ≡ string_bytes page.old ++ spec.groups_start count) }
{
    push_element(
        alloc,
        Element::PlacesHeading,
        &[Part::Words("Who may mount which directory")],
        page,
    )?;
    push_not_drawn(alloc, count, page)
}

/// Adds that groups have no maps, if there are so many.
fn push_not_drawn(alloc: Global, count: u64, page: &mut String) -> Result<(), AllocError>
    ensures { OnOk result (string_bytes page.new ≡ string_bytes page.old ++ spec.not_drawn count) }
{
    if count > MOST_DRAWN {
        let parts = [
            Part::Words("Maps of the single directories are not drawn: there are "),
            Part::Number(count),
            Part::Words(" lists."),
        ];
        push_element(alloc, Element::Cut, &parts, page)
    } else {
        Ok(())
    }
}

/// Adds how many directories are not listed, and whether the other directories are.
pub fn push_not_listed(
    alloc: Global,
    count: u64,
    has_others: bool,
    page: &mut String,
) -> Result<(), AllocError>
    ensures { OnOk result (string_bytes page.new ≡ string_bytes page.old ++ spec.not_listed count has_others) }
{
    if count == 0 && !has_others {
        return Ok(());
    }
    let parts = unlisted(count, has_others);
    push_element(alloc, Element::Cut, &parts, page)
}

/// Returns what is not listed.
fn unlisted<'a>(count: u64, has_others: bool) -> [Part<'a>; 6]
    ensures { map item_of result ≡ spec.unlisted count has_others }
{
    [
        Part::Words("Not listed here: "),
        directories(count),
        Part::Words(and_others(count, has_others)),
        Part::Words("; "),
        Part::Word("exportdesk who"),
        Part::Words(" answers for each."),
    ]
}

/// Returns how many directories are not listed, or that the other directories alone are not.
fn directories<'a>(count: u64) -> Part<'a>
    ensures { item_of result ≡ spec.directories count }
{
    if count == 0 {
        Part::Words("other directories")
    } else {
        more_directories(count)
    }
}

/// Returns that the other directories are among them.
fn and_others(count: u64, has_others: bool) -> &'static str
    ensures { result.now ≡ spec.and_others count has_others }
{
    if count == 0 {
        ""
    } else if has_others {
        " and other directories"
    } else {
        ""
    }
}
