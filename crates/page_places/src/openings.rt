//! What the server grants of directories that are denied here.

ghost use Rattle.std.specs.Prelude.{◌≡◌, ◌++◌, ◌∷◌, IfOk, OnOk, map};
ghost use Rattle.std.specs.List.{flat_map};
ghost use Rattle.std.specs.String.{string_bytes};
ghost use Rattle.page_html.specs.Parts.{item_of};
ghost use Rattle.page_findings.specs.Joining.{comma};
ghost use Rattle.page_places.specs.Openings as spec;

use crate::names::place_part;
use desk_impact::Place;
use desk_tables::FsId;
use desk_text::Addr;
use page_html::{Element, Part, Span, push_element};
use std::alloc::{AllocError, Global};

/// So many of them are told.
const MOST: usize = 6;

/// The server grants a client what is denied here.
#[derive(Clone, Copy)]
pub struct PlaceOpening<'a> {
    pub place: Place<'a>,
    pub address: Addr,
    /// The line that the denial names.
    pub denied: u32,
    /// The line by which the server grants it.
    pub line: u32,
}

/// Adds what the server grants, if it grants something.
pub(crate) fn push_openings(
    alloc: Global,
    fs: FsId,
    openings: &[PlaceOpening<'_>],
    page: &mut String,
) -> Result<(), AllocError>
    ensures { OnOk result (string_bytes page.new ≡ string_bytes page.old ++ spec.openings_text fs.0 openings.now) }
{
    if openings.is_empty() {
        return Ok(());
    }
    let parts = told_parts(alloc, fs, openings)?;
    push_element(alloc, Element::Paragraph, parts.as_slice(), page)
}

/// Gathers the first of what the server grants, and how many more there are.
fn told_parts<'a>(
    alloc: Global,
    fs: FsId,
    openings: &[PlaceOpening<'a>],
) -> Result<Vec<Part<'a>>, AllocError>
    ensures { IfOk result (λ parts. map item_of parts.items ≡ spec.told_items fs.0 openings.now) }
{
    let (told, others) = openings.split_at(MOST.min(openings.len()));
    let mut parts = Vec::new(alloc);
    parts.push(Part::Words("mountd(8) grants more: "))?;
    push_list(fs, told, &mut parts)?;
    parts.push(Part::AndMore(others.len() as u64))?;
    Ok(parts)
}

/// Adds them with commas between them.
fn push_list<'a>(
    fs: FsId,
    openings: &[PlaceOpening<'a>],
    parts: &mut Vec<Part<'a>>,
) -> Result<(), AllocError>
    ensures { OnOk result (map item_of parts.new.items ≡ map item_of parts.old.items ++ spec.opening_list fs.0 openings.now) }
{
    match openings {
        [] => Ok(()),
        [first, others @ ..] => {
            push_opening(fs, first, parts)?;
            push_later(fs, others, parts)
        }
    }
}

/// Adds those behind the first.
fn push_later<'a>(
    fs: FsId,
    openings: &[PlaceOpening<'a>],
    parts: &mut Vec<Part<'a>>,
) -> Result<(), AllocError>
    ensures { OnOk result (map item_of parts.new.items
        ≡ map item_of parts.old.items ++ flat_map (λ one. comma ∷ spec.opening_items fs.0 one) openings.now) }
{
    for one in openings {
        parts.push(Part::Words(", "))?;
        push_opening(fs, one, parts)?;
    }
    Ok(())
}

/// Adds what the server grants to whom, by which line, and which line denies it.
fn push_opening<'a>(
    fs: FsId,
    one: &PlaceOpening<'a>,
    parts: &mut Vec<Part<'a>>,
) -> Result<(), AllocError>
    ensures { OnOk result (map item_of parts.new.items ≡ map item_of parts.old.items ++ spec.opening_items fs.0 one.now) }
{
    let client = Span {
        first: one.address,
        last: one.address,
    };
    let more = [
        place_part(one.place),
        Part::Words(" to "),
        Part::Range(client),
        Part::Words(" by "),
        Part::LineLink(fs, one.line),
        Part::Words(" (denied here by "),
        Part::LineLink(fs, one.denied),
        Part::Words(")"),
    ];
    parts.extend_from_slice(&more)?;
    Ok(())
}
