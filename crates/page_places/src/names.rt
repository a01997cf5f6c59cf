//! The names of directories that are granted alike.

ghost use Rattle.std.specs.Prelude.{◌≡◌, ◌++◌, IfOk, OnOk, map};
ghost use Rattle.std.specs.List.{flat_map};
ghost use Rattle.std.specs.String.{string_bytes};
ghost use Rattle.desk_impact.specs.Places.{place_of};
ghost use Rattle.desk_impact.specs.Sections.{section_value};
ghost use Rattle.page_html.specs.Blocks.{element_html};
ghost use Rattle.page_html.specs.Parts.{item_of};
ghost use Rattle.page_html.specs.Titles.{title_of, titles_of};
ghost use Rattle.page_places.specs.Names as spec;

use desk_impact::{Place, Section};
use desk_text::{Path, Sequence};
use page_html::{Element, Part, Tag, Title, push_element, push_tag};
use std::alloc::{AllocError, Global};

/// How many names stand in a heading, and in a caption.
const MOST_NAMES: usize = 8;

const MOST_IN_CAPTION: usize = 3;

/// The directories of a group, and whether the other directories of its file system are in it.
#[derive(Drop)]
pub(crate) struct Members<'a> {
    pub directories: Sequence<&'a Path>,
    pub has_others: bool,
}

/// Gathers what is in a group, given the places of it.
pub(crate) fn members_of<'a>(
    alloc: Global,
    sections: &[Section<'a>],
) -> Result<Members<'a>, AllocError>
    ensures { IfOk result (λ members. spec.members_value members ≡ spec.members_in (map section_value sections.now)) }
{
    let mut members = Members {
        directories: Sequence::new(alloc),
        has_others: false,
    };
    for section in sections {
        add_place(&mut members, section.place)?;
    }
    Ok(members)
}

/// Adds a place.
fn add_place<'a>(members: &mut Members<'a>, place: Place<'a>) -> Result<(), AllocError>
    ensures { OnOk result (spec.members_value members.new ≡ spec.with_place (spec.members_value members.old) (place_of place.entry)) }
{
    match place {
        Place::Directory(path) => members.directories.push(path),
        Place::Others(_) => {
            members.has_others = true;
            Ok(())
        }
    }
}

/// Returns the name of a place.
pub(crate) fn place_part<'a>(place: Place<'a>) -> Part<'a>
    ensures { item_of result ≡ spec.place_item (place_of place.entry) }
{
    match place {
        Place::Directory(path) => Part::Code(path.text()),
        Place::Others(_) => Part::Words("other directories"),
    }
}

/// Returns how many directories there are more.
pub(crate) fn more_directories<'a>(count: u64) -> Part<'a>
    ensures { item_of result ≡ spec.more_directories count }
{
    Part::Plural(count, "more directory", "more directories")
}

/// Gathers what the table of a group is called.
pub(crate) fn caption_of<'a>(
    alloc: Global,
    members: &Members<'a>,
) -> Result<Vec<Title<'a>>, AllocError>
    ensures { IfOk result (λ title. titles_of title.items ≡ spec.caption (spec.members_value members.now)) }
{
    let mut title = Vec::new(alloc);
    title.push(Title::Said("Who may mount "))?;
    push_members(MOST_IN_CAPTION, members, &mut title)?;
    Ok(title)
}

/// Adds what is in a group: so many of its directories, how many it has more, and the other directories, if they are in it.
fn push_members<'a>(
    most: usize,
    members: &Members<'a>,
    title: &mut Vec<Title<'a>>,
) -> Result<(), AllocError>
    ensures { OnOk result (titles_of title.new.items ≡ titles_of title.old.items ++ spec.group_words most (spec.members_value members.now)) }
{
    let paths = members.directories.as_slice();
    let (named, others) = paths.split_at(most.min(paths.len()));
    push_names(named, title)?;
    title.push(Title::Further(others.len() as u64))?;
    title.push(Title::Said(others_words(members.has_others, paths.is_empty())))?;
    Ok(())
}

/// Adds the names of directories, with commas between them.
fn push_names<'a>(paths: &[&'a Path], title: &mut Vec<Title<'a>>) -> Result<(), AllocError>
    ensures { OnOk result (titles_of title.new.items ≡ titles_of title.old.items ++ spec.names (spec.paths_in paths.now)) }
{
    match paths {
        [] => Ok(()),
        [first, others @ ..] => {
            title.push(Title::Named(first.text()))?;
            push_later_names(others, title)
        }
    }
}

/// Adds the names behind the first.
fn push_later_names<'a>(paths: &[&'a Path], title: &mut Vec<Title<'a>>) -> Result<(), AllocError>
    ensures { OnOk result (titles_of title.new.items ≡ titles_of title.old.items ++ flat_map spec.later (spec.paths_in paths.now)) }
{
    for path in paths {
        title.push(Title::Said(", "))?;
        title.push(Title::Named(path.text()))?;
    }
    Ok(())
}

/// Returns the name of the other directories, if they are in a group, with a comma unless it is the only name.
fn others_words(has_others: bool, is_alone: bool) -> &'static str
    ensures { result.now ≡ spec.others_words has_others is_alone }
{
    if !has_others {
        ""
    } else if is_alone {
        "other directories"
    } else {
        ", other directories"
    }
}

/// Adds the names of the directories of a group as its heading, and folded those that it leaves out.
pub(crate) fn push_heading(
    alloc: Global,
    members: &Members<'_>,
    page: &mut String,
) -> Result<(), AllocError>
    ensures { OnOk result (string_bytes page.new ≡ string_bytes page.old ++ spec.heading (spec.members_value members.now)) }
{
    let mut title = Vec::new(alloc);
    push_members(MOST_NAMES, members, &mut title)?;
    push_shown(alloc, Element::PlaceHeading, title.as_slice(), page)?;
    let paths = members.directories.as_slice();
    let (_, others) = paths.split_at(MOST_NAMES.min(paths.len()));
    push_left_out(alloc, others, page)
}

/// Adds names that are folded, if there are any.
fn push_left_out(alloc: Global, paths: &[&Path], page: &mut String) -> Result<(), AllocError>
    ensures { OnOk result (string_bytes page.new ≡ string_bytes page.old ++ spec.left_out (spec.paths_in paths.now)) }
{
    match paths {
        [] => Ok(()),
        [_, ..] => push_folded(alloc, paths, page),
    }
}

/// Adds names that are folded.
fn push_folded(alloc: Global, paths: &[&Path], page: &mut String) -> Result<(), AllocError>
    ensures { OnOk result (string_bytes page.new ≡ string_bytes page.old ++ spec.folded (spec.paths_in paths.now)) }
{
    let mut names = Vec::new(alloc);
    push_names(paths, &mut names)?;
    let summary = [more_directories(paths.len() as u64)];
    push_element(alloc, Element::Fold, &summary, page)?;
    push_shown(alloc, Element::Names, names.as_slice(), page)?;
    push_tag(Tag::FoldEnd, page)
}

/// Adds an element that shows the names of a title.
fn push_shown(
    alloc: Global,
    element: Element,
    title: &[Title<'_>],
    page: &mut String,
) -> Result<(), AllocError>
    ensures { OnOk result (string_bytes page.new ≡ string_bytes page.old ++ element_html element (map spec.shown (titles_of title.now))) }
{
    let parts = shown_parts(alloc, title)?;
    push_element(alloc, element, parts.as_slice(), page)
}

/// Gathers what shows a title in an element.
fn shown_parts<'a>(alloc: Global, title: &[Title<'a>]) -> Result<Vec<Part<'a>>, AllocError>
    ensures { IfOk result (λ parts. map item_of parts.items ≡ map (λ one. spec.shown (title_of one)) title.now) }
{
    let mut parts = Vec::new(alloc);
    for one in title {
        parts.push(shown(*one))?;
    }
    Ok(parts)
}

/// Returns what shows a part of a title in an element.
fn shown<'a>(one: Title<'a>) -> Part<'a>
    ensures { item_of result ≡ spec.shown (title_of one.entry) }
{
    match one {
        Title::Said(words) => Part::Words(words),
        Title::Named(name) => Part::Code(name),
        Title::Further(count) => Part::AndMore(count),
    }
}
