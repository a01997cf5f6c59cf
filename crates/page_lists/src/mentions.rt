//! What a cell of a table names, of much only the first.

ghost use Rattle.std.specs.Prelude.{◌≡◌, ◌++◌, IfOk, OnOk, map};
ghost use Rattle.std.specs.List.{flat_map};
ghost use Rattle.page_html.specs.Parts.{item_of};
ghost use Rattle.page_lists.specs.Mentions as spec;
ghost use Rattle.page_lists.specs.Uses.{mention_value};

use desk_tables::FsId;
use page_html::Part;
use std::alloc::{AllocError, Global};

/// What a cell names.
#[derive(Clone, Copy)]
pub enum Mention<'a> {
    /// A file system.
    System(FsId, &'a str),
    /// A line of a file system.
    Line(FsId, &'a str, u32),
    /// A host that is a member of a netgroup.
    Host(&'a str),
    /// A netgroup that is a member of another one.
    Group(&'a str),
}

/// Gathers the first of what a cell names, and how many more there are; or what it says if that is nothing.
pub(crate) fn some_or<'a>(
    alloc: Global,
    mentions: &[Mention<'a>],
    most: usize,
    nothing: Part<'a>,
) -> Result<Vec<Part<'a>>, AllocError>
    ensures { IfOk result (λ parts. map item_of parts.items ≡ spec.some_or most (item_of nothing.entry) (map mention_value mentions.now)) }
{
    if mentions.is_empty() {
        let mut parts = Vec::new(alloc);
        parts.push(nothing)?;
        Ok(parts)
    } else {
        some_parts(alloc, mentions, most)
    }
}

/// Gathers the first of what a cell names, and how many more there are.
pub fn some_parts<'a>(
    alloc: Global,
    mentions: &[Mention<'a>],
    most: usize,
) -> Result<Vec<Part<'a>>, AllocError>
    ensures { IfOk result (λ parts. map item_of parts.items ≡ spec.some_of most (map mention_value mentions.now)) }
{
    let (named, others) = mentions.split_at(most.min(mentions.len()));
    let mut parts = Vec::new(alloc);
    push_mentions(named, &mut parts)?;
    parts.push(Part::AndMore(others.len() as u64))?;
    Ok(parts)
}

/// Adds what is named, with commas between.
fn push_mentions<'a>(mentions: &[Mention<'a>], parts: &mut Vec<Part<'a>>) -> Result<(), AllocError>
    ensures { OnOk result (map item_of parts.new.items ≡ map item_of parts.old.items ++ spec.all_of (map mention_value mentions.now)) }
{
    match mentions {
        [] => Ok(()),
        [first, others @ ..] => {
            push_mention(*first, parts)?;
            push_later(others, parts)
        }
    }
}

/// Adds what is named behind the first.
fn push_later<'a>(mentions: &[Mention<'a>], parts: &mut Vec<Part<'a>>) -> Result<(), AllocError>
    ensures { OnOk result (map item_of parts.new.items ≡ map item_of parts.old.items ++ flat_map spec.later (map mention_value mentions.now)) }
{
    for mention in mentions {
        parts.push(Part::Words(", "))?;
        push_mention(*mention, parts)?;
    }
    Ok(())
}

/// Adds one that is named.
fn push_mention<'a>(mention: Mention<'a>, parts: &mut Vec<Part<'a>>) -> Result<(), AllocError>
    ensures { OnOk result (map item_of parts.new.items ≡ map item_of parts.old.items ++ spec.mention (mention_value mention.entry)) }
{
    parts.push(kind_of(mention))?;
    parts.push(named(mention))?;
    Ok(())
}

/// Returns what is said of a kind before the name.
fn kind_of<'a>(mention: Mention<'a>) -> Part<'a>
    ensures { item_of result ≡ spec.kind (mention_value mention.entry) }
{
    match mention {
        Mention::Group(_) => Part::Words("group "),
        _ => Part::Nothing,
    }
}

/// Returns the name, with a link to a file system or to a line.
fn named<'a>(mention: Mention<'a>) -> Part<'a>
    ensures { item_of result ≡ spec.named (mention_value mention.entry) }
{
    match mention {
        Mention::System(fs, name) => Part::System(fs, name),
        Mention::Line(fs, name, line) => Part::SystemLine(fs, name, line),
        Mention::Host(name) => Part::Code(name),
        Mention::Group(name) => Part::Code(name),
    }
}
