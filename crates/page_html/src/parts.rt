//! The parts of a cell, a fact or a paragraph.

ghost use Rattle.std.specs.Prelude.{◌≡◌, ◌++◌, OnOk};
ghost use Rattle.std.specs.String.{string_bytes};
ghost use Rattle.page_html.specs.Items.{item_html, items_html};
ghost use Rattle.page_html.specs.Parts.{item_of, items_of};

use crate::escaping::{push_attribute, push_escaped};
use crate::images::Drawn;
use crate::numbers::push_number;
use crate::part_amounts::{push_more, push_part_of, push_plural};
use crate::part_pieces::{
    push_classed, push_digest, push_line, push_small_count, push_small_percent, push_small_plural,
    push_some_codes, push_system_line, push_within,
};
use crate::pieces::{push_code, push_code_list, push_line_link, push_system_link};
use crate::ranges::{Span, push_network, push_range, push_ranges};
use crate::terms::{push_flavour_names, push_flavours, push_terms};
use desk_exports::{Flavour, Terms};
use desk_tables::FsId;
use desk_text::{Addr, Text};
use std::alloc::{AllocError, Global};

/// A part. Its own words are `'static`, and no character of them is markup; what a site has written comes in by `Text` and those below it.
#[derive(Clone, Copy)]
pub enum Part<'a> {
    /// Words of the page's own.
    Words(&'static str),
    Strong(&'static str),
    /// Words that stand for nothing.
    Zero(&'static str),
    Small(&'static str),
    /// A word as it is written in a file or a command.
    Word(&'static str),
    /// A class of the style sheet, and words on its ground.
    Badge(&'static str, &'static str),
    Level(&'static str, &'static str),
    /// A place of the page, and words that lead there.
    Link(&'static str, &'static str),
    Nothing,
    /// A space at which no line is broken, a break that is seen, and one that only `Commands` show.
    Space,
    Break,
    NewLine,
    /// A number with a comma before each three digits, and one in digits alone.
    Number(u64),
    Digits(u32),
    /// So many of what the first word says of one, and the second of more.
    Plural(u64, &'static str, &'static str),
    /// How much of the second the first is.
    PartOf(u64, u64),
    /// How many more there are than are named, if there are any.
    AndMore(u64),
    SmallCount(u64, &'static str),
    SmallPlural(u64, &'static str, &'static str),
    SmallPercent(u64, u64),
    LineLink(FsId, u32),
    Drawn(&'a Drawn),
    /// A network, by its first address and its prefix, also that of one address.
    Network(Addr, u8),
    Range(Span),
    Ranges(&'a [Span]),
    Terms(&'a Terms),
    /// Flavours in words, and their names as a line writes them.
    Flavours(&'a [Flavour]),
    FlavourNames(&'a [Flavour]),
    /// A text without an element, for what is all commands.
    Text(&'a str),
    Code(&'a str),
    Digest(&'a str),
    Codes(&'a [Text]),
    /// At most so many of them, and how many more there are.
    SomeCodes(usize, &'a [Text]),
    /// A line of a file.
    Line(&'a str),
    /// A link to a file system, and one to a line of it.
    System(FsId, &'a str),
    SystemLine(FsId, &'a str, u32),
}

/// Adds a part.
pub fn push_part(alloc: Global, part: Part<'_>, page: &mut String) -> Result<(), AllocError>
    ensures { OnOk result (string_bytes page.new ≡ string_bytes page.old ++ item_html (item_of part.entry)) }
{
    match part {
        Part::Words(words) => push_attribute(words, page),
        Part::Strong(words) => push_within("<b>", words, "</b>", page),
        Part::Zero(words) => push_within("<span class=\"zero\">", words, "</span>", page),
        Part::Small(words) => push_within("<small>", words, "</small>", page),
        Part::Word(words) => push_within("<code>", words, "</code>", page),
        Part::Badge(class, words) => push_classed(
            "<span class=\"b ",
            class,
            words,
            "</span>",
            page,
        ),
        Part::Level(class, words) => push_classed("<b class=\"l ", class, words, "</b>", page),
        Part::Link(place, words) => push_classed("<a href=\"#", place, words, "</a>", page),
        Part::Nothing => Ok(()),
        Part::Space => page.push_str("&nbsp;"),
        Part::Break => page.push_str("<br>"),
        Part::NewLine => page.push_str("\n"),
        Part::Number(number) => push_number(alloc, number, page),
        Part::Digits(number) => write!(page, "{number}"),
        Part::Plural(count, one, more) => push_plural(alloc, count, one, more, page),
        Part::PartOf(count, whole) => push_part_of(alloc, count, whole, page),
        Part::AndMore(count) => push_more(alloc, count, page),
        Part::SmallCount(count, words) => push_small_count(alloc, count, words, page),
        Part::SmallPlural(count, one, more) => push_small_plural(alloc, count, one, more, page),
        Part::SmallPercent(count, whole) => push_small_percent(count, whole, page),
        Part::LineLink(fs, line) => push_line_link(fs, line, page),
        Part::Drawn(drawn) => page.push_str(drawn.html.as_str()),
        Part::Network(first, prefix) => push_network(first, prefix, page),
        Part::Range(span) => push_range(span.first, span.last, page),
        Part::Ranges(spans) => push_ranges(alloc, spans, page),
        Part::Terms(terms) => push_terms(terms, page),
        Part::Flavours(flavours) => push_flavours(flavours, page),
        Part::FlavourNames(flavours) => push_flavour_names(flavours, page),
        Part::Text(text) => push_escaped(text, page),
        Part::Code(text) => push_code(text, page),
        Part::Digest(text) => push_digest(text, page),
        Part::Codes(texts) => push_code_list(texts, page),
        Part::SomeCodes(most, texts) => push_some_codes(alloc, most, texts, page),
        Part::Line(line) => push_line(line, page),
        Part::System(fs, name) => push_system_link(fs, name, page),
        Part::SystemLine(fs, name, line) => push_system_line(fs, name, line, page),
    }
}

/// Adds parts, one behind the other.
#[tactic(auto, unfolding(crate::specs::Items::items_html))]
pub fn push_parts(alloc: Global, parts: &[Part<'_>], page: &mut String) -> Result<(), AllocError>
    ensures { OnOk result (string_bytes page.new ≡ string_bytes page.old ++ items_html (items_of parts.now)) }
{
    for part in parts {
        push_part(alloc, *part, page)?;
    }
    Ok(())
}
