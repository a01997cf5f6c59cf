//! The title of a table: its caption, and what the box around it is called.

ghost use Rattle.std.specs.Prelude.{◌≡◌, ◌++◌, OnOk};
ghost use Rattle.std.specs.String.{string_bytes};
ghost use Rattle.page_html.specs.Titles as spec;

use crate::escaping::push_attribute;
use crate::part_amounts::push_more;
use crate::pieces::push_code;
use std::alloc::{AllocError, Global};

/// A part of a title.
#[derive(Clone, Copy)]
pub enum Title<'a> {
    /// Words of the page's own.
    Said(&'static str),
    /// A name of a site's.
    Named(&'a str),
    /// How many more names there are, if there are any.
    Further(u64),
}

/// Adds a title as a caption.
#[tactic(auto, unfolding(crate::specs::Titles::captions_html))]
pub(crate) fn push_captions(
    alloc: Global,
    title: &[Title<'_>],
    page: &mut String,
) -> Result<(), AllocError>
    ensures { OnOk result (string_bytes page.new ≡ string_bytes page.old ++ spec.captions_html (spec.titles_of title.now)) }
{
    for part in title {
        push_caption_part(alloc, *part, page)?;
    }
    Ok(())
}

/// Adds a part of it.
fn push_caption_part(alloc: Global, part: Title<'_>, page: &mut String) -> Result<(), AllocError>
    ensures { OnOk result (string_bytes page.new ≡ string_bytes page.old ++ spec.caption_html (spec.title_of part.entry)) }
{
    match part {
        Title::Said(words) => push_attribute(words, page),
        Title::Named(name) => push_code(name, page),
        Title::Further(count) => push_more(alloc, count, page),
    }
}

/// Adds a title as an attribute, which has no elements.
#[tactic(auto, unfolding(crate::specs::Titles::labels_html))]
pub(crate) fn push_labels(
    alloc: Global,
    title: &[Title<'_>],
    page: &mut String,
) -> Result<(), AllocError>
    ensures { OnOk result (string_bytes page.new ≡ string_bytes page.old ++ spec.labels_html (spec.titles_of title.now)) }
{
    for part in title {
        push_label_part(alloc, *part, page)?;
    }
    Ok(())
}

/// Adds a part of it.
fn push_label_part(alloc: Global, part: Title<'_>, page: &mut String) -> Result<(), AllocError>
    ensures { OnOk result (string_bytes page.new ≡ string_bytes page.old ++ spec.label_html (spec.title_of part.entry)) }
{
    match part {
        Title::Said(words) => push_attribute(words, page),
        Title::Named(name) => push_attribute(name, page),
        Title::Further(count) => push_more(alloc, count, page),
    }
}
