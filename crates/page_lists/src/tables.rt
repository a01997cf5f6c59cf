//! What the tables of the lists have alike: the fold around a long one, and numbers.

ghost use Rattle.std.specs.Prelude.{◌≡◌, ◌++◌, OnOk};
ghost use Rattle.std.specs.String.{string_bytes};
ghost use Rattle.page_html.specs.Parts.{item_of};
ghost use Rattle.page_lists.specs.Tables as spec;

use page_html::{Element, Part, Tag, push_element, push_tag};
use std::alloc::{AllocError, Global};

/// Begins what is folded if there are more than so many.
pub(crate) fn push_long_start(
    alloc: Global,
    most: u64,
    count: u64,
    one: &'static str,
    more: &'static str,
    page: &mut String,
) -> Result<(), AllocError>
    ensures { OnOk result (string_bytes page.new ≡ string_bytes page.old ++ spec.long_start most count one.now more.now) }
{
    if count <= most {
        return Ok(());
    }
    push_element(
        alloc,
        Element::Fold,
        &[Part::Plural(count, one, more)],
        page,
    )
}

/// Ends what is folded if there are more than so many.
pub(crate) fn push_long_end(most: u64, count: u64, page: &mut String) -> Result<(), AllocError>
    ensures { OnOk result (string_bytes page.new ≡ string_bytes page.old ++ spec.long_end most count) }
{
    if count <= most {
        return Ok(());
    }
    push_tag(Tag::FoldEnd, page)
}

/// Returns the number of a line or of a revision.
pub(crate) fn number_of<'a>(number: u32) -> Part<'a>
    ensures { item_of result ≡ spec.number number }
{
    Part::Number(u64::from(number))
}
