//! The headings in the part on a file system.

ghost use Rattle.std.specs.Prelude.{◌≡◌, ◌++◌, OnOk};
ghost use Rattle.std.specs.String.{string_bytes};
ghost use Rattle.page_filesystem.specs.Sections as spec;

use page_html::{Element, Part, push_element};
use std::alloc::{AllocError, Global};

/// Adds a heading of words.
pub(crate) fn push_heading(
    alloc: Global,
    words: &'static str,
    page: &mut String,
) -> Result<(), AllocError>
    ensures { OnOk result (string_bytes page.new ≡ string_bytes page.old ++ spec.heading words.now) }
{
    push_element(alloc, Element::Subheading, &[Part::Words(words)], page)
}
