//! Parts behind others.

ghost use Rattle.std.specs.Prelude.{◌≡◌, ◌++◌, OnOk, map};
ghost use Rattle.page_html.specs.Parts.{item_of};

use page_html::Part;
use std::alloc::AllocError;

/// Adds parts behind others.
pub(crate) fn push_all<'a>(more: &[Part<'a>], parts: &mut Vec<Part<'a>>) -> Result<(), AllocError>
    ensures { OnOk result (map item_of parts.new.items ≡ map item_of parts.old.items ++ map item_of more.now) }
{
    parts.extend_from_slice(more)?;
    Ok(())
}
