//! The place of each group's line, by name.

ghost use Rattle.std.specs.Prelude.{◌≡◌, OnOk, option_and_then, slice_get};
ghost use Rattle.std.specs.Option.{option_copied};
ghost use Rattle.desk_netgroup.specs.PrivateIndex.{AddsFirst};

use crate::group_line::GroupLine;
use std::alloc::{AllocError, Global};
use std::collections::BTreeMap;

/// Adds the place under the name, if nothing stands there yet.
pub fn add_first(
    alloc: Global,
    index: &mut BTreeMap<String, usize>,
    name: &str,
    place: usize,
) -> Result<(), AllocError>
    ensures { OnOk result (AddsFirst index.old index.new name.now place) }
{
    if !index.contains_key(name) {
        let key = String::from_str(alloc, name)?;
        index.insert(key, place)?;
    }
    Ok(())
}

/// Gives the line at the place that the index gives.
pub fn line_at<'a>(lines: &'a [GroupLine], place: Option<&usize>) -> Option<&'a GroupLine>
    ensures { option_copied result ≡ option_and_then (slice_get lines.now) (option_copied place.entry) }
{
    match place {
        Some(place) => lines.get(*place),
        None => None,
    }
}
