//! How much of something there is, in words.

ghost use Rattle.std.specs.Prelude.{◌≡◌, ◌++◌, OnOk};
ghost use Rattle.std.specs.String.{string_bytes};
ghost use Rattle.page_html.specs.PartAmounts as spec;

use crate::amounts::{push_and_more, push_percent, push_portion};
use crate::escaping::push_attribute;
use crate::numbers::push_number;
use std::alloc::{AllocError, Global};

/// How many addresses there are.
const ADDRESSES: u64 = 4_294_967_296;

/// Adds so many of what the first word says of one, and the second of more.
pub(crate) fn push_plural(
    alloc: Global,
    count: u64,
    one: &'static str,
    more: &'static str,
    page: &mut String,
) -> Result<(), AllocError>
    ensures { OnOk result (string_bytes page.new ≡ string_bytes page.old ++ spec.plural count one.now more.now) }
{
    let word = if count == 1 { one } else { more };
    push_number(alloc, count, page)?;
    page.push_str(" ")?;
    push_attribute(word, page)
}

/// Adds how many more there are, behind some that are named, if there are any.
pub(crate) fn push_more(alloc: Global, count: u64, page: &mut String) -> Result<(), AllocError>
    ensures { OnOk result (string_bytes page.new ≡ string_bytes page.old ++ spec.more count) }
{
    if count == 0 {
        Ok(())
    } else {
        push_and_more(alloc, count, page)
    }
}

/// Adds how much of a whole a number is; one that is larger counts as the whole.
pub(crate) fn push_part_of(
    alloc: Global,
    count: u64,
    whole: u64,
    page: &mut String,
) -> Result<(), AllocError>
    ensures { OnOk result (string_bytes page.new ≡ string_bytes page.old ++ spec.part_of count whole) }
{
    if count < whole {
        push_portion(alloc, count, whole, page)
    } else {
        push_portion(alloc, whole, whole, page)
    }
}

/// Adds the same as a percentage, of a whole that is not more than all addresses.
pub(crate) fn push_percent_of(count: u64, whole: u64, page: &mut String) -> Result<(), AllocError>
    ensures { OnOk result (string_bytes page.new ≡ string_bytes page.old ++ spec.percent_of count whole) }
{
    if ADDRESSES < whole {
        Ok(())
    } else if count < whole {
        push_percent(count, whole, page)
    } else {
        page.push_str("100 %")
    }
}
