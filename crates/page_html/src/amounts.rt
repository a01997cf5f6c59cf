//! How much of something there is, in words.

ghost use Rattle.std.specs.Prelude.{◌≡◌, ◌++◌, ◌≤◌, ◌^◌, OnOk};
ghost use Rattle.std.specs.String.{string_bytes};
ghost use Rattle.page_html.specs.Amounts as spec;

use crate::numbers::push_number;
use std::alloc::{AllocError, Global};

/// Adds so many of what the first word says of one, and the second of more.
pub fn push_plural(
    alloc: Global,
    count: u64,
    one: &str,
    more: &str,
    page: &mut String,
) -> Result<(), AllocError>
    ensures { OnOk result (string_bytes page.new ≡ string_bytes page.old ++ spec.plural count one.now more.now) }
{
    push_number(alloc, count, page)?;
    let word = if count == 1 { one } else { more };
    write!(page, " {word}")
}

/// Adds how many more there are, behind some that are named.
pub fn push_and_more(alloc: Global, count: u64, page: &mut String) -> Result<(), AllocError>
    ensures { OnOk result (string_bytes page.new ≡ string_bytes page.old ++ spec.and_more count) }
{
    page.push_str(" and ")?;
    push_number(alloc, count, page)?;
    page.push_str(" more")
}

/// Adds how much of a whole a number is.
pub fn push_portion(
    alloc: Global,
    count: u64,
    whole: u64,
    page: &mut String,
) -> Result<(), AllocError>
    requires { count ≤ whole }
    ensures { OnOk result (string_bytes page.new ≡ string_bytes page.old ++ spec.part count whole) }
{
    if count == 0 {
        page.push_str("none")
    } else if count == whole {
        page.push_str("all")
    } else if count > whole / 2 {
        push_all_but(alloc, whole - count, page)
    } else {
        push_number(alloc, count, page)
    }
}

/// Adds that it is all but a number, before which no line is broken.
fn push_all_but(alloc: Global, count: u64, page: &mut String) -> Result<(), AllocError>
    ensures { OnOk result (string_bytes page.new ≡ string_bytes page.old ++ spec.all_but count) }
{
    page.push_str("all&nbsp;but&nbsp;")?;
    push_number(alloc, count, page)?;
    Ok(())
}

/// Adds how much of a whole a number is, as a percentage that is rounded down.
pub fn push_percent(count: u64, whole: u64, page: &mut String) -> Result<(), AllocError>
    requires part { count ≤ whole }
    requires small { whole ≤ 2 ^ 32 }
    ensures { OnOk result (string_bytes page.new ≡ string_bytes page.old ++ spec.percent count whole) }
{
    if count == whole {
        page.push_str("100 %")
    } else if count == 0 {
        page.push_str("0 %")
    } else if count * 1_000_000 < whole {
        page.push_str("under 0.0001 %")
    } else {
        push_millionths(count * 1_000_000 / whole, page)
    }
}

/// Adds millionths as a percentage.
fn push_millionths(parts: u64, page: &mut String) -> Result<(), AllocError>
    ensures { OnOk result (string_bytes page.new ≡ string_bytes page.old ++ spec.millionths parts) }
{
    let percents = parts / 10_000;
    write!(page, "{percents}")?;
    push_four_places(parts % 10_000, page)?;
    page.push_str(" %")
}

/// Adds a point and four digits behind it, without the zeros at the end.
fn push_four_places(number: u64, page: &mut String) -> Result<(), AllocError>
    ensures { OnOk result (string_bytes page.new ≡ string_bytes page.old ++ spec.four_places number) }
{
    if number == 0 {
        return Ok(());
    }
    let first = number / 1000;
    write!(page, ".{first}")?;
    push_three_places(number % 1000, page)
}

/// Adds three digits.
fn push_three_places(number: u64, page: &mut String) -> Result<(), AllocError>
    ensures { OnOk result (string_bytes page.new ≡ string_bytes page.old ++ spec.three_places number) }
{
    if number == 0 {
        return Ok(());
    }
    let first = number / 100;
    write!(page, "{first}")?;
    push_two_places(number % 100, page)
}

/// Adds two digits.
fn push_two_places(number: u64, page: &mut String) -> Result<(), AllocError>
    ensures { OnOk result (string_bytes page.new ≡ string_bytes page.old ++ spec.two_places number) }
{
    if number == 0 {
        return Ok(());
    }
    let first = number / 10;
    write!(page, "{first}")?;
    push_one_place(number % 10, page)
}

/// Adds one digit.
fn push_one_place(number: u64, page: &mut String) -> Result<(), AllocError>
    ensures { OnOk result (string_bytes page.new ≡ string_bytes page.old ++ spec.one_place number) }
{
    if number == 0 {
        return Ok(());
    }
    write!(page, "{number}")
}
