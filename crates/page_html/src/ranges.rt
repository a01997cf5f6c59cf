//! Ranges of addresses on the page.

ghost use Rattle.std.specs.Prelude.{◌≡◌, ◌++◌, ◌≤◌, OnOk, codes};
ghost use Rattle.std.specs.String.{string_bytes};
ghost use Rattle.desk_text.specs.Address.{number_of};
ghost use Rattle.page_html.specs.Ranges as spec;

use crate::amounts::push_plural;
use crate::numbers::push_number;
use desk_text::{Addr, Net, Prefix};
use std::alloc::{AllocError, Global};

/// The addresses from the first to the last.
#[derive(Clone, Copy)]
pub struct Span {
    pub first: Addr,
    pub last: Addr,
}

/// How many ranges stand in the open.
const OPEN: usize = 8;

/// How many of the folded ranges are listed.
const MOST: usize = 248;

/// Adds ranges of addresses: some in the open, the others folded, and of very many the rest only counted.
pub fn push_ranges(alloc: Global, ranges: &[Span], page: &mut String) -> Result<(), AllocError>
    ensures { OnOk result (string_bytes page.new ≡ string_bytes page.old ++ spec.ranges_text ranges.now) }
{
    if are_all(ranges) {
        page.push_str("<b>every address</b>")
    } else {
        push_open_and_folded(alloc, ranges, page)
    }
}

/// Tests whether the only range is that of all addresses.
fn are_all(ranges: &[Span]) -> bool
    ensures { result ≡ spec.are_all ranges.now }
{
    match ranges {
        [span] => span.first.number() == 0 && span.last.number() == u32::MAX,
        _ => false,
    }
}

/// Adds the first ranges in the open, and the others folded.
fn push_open_and_folded(alloc: Global, ranges: &[Span], page: &mut String) -> Result<(), AllocError>
    ensures { OnOk result (string_bytes page.new ≡ string_bytes page.old ++ spec.open_and_folded ranges.now) }
{
    if ranges.len() <= OPEN {
        return push_list(ranges, page);
    }
    let (open, folded) = ranges.split_at(OPEN);
    push_list(open, page)?;
    push_folded(alloc, folded, page)
}

/// Adds ranges that are folded.
fn push_folded(alloc: Global, ranges: &[Span], page: &mut String) -> Result<(), AllocError>
    ensures { OnOk result (string_bytes page.new ≡ string_bytes page.old ++ spec.folded_ranges ranges.now) }
{
    page.push_str("<details><summary>")?;
    push_number(alloc, ranges.len() as u64, page)?;
    page.push_str(" more</summary>\n")?;
    push_listed(alloc, ranges, page)?;
    page.push_str("</details>\n")
}

/// Adds the first of them, and how many are left out.
fn push_listed(alloc: Global, ranges: &[Span], page: &mut String) -> Result<(), AllocError>
    ensures { OnOk result (string_bytes page.new ≡ string_bytes page.old ++ spec.listed_of ranges.now) }
{
    if ranges.len() <= MOST {
        return push_list(ranges, page);
    }
    let (listed, others) = ranges.split_at(MOST);
    push_list(listed, page)?;
    push_left_out(alloc, others.len() as u64, page)
}

/// Adds how many ranges are left out.
fn push_left_out(alloc: Global, count: u64, page: &mut String) -> Result<(), AllocError>
    ensures { OnOk result (string_bytes page.new ≡ string_bytes page.old ++ spec.left_out count) }
{
    page.push_str("<p class=\"cut\">")?;
    push_plural(alloc, count, "more range is", "more ranges are", page)?;
    page.push_str(" not listed here.</p>")
}

/// Adds ranges in a list.
fn push_list(ranges: &[Span], page: &mut String) -> Result<(), AllocError>
    ensures { OnOk result (string_bytes page.new ≡ string_bytes page.old ++ spec.range_list ranges.now) }
{
    page.push_str("<ul class=\"r\">")?;
    push_items(ranges, page)?;
    page.push_str("</ul>")
}

/// Adds the items of a list.
#[tactic(auto, unfolding(crate::specs::Ranges::items))]
fn push_items(ranges: &[Span], page: &mut String) -> Result<(), AllocError>
    ensures { OnOk result (string_bytes page.new ≡ string_bytes page.old ++ spec.items ranges.now) }
{
    for span in ranges {
        push_item(*span, page)?;
    }
    Ok(())
}

/// Adds an item.
fn push_item(span: Span, page: &mut String) -> Result<(), AllocError>
    ensures { OnOk result (string_bytes page.new ≡ string_bytes page.old ++ spec.item span) }
{
    page.push_str("<li>")?;
    push_range(span.first, span.last, page)?;
    page.push_str("</li>")
}

/// Adds a range: as an address, as a network, or by its ends.
pub fn push_range(first: Addr, last: Addr, page: &mut String) -> Result<(), AllocError>
    ensures { OnOk result (string_bytes page.new ≡ string_bytes page.old ++ spec.range_text (record { first = number_of first; last = number_of last })) }
{
    match prefix_of(first, last) {
        None => write!(page, "{first}-<wbr>{last}"),
        Some(prefix) => push_network_or_address(first, prefix, page),
    }
}

/// Adds a network: as an address, if it has no other.
fn push_network_or_address(first: Addr, prefix: u8, page: &mut String) -> Result<(), AllocError>
    ensures { OnOk result (string_bytes page.new ≡ string_bytes page.old ++ spec.network_or_address (number_of first) prefix) }
{
    if prefix == 32 {
        write!(page, "{first}")
    } else {
        push_network(first, prefix, page)
    }
}

/// Adds a network, by its first address and its prefix.
pub fn push_network(first: Addr, prefix: u8, page: &mut String) -> Result<(), AllocError>
    ensures { OnOk result (string_bytes page.new ≡ string_bytes page.old ++ spec.network_text (number_of first) prefix) }
{
    write!(page, "{first}/{prefix}")
}

/// Finds the prefix of the network that a range is.
#[tactic(auto, unfolding(crate::specs::Ranges::prefix_of))]
fn prefix_of(first: Addr, last: Addr) -> Option<u8>
    ensures { result ≡ spec.prefix_of (record { first = number_of first; last = number_of last }) }
{
    (0..33).find(|bits| is_network(first, last, *bits))
}

/// Tests whether a range is the network of its first address with so many bits.
fn is_network(first: Addr, last: Addr, bits: u8) -> bool
    requires { bits ≤ 32 }
    ensures { result ≡ spec.is_network (record { first = number_of first; last = number_of last }) bits }
{
    match Prefix::new(bits) {
        Some(prefix) => {
            let net = Net::new(first, prefix);
            net.first().number() == first.number() && net.last().number() == last.number()
        }
        None => false,
    }
}
