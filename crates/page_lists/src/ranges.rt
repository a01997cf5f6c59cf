//! Addresses in the longest ranges that have them.

ghost use Rattle.std.specs.Prelude.{◌≡◌, ◌+◌, ◌==◌, IfOk, map};
ghost use Rattle.desk_text.specs.Address.{number_of};
ghost use Rattle.page_html.specs.Ranges.{ends_of};
ghost use Rattle.page_lists.specs.Ranges as spec;

use desk_text::Addr;
use page_html::Span;
use std::alloc::{AllocError, Global};

/// Puts addresses, which ascend, into ranges.
pub(crate) fn ranges_of(alloc: Global, addresses: &[Addr]) -> Result<Vec<Span>, AllocError>
    ensures { IfOk result (λ ranges. map ends_of ranges.items ≡ spec.ranges_of (map number_of addresses.now)) }
{
    match addresses {
        [] => Ok(Vec::new(alloc)),
        [start, others @ ..] => ranges_from(alloc, *start, others),
    }
}

/// Puts an address and those behind it into ranges.
fn ranges_from(alloc: Global, start: Addr, others: &[Addr]) -> Result<Vec<Span>, AllocError>
    ensures { IfOk result (λ ranges. map ends_of ranges.items ≡ spec.ranges_from (number_of start) (number_of start) (map number_of others.now)) }
{
    let mut ranges = Vec::new(alloc);
    let mut first = start;
    let mut last = start;
    for address in others {
        if follows(last, *address) {
            last = *address;
        } else {
            ranges.push(Span { first, last })?;
            first = *address;
            last = *address;
        }
    }
    ranges.push(Span { first, last })?;
    Ok(ranges)
}

/// Tests whether an address is the one behind another.
fn follows(last: Addr, address: Addr) -> bool
    ensures { result ≡ (number_of last + 1 == number_of address) }
{
    u64::from(last.number()) + 1 == u64::from(address.number())
}
