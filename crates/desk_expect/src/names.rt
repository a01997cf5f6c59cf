//! Names of a line: addresses, networks, ranges, netgroups and hosts.

ghost use Rattle.std.specs.Prelude.{◌≡◌};
ghost use Rattle.std.specs.Option.{option_map};
ghost use Rattle.desk_expect.specs.Spans.{span_value};
ghost use Rattle.desk_expect.specs.Names as spec;

use crate::span::Span;
use desk_text::{Addr, Net, NetText, is_dotted, is_ipv6};

/// Tests whether a name is written as a network or a range: it has a `/`, or digits and dots on both sides of its first `-`.
pub(crate) fn is_span_like(name: &str) -> bool
    ensures { result ≡ spec.is_span_like name.now }
{
    has_slash(name) || is_range_like(name)
}

fn has_slash(name: &str) -> bool
    ensures { result ≡ spec.has_slash name.now }
{
    name.as_bytes().contains(&b'/')
}

fn is_range_like(name: &str) -> bool
    ensures { result ≡ spec.is_range_like name.now }
{
    match name.split_once('-') {
        Some((first, last)) => is_dotted(first) && is_dotted(last),
        None => false,
    }
}

/// Reads a network or a range.
pub(crate) fn span_of(name: &str) -> Option<Span>
    ensures { option_map span_value result ≡ spec.span_of name.now }
{
    if has_slash(name) {
        return network_span(name);
    }
    let (first, last) = name.split_once('-')?;
    range_span(first, last)
}

/// Reads a network, which has to write its prefix.
fn network_span(name: &str) -> Option<Span>
    ensures { option_map span_value result ≡ spec.network_span name.now }
{
    let written = NetText::read(name).ok()?;
    let prefix = written.prefix?;
    let net = Net::new(written.addr, prefix);
    Some(Span {
        first: net.first(),
        last: net.last(),
    })
}

/// Reads a range, whose last address is not before its first one.
fn range_span(first: &str, last: &str) -> Option<Span>
    ensures { option_map span_value result ≡ spec.range_span first.now last.now }
{
    let first = Addr::read(first).ok()?;
    let last = Addr::read(last).ok()?;
    if last.number() < first.number() {
        return None;
    }
    Some(Span { first, last })
}

/// Tests whether a name is written like an address, a network or a range, and is none.
pub(crate) fn is_bad_address(name: &str) -> bool
    ensures { result ≡ spec.is_bad_address name.now }
{
    if is_span_like(name) {
        return span_of(name).is_none();
    }
    is_ipv6(name) || is_dotted(name) && Addr::read(name).is_err()
}
