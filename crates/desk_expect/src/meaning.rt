//! Whom the names of a line mean.

ghost use Rattle.std.specs.Prelude.{◌≡◌, IfOk, OnOk, map};
ghost use Rattle.std.specs.List.{list_any};
ghost use Rattle.desk_text.specs.Address.{number_of};
ghost use Rattle.desk_text.specs.AddrSet.{is_among};
ghost use Rattle.desk_expect.specs.Meaning as spec;
ghost use Rattle.desk_expect.specs.Meaning.{AreMeant, means};
ghost use Rattle.desk_expect.specs.Names as by_name;
ghost use Rattle.desk_expect.specs.PrivateMeaning.{AddsSpans};

use crate::names::{is_span_like, span_of};
use crate::span::Span;
use desk_netgroup::Netgroups;
use desk_policy::{addresses_are_unique, addresses_of};
use desk_tables::Hosts;
use desk_text::{Addr, Text, is_dotted, is_ipv6};
use std::alloc::{AllocError, Global};

/// Gathers the addresses that these names mean, in any order: those of a network or a range as one span, and those of hosts and
/// netgroups one by one. A name that is not known means none.
pub fn spans_of_names(
    alloc: Global,
    netgroups: &Netgroups,
    hosts: &Hosts,
    names: &[Text],
) -> Result<Vec<Span>, AllocError>
    ensures { IfOk result (λ spans. AreMeant netgroups.now hosts.now names.now spans.items) }
{
    let mut spans = Vec::new(alloc);
    for name in names {
        push_name(alloc, netgroups, hosts, name.as_str(), &mut spans)?;
    }
    Ok(spans)
}

/// Tests whether one of these names is none of a network, a range or an address, and neither a netgroup's nor a host's.
pub fn has_unknown(
    alloc: Global,
    netgroups: &Netgroups,
    hosts: &Hosts,
    names: &[Text],
) -> Result<bool, AllocError>
    ensures { IfOk result (λ unknown. unknown ≡ list_any (spec.is_unknown netgroups.now hosts.now) names.now) }
{
    for name in names {
        if is_unknown(alloc, netgroups, hosts, name.as_str())? {
            return Ok(true);
        }
    }
    Ok(false)
}

/// Adds what a name means.
fn push_name(
    alloc: Global,
    netgroups: &Netgroups,
    hosts: &Hosts,
    name: &str,
    spans: &mut Vec<Span>,
) -> Result<(), AllocError>
    ensures { OnOk result (AddsSpans (means netgroups.now hosts.now name.now) spans.old.items spans.new.items) }
{
    if is_span_like(name) {
        return push_span(name, spans);
    }
    // The list of a name's addresses has just those for which it stands.
    addresses_are_unique();
    let found = addresses_of(alloc, netgroups, hosts, name)?;
    push_addresses(found.as_slice(), spans)
}

/// Adds the addresses of a network or a range.
fn push_span(name: &str, spans: &mut Vec<Span>) -> Result<(), AllocError>
    ensures { OnOk result (AddsSpans (by_name.is_between (by_name.span_of name.now)) spans.old.items spans.new.items) }
{
    if let Some(span) = span_of(name) {
        spans.push(span)?;
    }
    Ok(())
}

/// Adds these addresses, each as a span of its own.
fn push_addresses(addresses: &[Addr], spans: &mut Vec<Span>) -> Result<(), AllocError>
    ensures { OnOk result (AddsSpans (λ address. is_among address (map number_of addresses.now)) spans.old.items spans.new.items) }
{
    for address in addresses {
        spans.push(Span {
            first: *address,
            last: *address,
        })?;
    }
    Ok(())
}

/// Tests whether a name is none of a network, a range or an address, and neither a netgroup's nor a host's.
pub(crate) fn is_unknown(
    alloc: Global,
    netgroups: &Netgroups,
    hosts: &Hosts,
    name: &str,
) -> Result<bool, AllocError>
    ensures { IfOk result (λ unknown. unknown ≡ spec.is_unknown netgroups.now hosts.now name.now) }
{
    if is_written(name) || netgroups.group(name).is_some() {
        return Ok(false);
    }
    let addresses = hosts.addresses(alloc, name)?;
    Ok(addresses.is_empty())
}

/// Tests whether a name is written like an address, a network or a range.
fn is_written(name: &str) -> bool
    ensures { result ≡ spec.is_written name.now }
{
    is_span_like(name) || is_ipv6(name) || is_dotted(name)
}
