//! Questions on prefixes, masks and networks of addresses.

use crate::addresses::say_fault;
use crate::answers::{Asked, say_found, say_whether, split};
use desk_text::{Addr, Net, NetText, Prefix};

/// Answers a question on a prefix, a mask or a network.
pub fn answer(out: &mut String, question: &str, text: &str) -> Asked {
    match question {
        "prefix" => prefix(out, Prefix::read(text)),
        "prefix_of_bits" => of_bits(out, text),
        "prefix_of_mask" => of_mask(out, text),
        "network_text" => network_text(out, text),
        "net" => net(out, text),
        "covers" => covers(out, text),
        _ => Ok(false),
    }
}

/// `prefix TEXT`: its bits, or `none`.
fn prefix(out: &mut String, prefix: Option<Prefix>) -> Asked {
    match prefix {
        Some(prefix) => say_found(out, Some(prefix.get())),
        None => Ok(true),
    }
}

/// `prefix_of_bits NUMBER`: the same.
fn of_bits(out: &mut String, text: &str) -> Asked {
    match text.parse::<u8>() {
        Ok(bits) => prefix(out, Prefix::new(bits)),
        Err(_) => Ok(false),
    }
}

/// `prefix_of_mask ADDRESS`: the same.
fn of_mask(out: &mut String, text: &str) -> Asked {
    match Addr::read(text) {
        Ok(mask) => prefix(out, Prefix::from_mask(mask)),
        Err(_) => Ok(false),
    }
}

/// `network_text TEXT`: its address, the number of that, and its prefix, if it has one; or the fault.
fn network_text(out: &mut String, text: &str) -> Asked {
    match NetText::read(text) {
        Ok(read) => {
            let (address, number) = (read.addr, read.addr.number());
            write!(out, "{address} {number} ")?;
            match read.prefix {
                Some(prefix) => say_found(out, Some(prefix.get())),
                None => say_found(out, Some("none")),
            }
        }
        Err(fault) => say_fault(out, fault),
    }
}

/// Returns the network that a text with a prefix writes.
pub fn read_net(text: &str) -> Option<Net> {
    let written = NetText::read(text).ok()?;
    Some(Net::new(written.addr, written.prefix?))
}

/// `net ADDRESS/BITS`: the network's bits, its first address and its last.
fn net(out: &mut String, text: &str) -> Asked {
    let Some(net) = read_net(text) else {
        return Ok(false);
    };
    let (bits, first, last) = (net.prefix().get(), net.first(), net.last());
    write!(out, "{bits} {first} {last}")?;
    Ok(true)
}

/// `covers ADDRESS/BITS ADDRESS`: whether the network has the address, `yes` or `no`.
fn covers(out: &mut String, text: &str) -> Asked {
    match net_and_address(text) {
        Some((net, address)) => say_whether(out, net.covers(address)),
        None => Ok(false),
    }
}

fn net_and_address(text: &str) -> Option<(Net, Addr)> {
    let (net, address) = split(text);
    Some((read_net(net)?, Addr::read(address).ok()?))
}
