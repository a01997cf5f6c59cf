//! Whom a line is for: names, a network, or everybody. (exports(5), `-network` and `-mask`; networks(5))

ghost use Rattle.std.specs.Prelude.{◌≡◌, ◌==◌, IfOk, slice_index};
ghost use Rattle.std.specs.Char.{is_ascii_digit};
ghost use Rattle.std.specs.Option.{option_copied, option_map};
ghost use Rattle.desk_text.specs.Address.{number_of};
ghost use Rattle.desk_exports.specs.Clients as spec;

use crate::boxed::Boxed;
use crate::entry::Clients;
use crate::names::Names;
use crate::options::{Keyword, Setting, has_option, value_of};
use desk_tables::Networks;
use desk_text::{Addr, Net, Prefix, Text, is_ipv6};
use std::alloc::{AllocError, Global};

pub(crate) fn has_slash(value: &str) -> bool
    ensures { result ≡ spec.has_slash value.now }
{
    value.as_bytes().iter().any(|byte| *byte == b'/')
}

/// Returns what stands before the first slash.
fn network_text(value: &str) -> &str
    ensures { result.now ≡ spec.network_text value.now }
{
    match value.split_once('/') {
        Some((network, _)) => network,
        None => value,
    }
}

/// Returns what stands behind the first slash.
pub(crate) fn prefix_text(value: &str) -> &str
    ensures { result.now ≡ spec.prefix_text value.now }
{
    match value.split_once('/') {
        Some((_, prefix)) => prefix,
        None => "",
    }
}

/// Reads the number of a network or a mask: it is written, or that of a name of the networks file.
fn number_written(networks: &Networks, text: &str) -> Option<Addr>
    ensures { option_map number_of result ≡ spec.number_written networks.now text.now }
{
    if begins_with_digit(text) {
        return Addr::read_short(text).ok();
    }
    networks.find(text)
}

fn begins_with_digit(text: &str) -> bool
    ensures { result ≡ is_ascii_digit (slice_index text.now 0) }
{
    let bytes = text.as_bytes();
    !bytes.is_empty() && bytes[0].is_ascii_digit()
}

/// Returns the address of a network, host bits and all.
pub(crate) fn network_address(networks: &Networks, value: &str) -> Option<Addr>
    ensures { option_map number_of result ≡ spec.network_number_of networks.now value.now }
{
    number_written(networks, network_text(value))
}

/// Reads the prefix of a mask, which has to be contiguous.
pub(crate) fn mask_prefix(networks: &Networks, mask: &str) -> Option<Prefix>
    ensures { result ≡ spec.mask_prefix networks.now mask.now }
{
    match number_written(networks, mask) {
        Some(mask) => Prefix::from_mask(mask),
        None => None,
    }
}

/// Returns the prefix of the class of an address.
pub(crate) fn class_prefix(address: Addr) -> Option<Prefix>
    ensures { result ≡ spec.class_prefix (number_of address) }
{
    let first_part = address.number() / 0x100_0000;
    if first_part < 128 {
        Prefix::new(8)
    } else if first_part < 192 {
        Prefix::new(16)
    } else if first_part < 224 {
        Prefix::new(24)
    } else {
        None
    }
}

/// Tests whether neither a prefix nor a mask is written.
fn is_classful(settings: &[Setting], value: &str) -> bool
    ensures { result ≡ spec.is_classful settings.now value.now }
{
    !has_slash(value) && !has_option(settings, Keyword::Mask)
}

/// Returns the prefix of the network with this address.
fn prefix_of(
    networks: &Networks,
    settings: &[Setting],
    value: &str,
    address: Addr,
) -> Option<Prefix>
    ensures { result ≡ spec.prefix_of networks.now settings.now value.now (number_of address) }
{
    if is_classful(settings, value) {
        return class_prefix(address);
    }
    if has_slash(value) {
        return Prefix::read(prefix_text(value));
    }
    match value_of(settings, Keyword::Mask) {
        Some(mask) => mask_prefix(networks, mask),
        None => None,
    }
}

/// Reads the clients of a network. `None` if it cannot be parsed.
pub(crate) fn network_clients(
    alloc: Global,
    networks: &Networks,
    settings: &[Setting],
    value: &str,
) -> Result<Option<Clients>, AllocError>
    ensures { IfOk result (λ clients. clients ≡ spec.network_clients networks.now settings.now value.now) }
{
    if is_ipv6(value) {
        return Ok(Some(Clients::Net6(Text::copy(alloc, value)?)));
    }
    let Some(address) = network_address(networks, value) else {
        return Ok(None);
    };
    let Some(prefix) = prefix_of(networks, settings, value, address) else {
        return Ok(None);
    };
    let noted = classful_value(alloc, settings, value)?;
    Ok(Some(Clients::Net(Net::new(address, prefix), noted)))
}

/// Copies the value, if its class counts.
fn classful_value(
    alloc: Global,
    settings: &[Setting],
    value: &str,
) -> Result<Option<Boxed<Text>>, AllocError>
    ensures { IfOk result (λ noted. noted ≡ spec.classful_value settings.now value.now) }
{
    if is_classful(settings, value) {
        let noted = Boxed::new(alloc, Text::copy(alloc, value)?)?;
        return Ok(Some(noted));
    }
    Ok(None)
}

/// Reads whom a line is for: its names, its network, or everybody if it writes neither. `None` if the
/// network cannot be parsed.
pub(crate) fn read_clients(
    alloc: Global,
    networks: &Networks,
    settings: &[Setting],
    names: Names,
) -> Result<Option<Clients>, AllocError>
    ensures { IfOk result (λ clients. clients ≡ spec.clients_of networks.now settings.now names) }
{
    if !names.is_empty() {
        return Ok(Some(Clients::Hosts(names)));
    }
    if !has_option(settings, Keyword::Network) {
        return Ok(Some(Clients::World));
    }
    match value_of(settings, Keyword::Network) {
        Some(value) => network_clients(alloc, networks, settings, value),
        None => Ok(None),
    }
}
