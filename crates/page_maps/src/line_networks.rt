//! The networks that lines write.

ghost use Rattle.std.specs.Prelude.{◌≡◌, ◌++◌, All, IfOk, IfSome, OnOk};
ghost use Rattle.std.specs.List.{flat_map};
ghost use Rattle.std.specs.Option.{option_to_list};
ghost use Rattle.desk_text.specs.Network.{IsBlock};
ghost use Rattle.page_maps.specs.Order.{AreOrdered};
ghost use Rattle.page_maps.specs.LineNetworks as spec;

use crate::order::ordered;
use desk_exports::Clients;
use desk_policy::{Policy, Row};
use desk_text::Net;
use std::alloc::{AllocError, Global};

/// Lists the networks that lines write, the wider before the narrower, then by address, each once.
pub fn written_networks(alloc: Global, rows: &[Row]) -> Result<Vec<Net>, AllocError>
    ensures { IfOk result (λ networks. AreOrdered (spec.written_networks rows.now) networks.items) }
{
    let mut networks = Vec::new(alloc);
    push_written(&mut networks, rows)?;
    ordered(networks)
}

/// Lists those that lines of any file system write.
pub fn written_in_site(alloc: Global, policy: &Policy) -> Result<Vec<Net>, AllocError>
    ensures { IfOk result (λ networks. AreOrdered (flat_map spec.written_networks policy.now.rows) networks.items) }
{
    let mut networks = Vec::new(alloc);
    for rows in policy.rows_by_filesystem() {
        push_written(&mut networks, rows.as_slice())?;
    }
    ordered(networks)
}

/// Adds the networks that lines write.
fn push_written(networks: &mut Vec<Net>, rows: &[Row]) -> Result<(), AllocError>
    requires { All IsBlock networks.old.items }
    ensures added { OnOk result (networks.new.items ≡ networks.old.items ++ spec.written_networks rows.now) }
    ensures networks { All IsBlock networks.new.items }
{
    for row in rows {
        push_one(networks, &row.entry.clients)?;
    }
    Ok(())
}

/// Adds the network that a line is for.
fn push_one(networks: &mut Vec<Net>, clients: &Clients) -> Result<(), AllocError>
    requires { All IsBlock networks.old.items }
    ensures added { OnOk result (networks.new.items ≡ networks.old.items ++ spec.written_network clients.now) }
    ensures networks { All IsBlock networks.new.items }
{
    if let Some(network) = written_network(clients) {
        networks.push(network)?;
    }
    Ok(())
}

/// Finds the network that a line is for, if it is for one that does not have all addresses.
fn written_network(clients: &Clients) -> Option<Net>
    ensures network { option_to_list result ≡ spec.written_network clients.now }
    ensures is { IfSome result IsBlock }
{
    let Clients::Net(network, _) = clients else {
        return None;
    };
    let _ = network.first();
    if network.prefix().get() == 0 {
        return None;
    }
    Some(*network)
}
