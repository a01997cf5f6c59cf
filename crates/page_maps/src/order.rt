//! Networks in order: the wider before the narrower, then by address, each once.

ghost use Rattle.std.specs.Prelude.{◌≡◌, All, IfOk};
ghost use Rattle.desk_text.specs.Network.{IsBlock};
ghost use Rattle.page_maps.specs.Order.{AreOrdered};
ghost use Rattle.page_maps.specs.PrivateOrder as spec;

use desk_text::Net;
use std::alloc::AllocError;

/// Puts networks in order, each once.
pub(crate) fn ordered(networks: Vec<Net>) -> Result<Vec<Net>, AllocError>
    requires { All IsBlock networks.items }
    ensures { IfOk result (λ ordered. AreOrdered networks.items ordered.items) }
{
    let mut ordered = networks;
    ordered.sort_by_key(|network| order_of(*network))?;
    ordered.dedup_by_key(|network| order_of(*network));
    Ok(ordered)
}

/// Returns a number that is less for the network that comes before.
fn order_of(network: Net) -> u64
    ensures { result ≡ spec.order_of network }
{
    u64::from(network.prefix().get()) * (1 << 32) + u64::from(network.first().number())
}
