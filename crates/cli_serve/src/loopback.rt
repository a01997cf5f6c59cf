//! The address that is bound.

ghost use Rattle.cli_serve.specs.Loopback.{IsLoopback};

use std::net::{IpAddr, Ipv4Addr, SocketAddr};

/// Returns the address of a port of 127.0.0.1, which is reached from this machine alone.
pub fn loopback(port: u16) -> SocketAddr
    ensures { IsLoopback port result }
{
    SocketAddr::new(IpAddr::V4(Ipv4Addr::LOCALHOST), port)
}
