//! Questions on the hosts file.

ghost use Rattle.desk_text.specs.Lines.{IsReadable};

use crate::answers::{Asked, say_each};
use crate::site::{Site, set};
use desk_tables::Hosts;
use std::alloc::Global;

/// Answers a question on the hosts file. `hosts TEXT`: `read`, or the fault.
pub fn answer(alloc: Global, site: &mut Site, out: &mut String, question: &str, text: &str) -> Asked
    requires { IsReadable text.now }
{
    match question {
        "hosts" => set(&mut site.hosts, out, Hosts::read(alloc, text)),
        "addresses" => addresses(alloc, &site.hosts, out, text),
        _ => Ok(false),
    }
}

/// `addresses NAME`: its addresses, or `none`.
fn addresses(alloc: Global, hosts: &Hosts, out: &mut String, name: &str) -> Asked {
    say_each(out, hosts.addresses(alloc, name)?.as_slice())
}
