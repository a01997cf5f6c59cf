//! Questions on the networks file.

ghost use Rattle.desk_text.specs.Lines.{IsReadable};

use crate::answers::{Asked, say_found};
use crate::site::{Site, set};
use desk_tables::Networks;
use std::alloc::Global;

/// Answers a question on the networks file. `networks TEXT`: `read`, or the fault. `network NAME`: its number as an address, or `none`.
pub fn answer(alloc: Global, site: &mut Site, out: &mut String, question: &str, text: &str) -> Asked
    requires { IsReadable text.now }
{
    match question {
        "networks" => set(&mut site.networks, out, Networks::read(alloc, text)),
        "network" => say_found(out, site.networks.find(text)),
        _ => Ok(false),
    }
}
