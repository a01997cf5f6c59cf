//! Questions on listings, and on texts that are split among file systems. A listing is asked of the index too.

ghost use Rattle.desk_text.specs.Lines.{IsReadable};

use crate::answers::Asked;
use crate::exports::say_fault;
use crate::indexes::add_by_keys;
use crate::site::{InForce, Site};
use desk_policy::{Plain, Policy, PolicyView, all_exports, listing, listing_text};
use desk_split::split;
use desk_tables::FileSystems;
use desk_text::Addr;
use std::alloc::{AllocError, Global};

/// Answers a question on listings.
pub fn answer(alloc: Global, site: &Site, out: &mut String, question: &str, text: &str) -> Asked
    requires { IsReadable text.now }
{
    match (question, &site.filesystems, &site.policy) {
        ("split", Some(table), _) => split_texts(alloc, table, out, text),
        ("listing", _, Some(InForce::View(view))) => listings(alloc, site, view, out, text),
        ("exports", _, Some(in_force)) => exports(alloc, in_force.policy(), out),
        _ => Ok(false),
    }
}

/// `split TEXT`: the text of each file system behind its number and a colon, with `|` for each line feed; or the fault.
fn split_texts(alloc: Global, table: &FileSystems, out: &mut String, text: &str) -> Asked
    requires { IsReadable text.now }
{
    match split(alloc, text, table) {
        Ok(texts) => say_texts(out, texts.as_slice()),
        Err(error) => say_fault(alloc, out, error),
    }
}

fn say_texts(out: &mut String, texts: &[String]) -> Asked {
    for (number, text) in texts.iter().enumerate() {
        write!(out, "{number}:")?;
        add_lines(out, text.as_str())?;
    }
    Ok(true)
}

/// `listing ADDRESS`: the printed listing for an address under the policy in force, with `|` for each line feed.
fn listings(alloc: Global, site: &Site, view: &Plain, out: &mut String, text: &str) -> Asked {
    let Ok(address) = Addr::read(text) else {
        return Ok(false);
    };
    say_listing(alloc, view, out, address)?;
    let Some(index) = &site.index else {
        return Ok(true);
    };
    let mut by_keys = String::new(alloc);
    say_listing(alloc, index, &mut by_keys, address)?;
    add_by_keys(out, by_keys.as_str())
}

/// Answers with the listing for an address under a view.
fn say_listing<V: PolicyView>(alloc: Global, view: &V, out: &mut String, address: Addr) -> Asked {
    let text = text_of_listing(alloc, view, address)?;
    say_lines(out, text.as_str())
}

fn text_of_listing<V: PolicyView>(
    alloc: Global,
    view: &V,
    address: Addr,
) -> Result<String, AllocError> {
    let shown = listing(alloc, view, address)?;
    listing_text(alloc, view.policy(), shown.as_slice())
}

/// `exports`: all exports of the policy as they are printed, with `|` for each line feed.
fn exports(alloc: Global, policy: &Policy, out: &mut String) -> Asked {
    say_lines(out, all_exports(alloc, policy)?.as_str())
}

/// Answers with a text, with `|` for each line feed.
pub fn say_lines(out: &mut String, text: &str) -> Asked {
    add_lines(out, text)?;
    Ok(true)
}

fn add_lines(out: &mut String, text: &str) -> Result<(), AllocError> {
    for c in text.chars() {
        out.push(if c == '\n' { '|' } else { c })?;
    }
    Ok(())
}
