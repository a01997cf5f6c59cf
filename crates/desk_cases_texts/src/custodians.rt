//! Questions on the custodians file.

ghost use Rattle.desk_text.specs.Lines.{IsReadable};

use crate::answers::{Asked, end_list, say, say_found};
use crate::site::{Site, set_some};
use desk_policy::unlisted_line;
use desk_tables::{Custodians, FileSystems};
use std::alloc::Global;

/// Answers a question on the custodians file. `custodians TEXT`: `read`, or the fault.
pub fn answer(alloc: Global, site: &mut Site, out: &mut String, question: &str, text: &str) -> Asked
    requires { IsReadable text.now }
{
    match (question, &site.custodians) {
        ("custodians", _) => set_some(&mut site.custodians, out, Custodians::read(alloc, text)),
        ("digest", Some(table)) => digest(alloc, table, out, text),
        ("custodian_names", Some(table)) => names(table, out),
        ("unlisted", Some(table)) => unlisted(table, &site.filesystems, out),
        _ => Ok(false),
    }
}

/// `digest NAME`: the digest in hexadecimal, or `none`.
fn digest(alloc: Global, table: &Custodians, out: &mut String, name: &str) -> Asked {
    match table.digest_of(name) {
        Some(digest) => say(out, hex::encode(alloc, digest.as_slice())?.as_str()),
        None => Ok(true),
    }
}

/// `unlisted`: the first line of the file systems with a custodian who is not listed, or `none`.
fn unlisted(table: &Custodians, filesystems: &Option<FileSystems>, out: &mut String) -> Asked {
    match filesystems {
        Some(filesystems) => say_found(out, unlisted_line(table, filesystems)),
        None => Ok(false),
    }
}

/// `custodian_names`: the names of all custodians, in order.
fn names(table: &Custodians, out: &mut String) -> Asked {
    for row in table.as_slice() {
        let name = row.name.as_str();
        write!(out, "{name} ")?;
    }
    end_list(out)
}
