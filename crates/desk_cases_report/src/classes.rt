//! Questions on the most that clients may.

ghost use Rattle.std.specs.Prelude.{map};
ghost use Rattle.page_data.specs.Classes.{class_run};
ghost use Rattle.page_data.specs.Values.{AreRunsOfSome};

use desk_cases_texts::answers::Asked;
use desk_text::{Net, NetText};
use desk_who::Run;
use page_data::{Class, FileSystemReport, classes_of_site, counts_within};
use std::alloc::{AllocError, Global};

/// `classes`: the most that clients may on any file system.
pub fn of_site(alloc: Global, systems: &[FileSystemReport<'_>], out: &mut String) -> Asked {
    let classes = classes_of_site(alloc, systems)?;
    say(out, classes.as_slice())
}

/// `classes FS`: the most that clients may on the file system with this number, by ranges of addresses, with `|` between them:
/// `0.0.0.0-9.255.255.255 denied|10.0.0.0-255.255.255.255 read-only`.
pub fn say(out: &mut String, runs: &[Run<Class>]) -> Asked {
    for (place, run) in runs.iter().enumerate() {
        add_bar(out, place)?;
        let (first, last, class) = (run.first, run.last, class_name(run.value));
        write!(out, "{first}-{last} {class}")?;
    }
    Ok(true)
}

/// Adds what stands before an item.
pub fn add_bar(out: &mut String, place: usize) -> Result<(), AllocError> {
    out.push_str(if place > 0 { "|" } else { "" })
}

/// Returns how a class is written.
fn class_name(class: Class) -> &'static str {
    match class {
        Class::Denied => "denied",
        Class::ReadOnly => "read-only",
        Class::ReadWrite => "read-write",
        Class::RootKept => "root kept",
    }
}

/// `counts FS ADDRESS/BITS`: how many addresses of the network are of which class.
pub fn counts(out: &mut String, runs: &[Run<Class>], text: &str) -> Asked
    requires { AreRunsOfSome (map class_run runs.now) }
{
    let Some(net) = read_net(text) else {
        return Ok(false);
    };
    let counts = counts_within(runs, net.first(), net.last());
    let (denied, read_only) = (counts.denied, counts.read_only);
    let (read_write, root_kept) = (counts.read_write, counts.root_kept);
    write!(
        out,
        "denied {denied}|read-only {read_only}|read-write {read_write}|root kept {root_kept}"
    )?;
    Ok(true)
}

/// Returns the network that a text with a prefix writes.
fn read_net(text: &str) -> Option<Net> {
    let written = NetText::read(text).ok()?;
    Some(Net::new(written.addr, written.prefix?))
}
