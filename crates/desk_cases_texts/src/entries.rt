//! Entries of exports files as answers.

use desk_exports::{Boxed, Clients, Entry, Names};
use desk_text::{Net, Path, Text};
use std::alloc::AllocError;

/// Adds an entry: `1 /usr /usr/local ro sec=sys root=65534:65533 [10.0.0.5]`.
pub fn add_entry(out: &mut String, entry: &Entry) -> Result<(), AllocError> {
    let line = entry.line;
    write!(out, "{line}")?;
    add_dirs(out, entry.dirs.as_slice())?;
    if entry.alldirs {
        out.push_str(" alldirs")?;
    }
    let terms = &entry.terms;
    write!(out, " {terms}")?;
    add_clients(out, &entry.clients)?;
    out.push('\n')
}

fn add_dirs(out: &mut String, dirs: &[Path]) -> Result<(), AllocError> {
    for dir in dirs {
        let dir = dir.text();
        write!(out, " {dir}")?;
    }
    Ok(())
}

/// Adds whom a line is for: `[a] [b]`, `10.0.0.0/8`, `10.0.0.0/8 by the class of 10`, `ipv6 ::1` or `world`.
fn add_clients(out: &mut String, clients: &Clients) -> Result<(), AllocError> {
    match clients {
        Clients::Hosts(names) => add_names(out, names),
        Clients::Net(net, noted) => add_net(out, *net, noted),
        Clients::Net6(value) => {
            let value = value.as_str();
            write!(out, " ipv6 {value}")
        }
        Clients::World => out.push_str(" world"),
    }
}

fn add_names(out: &mut String, names: &Names) -> Result<(), AllocError> {
    for index in 0..names.len() {
        let name = names.get(index);
        write!(out, " [{name}]")?;
    }
    Ok(())
}

fn add_net(out: &mut String, net: Net, noted: &Option<Boxed<Text>>) -> Result<(), AllocError> {
    let (first, bits) = (net.first(), net.prefix().get());
    write!(out, " {first}/{bits}")?;
    if let Some(value) = noted {
        let value = value.as_str();
        write!(out, " by the class of {value}")?;
    }
    Ok(())
}
