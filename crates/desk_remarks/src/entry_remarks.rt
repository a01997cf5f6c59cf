//! What is said of a line by itself.

ghost use Rattle.std.specs.Prelude.{◌≡◌, ◌++◌, OnOk, filter};
ghost use Rattle.desk_remarks.specs.EntryRemarks as spec;
ghost use Rattle.desk_remarks.specs.PrivateUnwarnedLines.{is_outside};

use crate::remark::{LineRemark, Remark};
use crate::unwarned_lines::push_unwarned;
use desk_exports::{BoxedMapping, Clients, Entry, Flavour, Mapping, Terms};
use desk_text::Sequence;
use std::alloc::AllocError;
use std::collections::BTreeSet;

/// Adds what is said of a line by itself, unless it is one of these lines: that its network has every address, and opinions, if they
/// are asked for.
pub(crate) fn push_entry(
    entry: &Entry,
    opinions: bool,
    warned: &BTreeSet<u32>,
    found: &mut Sequence<LineRemark>,
) -> Result<(), AllocError>
    ensures { OnOk result (found.new ≡ found.old ++ filter (is_outside warned.now) (spec.entry_remarks opinions entry.now)) }
{
    let line = entry.line;
    push_if(
        is_every_address(&entry.clients),
        line,
        Remark::EveryAddress,
        warned,
        found,
    )?;
    push_if(
        opinions && is_writable_by_all(entry),
        line,
        Remark::WritableByAll,
        warned,
        found,
    )?;
    push_if(
        opinions && is_root_for_many(entry),
        line,
        Remark::RootForMany,
        warned,
        found,
    )
}

/// Adds what is said of a line, if it is said, and the line is none of these.
fn push_if(
    said: bool,
    line: u32,
    remark: Remark,
    warned: &BTreeSet<u32>,
    found: &mut Sequence<LineRemark>,
) -> Result<(), AllocError>
    ensures { OnOk result (found.new ≡ found.old ++ filter (is_outside warned.now) (spec.remark_if said line remark)) }
{
    if said {
        let said_of_line = LineRemark {
            line,
            remark,
            example: None,
            directory: None,
        };
        push_unwarned(said_of_line, warned, found)?;
    }
    Ok(())
}

/// Tests whether these clients are a network of every address.
fn is_every_address(clients: &Clients) -> bool
    ensures { result ≡ spec.is_every_address clients.now }
{
    match clients {
        Clients::Net(net, _) => net.prefix().get() == 0,
        Clients::Hosts(_) | Clients::Net6(_) | Clients::World => false,
    }
}

/// Tests whether these clients are everybody.
fn are_all(clients: &Clients) -> bool
    ensures { result ≡ spec.are_all clients.now }
{
    match clients {
        Clients::World => true,
        Clients::Hosts(_) | Clients::Net(_, _) | Clients::Net6(_) => is_every_address(clients),
    }
}

/// Tests whether these clients are a network, or everybody.
fn are_many(clients: &Clients) -> bool
    ensures { result ≡ spec.are_many clients.now }
{
    match clients {
        Clients::Net(_, _) | Clients::World => true,
        Clients::Hosts(_) | Clients::Net6(_) => false,
    }
}

/// Tests whether a line lets everybody write.
fn is_writable_by_all(entry: &Entry) -> bool
    ensures { result ≡ spec.is_writable_by_all entry.now }
{
    are_all(&entry.clients) && !entry.terms.ro && accepts_sys(&entry.terms)
}

/// Tests whether a line lets the root of many clients act as root.
fn is_root_for_many(entry: &Entry) -> bool
    ensures { result ≡ spec.is_root_for_many entry.now }
{
    are_many(&entry.clients) && acts_as_root(&entry.terms.map) && accepts_sys(&entry.terms)
}

/// Tests whether clients need not prove who their users are.
fn accepts_sys(terms: &Terms) -> bool
    ensures { result ≡ spec.accepts_sys terms.now }
{
    terms
        .flavours
        .as_slice()
        .iter()
        .any(|flavour| is_sys(*flavour))
}

/// Tests whether this flavour proves nothing.
fn is_sys(flavour: Flavour) -> bool
    ensures { result ≡ spec.is_sys flavour }
{
    match flavour {
        Flavour::Sys => true,
        Flavour::Krb5 | Flavour::Krb5i | Flavour::Krb5p => false,
    }
}

/// Tests whether root acts as a user of the number 0.
fn acts_as_root(map: &BoxedMapping) -> bool
    ensures { result ≡ spec.acts_as_root map.now }
{
    match map.get() {
        Mapping::Root(cred) | Mapping::All(cred) => cred.uid == 0,
    }
}
