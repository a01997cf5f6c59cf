//! Why a line stands out.

ghost use Rattle.std.specs.Prelude.{◌≡◌, IfOk};
ghost use Rattle.std.specs.List.{list_any};
ghost use Rattle.page_data.specs.Reasons as spec;

use crate::class::keeps_root;
use desk_exports::Clients;
use desk_policy::Row;
use desk_server::{RepeatedClient, WiderGrant};
use std::alloc::{AllocError, Global};

/// To more addresses than these a line grants something widely.
const NARROW: u64 = 65536;

/// What to look at first, and what to check.
#[derive(Clone, Copy)]
pub enum Level {
    LookFirst,
    Check,
}

/// Why a line stands out: the first two are of a line that decides nothing, the last two of one by which mountd(8) does something else
/// than this desk, and the others of one that grants something.
#[derive(Clone, Copy)]
pub enum Reason<'i> {
    /// It matches nobody.
    NoClient,
    /// It matches somebody, but other lines decide for all its clients.
    NeverDecides,
    /// It is for everybody, and read-only.
    ForEverybodyReadOnly,
    /// It is for everybody, and read-write.
    ForEverybodyReadWrite,
    /// It is not for everybody, but grants something to more than 65,536 addresses.
    Wide,
    /// It keeps root, for a network or for everybody.
    RootKeptForNetworks,
    /// It keeps root, for the clients that it names.
    RootKeptForNames,
    /// It is the first that is selected for some client to whom the server grants more.
    ServerGrantsMore(WiderGrant<'i>),
    /// It has a client of an earlier line, so that the server may leave it out.
    RepeatedClient(RepeatedClient),
}

impl Reason<'_> {
    /// Returns its level.
    pub fn level(self) -> Level
        ensures { result ≡ spec.level_of self.entry }
    {
        match self {
            Reason::ForEverybodyReadWrite
            | Reason::RootKeptForNetworks
            | Reason::ServerGrantsMore(_)
            | Reason::RepeatedClient(_) => Level::LookFirst,
            Reason::NoClient
            | Reason::NeverDecides
            | Reason::ForEverybodyReadOnly
            | Reason::Wide
            | Reason::RootKeptForNames => Level::Check,
        }
    }
}

/// Returns the highest level of these reasons: to look first, if one of them has it.
pub fn level_of_reasons(reasons: &[Reason<'_>]) -> Level
    ensures { result ≡ spec.level_of_all reasons.now }
{
    if has_first(reasons) {
        Level::LookFirst
    } else {
        Level::Check
    }
}

/// Tests whether one of these reasons is one to look at first.
fn has_first(reasons: &[Reason<'_>]) -> bool
    ensures { result ≡ list_any spec.is_first reasons.now }
{
    reasons.iter().any(|reason| is_first(*reason))
}

/// Tests whether a reason is one to look at first.
fn is_first(reason: Reason<'_>) -> bool
    ensures { result ≡ spec.is_first reason.entry }
{
    match reason.level() {
        Level::LookFirst => true,
        Level::Check => false,
    }
}

/// Lists why a line stands out that grants something, given to how many addresses it does: for whom it is, and then whether it keeps
/// root.
pub fn reasons_on<'i>(alloc: Global, row: &Row, count: u64) -> Result<Vec<Reason<'i>>, AllocError>
    ensures { IfOk result (λ reasons. reasons.items ≡ spec.reasons_on row.now count) }
{
    let mut reasons = Vec::new(alloc);
    if let Some(reason) = audience_reason(row, count) {
        reasons.push(reason)?;
    }
    if let Some(reason) = root_reason(row) {
        reasons.push(reason)?;
    }
    Ok(reasons)
}

/// Finds whether a line stands out by whom it is for.
fn audience_reason<'i>(row: &Row, count: u64) -> Option<Reason<'i>>
    ensures { result ≡ spec.audience_reason row.now count }
{
    if !are_all(&row.entry.clients) {
        return if NARROW < count {
            Some(Reason::Wide)
        } else {
            None
        };
    }
    if row.entry.terms.ro {
        Some(Reason::ForEverybodyReadOnly)
    } else {
        Some(Reason::ForEverybodyReadWrite)
    }
}

/// Finds whether a line keeps root, and for whom.
fn root_reason<'i>(row: &Row) -> Option<Reason<'i>>
    ensures { result ≡ spec.root_reason row.now }
{
    if !keeps_root(&row.entry.terms) {
        return None;
    }
    if are_names(&row.entry.clients) {
        Some(Reason::RootKeptForNames)
    } else {
        Some(Reason::RootKeptForNetworks)
    }
}

/// Tests whether clients are everybody.
pub fn are_all(clients: &Clients) -> bool
    ensures { result ≡ spec.are_all clients.now }
{
    match clients {
        Clients::World => true,
        Clients::Net(net, _) => net.prefix().get() == 0,
        Clients::Hosts(_) | Clients::Net6(_) => false,
    }
}

/// Tests whether clients are written by their names.
pub fn are_names(clients: &Clients) -> bool
    ensures { result ≡ spec.are_names clients.now }
{
    match clients {
        Clients::Hosts(_) => true,
        Clients::Net(_, _) | Clients::Net6(_) | Clients::World => false,
    }
}
