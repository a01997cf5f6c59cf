//! The lines in force: an entry, and the addresses for which its written names stand.

ghost use Rattle.std.specs.Prelude.{◌≡◌, IfOk, OnOk};
ghost use Rattle.desk_policy.specs.Names.{addresses_of_names};
ghost use Rattle.desk_policy.specs.PrivateKnownNames.{AreKnown};
ghost use Rattle.desk_policy.specs.Row.{names_of, row_of};
ghost use Rattle.desk_policy.specs.Verdict.{is_directory_among, lists_here};

use crate::known_names::KnownNames;
use crate::row_addrs::RowAddrs;
use desk_exports::{Boxed, Clients, Entry};
use desk_netgroup::Netgroups;
use desk_tables::Hosts;
use desk_text::Path;
use std::alloc::{AllocError, Global};

/// A line of an exports file, with the addresses for which its written names stand.
pub struct Row {
    pub entry: Boxed<Entry>,
    pub addrs: RowAddrs,
}

// It is written out, so that the crates above do not prove again how each part is dropped.
impl Drop for Row {
    fn drop(self) {
        let Row { entry: _, addrs: _ } = self;
    }
}

impl Row {
    /// Makes the line in force of an entry.
    pub fn of_entry(
        alloc: Global,
        netgroups: &Netgroups,
        hosts: &Hosts,
        entry: Boxed<Entry>,
    ) -> Result<Row, AllocError>
        ensures { IfOk result (λ row. row ≡ row_of netgroups.now hosts.now entry) }
    {
        let mut known = KnownNames::new(alloc);
        Row::by_known(alloc, netgroups, hosts, &mut known, entry)
    }

    /// Makes the line in force of an entry, of many: it looks up only names that were not looked up for the lines before it.
    pub(crate) fn by_known(
        alloc: Global,
        netgroups: &Netgroups,
        hosts: &Hosts,
        known: &mut KnownNames,
        entry: Boxed<Entry>,
    ) -> Result<Row, AllocError>
        requires { AreKnown netgroups.now hosts.now known.old }
        ensures row { IfOk result (λ row. row ≡ row_of netgroups.now hosts.now entry) }
        ensures known { OnOk result (AreKnown netgroups.now hosts.now known.new) }
    {
        let addrs = addresses_of_clients(alloc, netgroups, hosts, known, &entry.clients)?;
        Ok(Row { entry, addrs })
    }

    /// Tests whether the line lists a path of its own file system, which is all that `-alldirs` needs to know.
    pub fn lists_here(&self, path: &Path) -> bool
        ensures { result ≡ lists_here path.now self.now }
    {
        is_directory_among(path, self.entry.dirs.as_slice()) || self.entry.alldirs
    }
}

fn is_directory_among(path: &Path, dirs: &[Path]) -> bool
    ensures { result ≡ is_directory_among path.now dirs.now }
{
    dirs.iter().any(|dir| *dir == *path)
}

/// Finds the addresses for which the written names of these clients stand.
fn addresses_of_clients(
    alloc: Global,
    netgroups: &Netgroups,
    hosts: &Hosts,
    known: &mut KnownNames,
    clients: &Clients,
) -> Result<RowAddrs, AllocError>
    requires { AreKnown netgroups.now hosts.now known.old }
    ensures addresses { IfOk result (λ addresses. addresses ≡ addresses_of_names netgroups.now hosts.now (names_of clients.now)) }
    ensures known { OnOk result (AreKnown netgroups.now hosts.now known.new) }
{
    match clients {
        Clients::Hosts(names) => known.addresses_of(alloc, netgroups, hosts, names),
        Clients::Net(_, _) | Clients::Net6(_) | Clients::World => Ok(RowAddrs::new()),
    }
}
