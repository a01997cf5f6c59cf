//! Lines that have a client of an earlier line of their file system. mountd leaves such a line out if it has put that one in force.

ghost use Rattle.std.specs.Prelude.{◌≡◌, IfOk, map, slice_get};
ghost use Rattle.std.specs.List.Sorted.{IsStrictlyIncreasing};
ghost use Rattle.desk_text.specs.Address.{number_of};
ghost use Rattle.desk_policy.specs.Keys.{has_key, is_host_among, least_of};
ghost use Rattle.desk_policy.specs.Policy.{AreAscending, rows_of};
ghost use Rattle.desk_index.specs.Keys.{fs_of_key, line_key, lines_with};
ghost use Rattle.desk_server.specs.PrivateRepeatedClients.{IsSharing, earlier_of, is_key};
ghost use Rattle.desk_server.specs.RepeatedClients.{AreRepeatedClients};

use desk_exports::Clients;
use desk_index::{Index, Key, Probes, Rows};
use desk_policy::{PolicyView, Row};
use desk_tables::FsId;
use desk_text::Addr;
use std::alloc::{AllocError, Global};

/// A line with a client of an earlier line of its file system.
#[derive(Clone, Copy)]
pub struct RepeatedClient {
    pub line: u32,
    /// The first line that has one of its clients.
    pub other: u32,
    /// The least client that both lines have: an address, the first address of a network, or 0.0.0.0 for everybody.
    pub address: Addr,
}

/// Lists the lines of a file system that have a client of an earlier one, in the order of the lines: an address that their names
/// stand for, their network, or everybody. mountd(8) leaves such a line out as a whole, unless each such earlier line is left out, too.
pub fn repeated_clients(
    alloc: Global,
    index: &Index,
    fs: FsId,
) -> Result<Vec<RepeatedClient>, AllocError>
    ensures { IfOk result (λ found. AreRepeatedClients (rows_of index.now fs.0) found.items) }
{
    let _lists = index.policy().rows_by_filesystem();
    repeated_among(alloc, index, fs)
}

/// Lists them by the lines under each of their keys.
fn repeated_among(alloc: Global, index: &Index, fs: FsId) -> Result<Vec<RepeatedClient>, AllocError>
    requires { AreAscending (rows_of index.now fs.0) }
    ensures { IfOk result (λ found. AreRepeatedClients (rows_of index.now fs.0) found.items) }
{
    let mut found = Vec::new(alloc);
    for row in index.policy().rows(fs) {
        if let Some(sharing) = sharing_of(index, fs, row) {
            found.push(RepeatedClient {
                line: row.entry.line,
                other: sharing.other,
                address: sharing.address,
            })?;
        }
    }
    Ok(found)
}

/// The first line that has a client of another, and the least address of such a client.
#[derive(Clone, Copy)]
struct Sharing {
    other: u32,
    address: Addr,
}

/// Finds the first line that has a client of this one, if it is an earlier line.
fn sharing_of(index: &Index, fs: FsId, row: &Row) -> Option<Sharing>
    requires { AreAscending (rows_of index.now fs.0) }
    ensures { IsSharing (rows_of index.now fs.0) row.now.entry.line (λ client. has_key client row.now) result }
{
    let line = row.entry.line;
    match &row.entry.clients {
        Clients::Hosts(_) => sharing_hosts(index, fs, line, row.addrs.as_slice()),
        Clients::Net(net, _) => sharing_key(index, Key::Net(fs, *net), line, net.first()),
        Clients::Net6(_) => None,
        Clients::World => sharing_key(index, Key::World(fs), line, Addr::from_number(0)),
    }
}

/// Finds the first line before this one that has one of these addresses, which ascend.
fn sharing_hosts(index: &Index, fs: FsId, line: u32, addresses: &[Addr]) -> Option<Sharing>
    requires rows { AreAscending (rows_of index.now fs.0) }
    requires addresses { IsStrictlyIncreasing (map number_of addresses.now) }
    ensures { IsSharing (rows_of index.now fs.0) line (is_host_among (map number_of addresses.now)) result }
{
    let mut found = None;
    for address in addresses {
        found = earlier_of(
            found,
            sharing_key(index, Key::Host(fs, *address), line, *address),
        );
    }
    found
}

/// Gives the one with the earlier line; of two with one line, the former.
fn earlier_of(found: Option<Sharing>, other: Option<Sharing>) -> Option<Sharing>
    ensures { result ≡ earlier_of found other }
{
    match (found, other) {
        (None, other) => other,
        (Some(found), None) => Some(found),
        (Some(found), Some(other)) => Some(if other.other < found.other {
            other
        } else {
            found
        }),
    }
}

/// Finds the first line under a key, of which this is the least address, if it is before this line.
fn sharing_key(index: &Index, key: Key, line: u32, address: Addr) -> Option<Sharing>
    requires rows { AreAscending (rows_of index.now (fs_of_key key).0) }
    requires address { least_of (line_key key) ≡ number_of address }
    ensures { IsSharing (rows_of index.now (fs_of_key key).0) line (is_key (line_key key)) result }
{
    let Some(other) = first_under(index, key) else {
        return None;
    };
    if other < line {
        Some(Sharing { other, address })
    } else {
        None
    }
}

/// Finds the first line under a key.
fn first_under(index: &Index, key: Key) -> Option<u32>
    ensures { result ≡ slice_get (lines_with (rows_of index.now (fs_of_key key).0) (line_key key)) 0 }
{
    let mut probes = Probes::new(index);
    match probes.probe(key) {
        Some(found) => found.lines().first().copied(),
        None => None,
    }
}
