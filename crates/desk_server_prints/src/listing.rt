//! Who may mount a directory by the rule of the server, and the first client to whom it grants what is denied here.

ghost use Rattle.std.specs.Prelude.{◌≡◌, ◌++◌, IfOk, OnOk, map};
ghost use Rattle.std.specs.String.{string_bytes};
ghost use Rattle.desk_text.specs.Address.{number_of};
ghost use Rattle.desk_who.specs.Who.{range_value};
ghost use Rattle.desk_server_prints.specs.Listing as spec;
ghost use Rattle.desk_server_prints.specs.Listing.{AreVerdictStarts, IsFirstOrNone, IsServerWho, TellsFirst, wider_at};
ghost use Rattle.desk_policy.specs.Verdict.{verdict_result};
ghost use Rattle.desk_server_prints.specs.PrivateListing.{IsFirstOf, IsFoundAt};
ghost use Rattle.desk_server_prints.specs.GrantingLine.{granting_line};

use desk_index::Index;
use desk_origins::{LineName, Origin};
use desk_policy::{PolicyView, Verdict};
use desk_server::server_decide;
use desk_text::{Addr, AddrSet, Path};
use desk_who::{Range, longest_runs, starts_among};
use std::alloc::{AllocError, Global};

/// A client to whom mountd(8) grants what is denied here.
#[derive(Clone, Copy)]
pub struct WiderClient {
    pub address: Addr,
    /// The line by which it does.
    pub line: u32,
}

/// Lists the verdict of the server at every address for a path, by ranges: they ascend, leave out no address, and neighbours have
/// different verdicts.
pub fn server_who<'a>(
    alloc: Global,
    index: &'a Index,
    path: &Path,
) -> Result<Vec<Range<'a>>, AllocError>
    ensures { IfOk result (λ ranges. IsServerWho index.now path.now (map range_value ranges.items)) }
{
    let starts = verdict_starts(alloc, index, path)?;
    longest_runs(
        alloc,
        &starts,
        |address| server_decide(index, address, path),
    )
}

/// Says to which client mountd(8) grants a path that is denied to it here, and by which line: to the one with the least address. It
/// says nothing if there is none.
pub fn first_wider_note(alloc: Global, index: &Index, path: &Path) -> Result<String, AllocError>
    ensures { IfOk result (λ note. TellsFirst index.now path.now (string_bytes note)) }
{
    let found = first_wider(alloc, index, path)?;
    let mut note = String::new(alloc);
    push_client(index.policy().origins(), found, &mut note)?;
    Ok(note)
}

/// Adds that mountd(8) grants it to this client, if there is one.
fn push_client(
    origins: &[Origin],
    found: Option<WiderClient>,
    note: &mut String,
) -> Result<(), AllocError>
    ensures { OnOk result (string_bytes note.new ≡ string_bytes note.old ++ spec.first_note origins.now found) }
{
    match found {
        Some(client) => {
            push_address(client.address, note)?;
            let line = LineName {
                origins,
                line: client.line,
            };
            push_line(line, note)
        }
        None => Ok(()),
    }
}

/// Adds that mountd(8) grants something to a client.
fn push_address(address: Addr, note: &mut String) -> Result<(), AllocError>
    ensures { OnOk result (string_bytes note.new ≡ string_bytes note.old ++ spec.address_text (number_of address)) }
{
    write!(note, "exportdesk: mountd(8) grants {address}")
}

/// Adds by which line it grants this, and ends the line.
fn push_line(line: LineName<'_>, note: &mut String) -> Result<(), AllocError>
    ensures { OnOk result (string_bytes note.new ≡ string_bytes note.old ++ spec.line_text line.entry.origins.now line.entry.line) }
{
    write!(
        note,
        " this by line {line}, which is not selected there: --mountd decides by its rule\n"
    )
}

/// Finds the client with the least address to whom mountd(8) grants a path that is denied to it here.
fn first_wider(alloc: Global, index: &Index, path: &Path) -> Result<Option<WiderClient>, AllocError>
    ensures { IfOk result (IsFirstOrNone (wider_at index.now path.now)) }
{
    let starts = verdict_starts(alloc, index, path)?;
    let found = match wider_client(index, Addr::from_number(0), path) {
        Some(client) => Some(client),
        None => first_wider_of(index, path, starts.as_slice()),
    };
    drop(starts);
    Ok(found)
}

/// Finds the first of these addresses to which mountd(8) grants a path that is denied to it here.
fn first_wider_of(index: &Index, path: &Path, addresses: &[Addr]) -> Option<WiderClient>
    ensures { IsFirstOf (wider_at index.now path.now) (map number_of addresses.now) result }
{
    for address in addresses {
        if let Some(client) = wider_client(index, *address, path) {
            return Some(client);
        }
    }
    None
}

/// Finds the line by which mountd(8) grants a client a path that is denied to it here, if it does.
fn wider_client(index: &Index, address: Addr, path: &Path) -> Option<WiderClient>
    ensures { IsFoundAt (wider_at index.now path.now (number_of address)) (number_of address) result }
{
    match index.decide(address, path) {
        Verdict::Denied(_) => granted_client(&server_decide(index, address, path), address),
        Verdict::Granted { .. } => None,
    }
}

/// Names a client with the line by which a verdict grants, if it does.
fn granted_client(verdict: &Verdict<'_>, address: Addr) -> Option<WiderClient>
    ensures { IsFoundAt (granting_line (verdict_result verdict.now)) (number_of address) result }
{
    let _number = address.number();
    match verdict {
        Verdict::Granted { line, .. } => Some(WiderClient {
            address,
            line: *line,
        }),
        Verdict::Denied(_) => None,
    }
}

/// Gathers the addresses at which the verdict on a path may change, and the server's.
fn verdict_starts(alloc: Global, index: &Index, path: &Path) -> Result<AddrSet, AllocError>
    ensures { IfOk result (AreVerdictStarts index.now path.now) }
{
    let policy = index.policy();
    match policy.filesystems().of(path) {
        Some(fs) => starts_among(alloc, policy.rows(fs)),
        None => Ok(AddrSet::new(alloc)),
    }
}
