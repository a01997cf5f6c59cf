//! What mountd(8) does otherwise than this desk, by file system and by line.

ghost use Rattle.std.specs.Prelude.{◌≡◌, ◌==◌, ◌++◌, IfOk, OnOk, find};
ghost use Rattle.page_data.specs.Laws.{IsSound};
ghost use Rattle.page_data.specs.PrivateServer as spec;
ghost use Rattle.page_data.specs.PrivateServer.{RepeatedAscend, WiderAscend};
ghost use Rattle.page_data.specs.Server.{AreServerFindings};

use crate::reasons::Reason;
use desk_index::Index;
use desk_server::{RepeatedClient, WiderGrant, repeated_clients, wider_grants};
use desk_tables::FsId;
use desk_text::Sequence;
use std::alloc::{AllocError, Global};

/// The lines of a file system where the server grants more, and those that have a client of an earlier one.
#[derive(Drop)]
pub struct ServerFindings<'i> {
    pub wider: Sequence<WiderGrant<'i>>,
    pub repeated: Sequence<RepeatedClient>,
}

/// Finds them.
pub fn server_findings<'i>(
    alloc: Global,
    index: &'i Index,
    fs: FsId,
) -> Result<ServerFindings<'i>, AllocError>
    requires { IsSound index.now fs.0 }
    ensures { IfOk result (AreServerFindings index.now fs.0) }
{
    let wider = wider_grants(alloc, index, fs)?;
    let repeated = repeated_clients(alloc, index, fs)?;
    Ok(ServerFindings {
        wider: Sequence::from_vec(wider),
        repeated: Sequence::from_vec(repeated),
    })
}

/// Adds why a line stands out by them.
pub(crate) fn push_server_reasons<'i>(
    server: &ServerFindings<'i>,
    line: u32,
    reasons: &mut Vec<Reason<'i>>,
) -> Result<(), AllocError>
    requires wider { WiderAscend server.now.wider }
    requires repeated { RepeatedAscend server.now.repeated }
    ensures { OnOk result (reasons.new.items ≡ reasons.old.items ++ spec.reasons_in server.now line) }
{
    if let Some(one) = wider_of(server.wider.as_slice(), line) {
        reasons.push(Reason::ServerGrantsMore(one))?;
    }
    if let Some(one) = repeated_of(server.repeated.as_slice(), line) {
        reasons.push(Reason::RepeatedClient(one))?;
    }
    Ok(())
}

/// Finds what the server grants more where a line is the first that is selected, by a binary search.
fn wider_of<'i>(found: &[WiderGrant<'i>], line: u32) -> Option<WiderGrant<'i>>
    requires { WiderAscend found.now }
    ensures { result ≡ find (λ one. one.line == line) found.now }
{
    let place = found.partition_point(|one| one.line < line);
    match found.get(place) {
        Some(one) if one.line == line => Some(*one),
        _ => None,
    }
}

/// Finds the client of a line that an earlier one has, by a binary search.
fn repeated_of(found: &[RepeatedClient], line: u32) -> Option<RepeatedClient>
    requires { RepeatedAscend found.now }
    ensures { result ≡ find (λ one. one.line == line) found.now }
{
    let place = found.partition_point(|one| one.line < line);
    match found.get(place) {
        Some(one) if one.line == line => Some(*one),
        _ => None,
    }
}
