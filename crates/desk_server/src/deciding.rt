//! Who may mount what by the rule of the server.

ghost use Rattle.std.specs.Prelude.{◌≡◌, slice_get};
ghost use Rattle.std.specs.Option.{option_copied};
ghost use Rattle.desk_text.specs.Address.{number_of};
ghost use Rattle.desk_policy.specs.Policy.{AreAscending, rows_of};
ghost use Rattle.desk_policy.specs.Verdict.{lists_here, verdict_result};
ghost use Rattle.desk_server.specs.Server.{granting, server_verdict_among, server_verdict_of};

use crate::looking::first_row;
use desk_index::{Index, Probes};
use desk_policy::{Denial, PolicyView, Row, Verdict};
use desk_tables::FsId;
use desk_text::{Addr, Path};

/// Decides by mountd's rule whether a client may mount a path: a line that names the client grants what it lists, on the terms of
/// the most specific such line; a line for everybody is asked only if none names the client. (mountd(8), exports(5))
pub fn server_decide<'a>(index: &'a Index, address: Addr, path: &Path) -> Verdict<'a>
    ensures { verdict_result result ≡ server_verdict_of index.now (number_of address) path.now }
{
    let _lists = index.policy().rows_by_filesystem();
    match index.policy().filesystems().of(path) {
        Some(fs) => decide_in(index, fs, address, path),
        None => Verdict::Denied(Denial::NoFileSystem),
    }
}

/// Decides on a path of this file system.
fn decide_in<'a>(index: &'a Index, fs: FsId, address: Addr, path: &Path) -> Verdict<'a>
    requires { AreAscending (rows_of index.now fs.0) }
    ensures { verdict_result result ≡ server_verdict_among fs (lists_here path.now) (rows_of index.now fs.0) (number_of address) }
{
    let Some(first) = first_row(index, fs, address) else {
        return Verdict::Denied(Denial::NoLine(fs));
    };
    match granting_row(index, fs, address, path) {
        Some(row) => Verdict::Granted {
            fs,
            line: row.entry.line,
            terms: &first.entry.terms,
        },
        None => Verdict::Denied(Denial::NotListed(fs, first.entry.line)),
    }
}

/// Finds the line that grants a path of this file system: of the lines that mountd asks, and that list it, the first of the heaviest.
fn granting_row<'a>(index: &'a Index, fs: FsId, address: Addr, path: &Path) -> Option<&'a Row>
    requires { AreAscending (rows_of index.now fs.0) }
    ensures { option_copied result ≡ slice_get (granting (lists_here path.now) (rows_of index.now fs.0) (number_of address)) 0 }
{
    let _probes = Probes::new(index);
    let mut below = 35;
    while let Some(group) = index.heaviest_below(fs, address, below) {
        // Lines for everybody are asked only if no line names the client.
        if group.weight == 0 && below < 35 {
            return None;
        }
        if let Some(row) = index.first_listing(fs, group.lines, path) {
            return Some(row);
        }
        below = group.weight;
    }
    None
}
