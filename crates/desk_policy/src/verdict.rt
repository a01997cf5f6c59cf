//! Who may mount what.

ghost use Rattle.std.specs.Prelude.{◌≡◌};
ghost use Rattle.desk_text.specs.Address.{number_of};
ghost use Rattle.desk_policy.specs.Weights.{selected};
ghost use Rattle.desk_policy.specs.Verdict.{lists_here, verdict_among, verdict_of, verdict_result};

use crate::policy::Policy;
use crate::row::Row;
use crate::weights::{first_listing, first_with, greatest_weight};
use desk_exports::Terms;
use desk_tables::FsId;
use desk_text::{Addr, Path};

/// Why a mount is denied.
#[derive(Clone, Copy)]
pub enum Denial {
    /// The path is under no mount point.
    NoFileSystem,
    /// No line of the file system matches the client.
    NoLine(FsId),
    /// No selected line of the file system lists the path; the first selected line is named.
    NotListed(FsId, u32),
}

/// The answer to a client that asks for a directory.
#[derive(Clone, Copy)]
pub enum Verdict<'a> {
    /// The mount is granted by this line of this file system, on its terms.
    Granted {
        fs: FsId,
        line: u32,
        terms: &'a Terms,
    },
    Denied(Denial),
}

/// Decides whether a client may mount a path under the policy, by which line, and on what terms. The lines of the path's
/// file system are scanned: for the greatest weight, and then for the line to name.
pub fn decide<'a>(policy: &'a Policy, address: Addr, path: &Path) -> Verdict<'a>
    ensures { verdict_result result ≡ verdict_of policy.now (number_of address) path.now }
{
    match policy.filesystems().of(path) {
        None => Verdict::Denied(Denial::NoFileSystem),
        Some(fs) => verdict_by_scan(fs, policy.rows(fs), address, path),
    }
}

/// Decides on a path of this file system, which has these lines.
fn verdict_by_scan<'a>(fs: FsId, rows: &'a [Row], address: Addr, path: &Path) -> Verdict<'a>
    ensures { verdict_result result ≡ verdict_among fs (lists_here path.now) (selected rows.now (number_of address)) }
{
    let Some(weight) = greatest_weight(rows, address) else {
        return Verdict::Denied(Denial::NoLine(fs));
    };
    match first_listing(rows, address, weight, path) {
        Some(row) => Verdict::Granted {
            fs,
            line: row.entry.line,
            terms: &row.entry.terms,
        },
        None => match first_with(rows, address, weight) {
            Some(row) => Verdict::Denied(Denial::NotListed(fs, row.entry.line)),
            None => Verdict::Denied(Denial::NoLine(fs)),
        },
    }
}
