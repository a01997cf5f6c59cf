//! Where the server grants what is denied here, and by which line.

ghost use Rattle.std.specs.Prelude.{◌≡◌, [], IfOk, map};
ghost use Rattle.std.specs.Bool.{Decides};
ghost use Rattle.std.specs.Option.{option_map};
ghost use Rattle.desk_text.specs.Address.{number_of};
ghost use Rattle.desk_policy.specs.Verdict.{verdict_result};
ghost use Rattle.page_data.specs.Opening as spec;
ghost use Rattle.page_data.specs.Opening.{AreOpenings, opening_section, opening_value};
ghost use Rattle.page_data.specs.declared.opening.Opening.{Opening};

use desk_impact::{Section, found_in};
use desk_index::Index;
use desk_policy::{Denial, Policy, PolicyView, Verdict};
use desk_server::server_decide;
use desk_text::{Addr, AddrSet, Path};
use desk_who::{Alike, Search};
use std::alloc::{AllocError, Global};

/// A line by which the server grants a mount that is denied here.
#[derive(Clone, Copy)]
pub struct Opening {
    /// The line that the denial names: the first of those that are selected, none of which lists the directory.
    pub denied: u32,
    pub line: u32,
}

impl Alike for Opening {
    ghost Meaning = { Opening };

    ghost meaning = { opening_value };

    fn is_alike(&self, other: &Opening) -> bool
        ensures { Decides result (self.now ≡ other.now) }
    {
        self.denied == other.denied && self.line == other.line
    }
}

/// The search for them.
#[derive(Drop)]
struct Openings<'a> {
    index: &'a Index,
    starts: AddrSet,
    ghost none: { starts ≡ [] },
}

impl<'a> Search<Opening> for Openings<'a> {
    ghost in_force = { λ openings. openings.index.now };

    ghost turns = { λ openings. openings.starts };

    ghost found = { λ openings address path value. option_map opening_value value ≡ spec.opening_of openings.index.now path (number_of address) };

    fn policy(&self) -> &Policy {
        self.index.policy()
    }

    fn starts(&self) -> &AddrSet {
        &self.starts
    }

    fn find(&self, address: Addr, path: &Path) -> Option<Opening> {
        opening_at(self.index, address, path)
    }

    fn may_find(&self, _address: Addr) -> bool {
        true
    }
}

/// Finds by which line the server grants a mount, if it is denied here.
fn opening_at(index: &Index, address: Addr, path: &Path) -> Option<Opening>
    ensures { option_map opening_value result ≡ spec.opening_of index.now path.now (number_of address) }
{
    match index.decide(address, path) {
        Verdict::Denied(Denial::NotListed(_, denied)) => {
            opening_by(denied, &server_decide(index, address, path))
        }
        Verdict::Denied(Denial::NoLine(_)) | Verdict::Denied(Denial::NoFileSystem) => None,
        Verdict::Granted { .. } => None,
    }
}

/// Gives the line by which the server grants a mount, if it does.
fn opening_by(denied: u32, verdict: &Verdict<'_>) -> Option<Opening>
    ensures { option_map opening_value result ≡ spec.opening_by denied (verdict_result verdict.now) }
{
    match verdict {
        Verdict::Granted { line, .. } => Some(Opening {
            denied,
            line: *line,
        }),
        Verdict::Denied(_) => None,
    }
}

/// Lists the places of a site at which the server grants what is denied here, given the path `/`, with the addresses of the clients and
/// the lines.
pub fn openings_of_site<'a>(
    alloc: Global,
    index: &'a Index,
    root: &'a Path,
) -> Result<Vec<Section<'a, Opening>>, AllocError>
    requires { root.now ≡ [] }
    ensures { IfOk result (λ sections. AreOpenings index.now (map opening_section sections.items)) }
{
    let openings = Openings {
        index,
        starts: AddrSet::new(alloc),
    };
    found_in(alloc, index.policy(), &openings, root, true)
}
