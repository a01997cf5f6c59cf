//! Views of a policy: what is in force, in a form that answers questions.

ghost use Rattle.std.specs.Prelude.{◌≡◌, ◌<◌, List, IfOk, length};
ghost use Rattle.desk_text.specs.Address.{number_of};
ghost use Rattle.desk_policy.specs.Policy.{AreAscending, Content, with_rows};
ghost use Rattle.desk_policy.specs.declared.row.Row.{Row};
ghost use Rattle.desk_policy.specs.Site.{HaveReadableLengths, texts_of};
ghost use Rattle.desk_policy.specs.SiteFault.{contradiction_fault, exports_name};
ghost use Rattle.desk_policy.specs.Verdict.{verdict_of, verdict_result};
ghost use Rattle.desk_policy.specs.View.{Builds, Compiles, IsLeastOfRows, IsLeastOrNone, IsPart, MakesPart};

use crate::contradiction::{Contradiction, contradiction_in};
use crate::parsing::parse;
use crate::policy::Policy;
use crate::row::Row;
use crate::site::Site;
use crate::site_fault::{SiteFault, SiteRule};
use crate::site_file::exports_file_name;
use crate::verdict::{Verdict, decide};
use desk_tables::FsId;
use desk_text::{Addr, Path, ReadError, Sequence, Text};
use std::alloc::{AllocError, Global};
use std::marker::Model;

/// A policy without contradictions, in a form that decides who may mount what.
pub trait PolicyView: Sized {
    /// The policy in force, however it is kept.
    ghost in_force: { Self → Content };

    /// Lines that were made ready to stand for those of a file system.
    type Part: Drop;

    /// The lines of a part.
    ghost part_rows: { Self.Part → List Row };

    /// Keeps the policy, or refuses its least contradiction.
    fn build(alloc: Global, policy: Policy) -> Result<Self, ReadError<SiteFault>>
        ensures { Builds in_force policy result };

    /// Lends the policy in force.
    fn policy(&self) -> &Policy
        ensures { result.now ≡ in_force self.now };

    /// Decides whether a client may mount a path, by which line, and on what terms.
    fn decide(&self, address: Addr, path: &Path) -> Verdict<'_>
        ensures { verdict_result result ≡ verdict_of (in_force self.now) (number_of address) path.now };

    /// Makes lines ready to stand for those of a file system, or refuses their least contradiction.
    fn part(
        &self,
        alloc: Global,
        fs: FsId,
        rows: Sequence<Row>,
    ) -> Result<Self::Part, ReadError<SiteFault>>
        requires fs { fs.0 < length (in_force self.now).table }
        requires ascending { AreAscending rows }
        ensures { MakesPart part_rows (in_force self.now) fs.0 rows result };

    /// Puts a part in the place of the lines of a file system. It takes no memory.
    fn set(&mut self, fs: FsId, part: Self::Part)
        requires { IsPart (in_force self.old) fs.0 (part_rows part) }
        ensures { in_force self.new ≡ with_rows (in_force self.old) fs.0 (part_rows part) };
}

/// Puts the policy of a consistent site in force, or refuses the site's first fault.
pub fn compile<V: PolicyView>(alloc: Global, site: &Site) -> Result<V, ReadError<SiteFault>>
    requires { HaveReadableLengths (texts_of site.now) }
    ensures { Compiles V.in_force (texts_of site.now) result }
{
    let policy = parse(alloc, site)?;
    V::build(alloc, policy)
}

/// The view that scans the lines of the policy.
#[derive(Drop)]
pub struct Plain {
    policy: Policy,
}

impl Model for Plain {
    ghost use Rattle.desk_policy.specs.Policy.{Content};

    ghost Value = { Content };

    ghost view = { λ p. p.policy };
}

impl PolicyView for Plain {
    ghost use Rattle.desk_policy.specs.Policy.{Content};

    type Part = Sequence<Row>;

    ghost in_force = { λ view. view };

    ghost part_rows = { λ rows. rows };

    fn build(alloc: Global, policy: Policy) -> Result<Plain, ReadError<SiteFault>> {
        match least_contradiction(alloc, &policy)? {
            Some(fault) => Err(ReadError::Fault(fault)),
            None => Ok(Plain { policy }),
        }
    }

    fn policy(&self) -> &Policy {
        &self.policy
    }

    fn decide(&self, address: Addr, path: &Path) -> Verdict<'_> {
        decide(&self.policy, address, path)
    }

    fn part(
        &self,
        alloc: Global,
        fs: FsId,
        rows: Sequence<Row>,
    ) -> Result<Sequence<Row>, ReadError<SiteFault>> {
        match contradiction_of_rows(alloc, &self.policy, fs, rows.as_slice())? {
            Some(fault) => Err(ReadError::Fault(fault)),
            None => Ok(rows),
        }
    }

    fn set(&mut self, fs: FsId, part: Sequence<Row>) {
        self.policy.replace(fs, part);
    }
}

/// Finds the least contradiction of lines, as a fault of the site, if they are those of this file system.
pub fn contradiction_of_rows(
    alloc: Global,
    policy: &Policy,
    fs: FsId,
    rows: &[Row],
) -> Result<Option<SiteFault>, AllocError>
    requires fs { fs.0 < length policy.now.table }
    requires ascending { AreAscending rows.now }
    ensures { IfOk result (IsLeastOfRows policy.now fs.0 rows.now) }
{
    let Some(found) = contradiction_in(alloc, rows)? else {
        return Ok(None);
    };
    let mount = &policy.filesystems().as_slice()[fs.0 as usize];
    Ok(Some(fault_of(alloc, &mount.path, found)?))
}

/// Finds the least contradiction of a policy, as a fault of the site: by mount point, later line, earlier line and address.
pub fn least_contradiction(alloc: Global, policy: &Policy) -> Result<Option<SiteFault>, AllocError>
    ensures { IfOk result (IsLeastOrNone policy.now) }
{
    let rows = policy.rows_by_filesystem();
    for (place, mount) in policy.filesystems().as_slice().iter().enumerate() {
        if let Some(found) = contradiction_in(alloc, rows[place].as_slice())? {
            return Ok(Some(fault_of(alloc, &mount.path, found)?));
        }
    }
    Ok(None)
}

/// Makes the fault of a contradiction in the exports file of a mount point.
fn fault_of(alloc: Global, mount: &Path, found: Contradiction) -> Result<SiteFault, AllocError>
    ensures { IfOk result (λ fault. fault ≡ contradiction_fault (exports_name mount.now) found) }
{
    let name = exports_file_name(alloc, mount.text())?;
    Ok(SiteFault {
        file: Text::from_string(name),
        line: found.line,
        rule: SiteRule::Contradiction,
        other: Some(found.other),
        address: Some(found.address),
    })
}
