//! Which files have a revision or a proposal.

ghost use Rattle.std.specs.Prelude.{◌≡◌, ◌++◌, ◌∷◌, [], IfOk, OnOk, map};
ghost use Rattle.std.specs.Option.{option_map};
ghost use Rattle.desk_policy.specs.SiteFile.{exports_file_name, file_name};
ghost use Rattle.desk_core.specs.Head.{newest_in};
ghost use Rattle.desk_core.specs.Standing.{proposals_in, standing_in};
ghost use Rattle.desk_core.specs.Listing as spec;
ghost use Rattle.desk_core.specs.PrivateListing.{AreNamed, GainsNamed, NamesMore, with_file};

use crate::head::{Head, newest_among};
use crate::proposal::{Proposal, proposal_among};
use desk_policy::{SiteFile, exports_file_name, mount_of};
use std::alloc::{AllocError, Global};

/// A file that has a revision or a proposal.
#[derive(Clone, Copy)]
pub struct HeldFile<'a> {
    /// Its newest revision.
    pub newest: Option<&'a Head>,
    /// Its proposal.
    pub proposal: Option<&'a Proposal>,
}

impl<'a> HeldFile<'a> {
    /// Lends the name of the file.
    pub fn name(&self) -> &'a str
        ensures { result.now ≡ spec.name_of (spec.file_of self.now) }
    {
        match (self.newest, self.proposal) {
            (Some(head), _) => head.file.as_str(),
            (None, Some(proposal)) => proposal.file.as_str(),
            (None, None) => "",
        }
    }
}

/// Lists the files that have a revision or a proposal, in the order of a site: those of the seven, and then the exports files by printed
/// mount point.
pub fn held_files<'a>(
    alloc: Global,
    heads: &'a [Head],
    proposals: &'a [Proposal],
) -> Result<Vec<HeldFile<'a>>, AllocError>
    ensures { IfOk result (λ files. spec.AreHeldFiles (standing_in heads.now proposals.now) (map spec.file_of files.items)) }
{
    let mounts = mounts_with_exports(alloc, heads, proposals)?;
    let mut files = Vec::new(alloc);
    push_seven(heads, &mut files)?;
    push_exports(alloc, heads, proposals, mounts.as_slice(), &mut files)?;
    Ok(files)
}

/// Adds those of the seven files that have a revision.
fn push_seven<'a>(heads: &'a [Head], files: &mut Vec<HeldFile<'a>>) -> Result<(), AllocError>
    ensures { OnOk result (map spec.file_of files.new.items ≡ map spec.file_of files.old.items ++ spec.seven_files (newest_in heads.now)) }
{
    push_one(heads, SiteFile::Custodians, files)?;
    push_one(heads, SiteFile::Filesystems, files)?;
    push_one(heads, SiteFile::Hosts, files)?;
    push_one(heads, SiteFile::Networks, files)?;
    push_one(heads, SiteFile::Passwd, files)?;
    push_one(heads, SiteFile::Group, files)?;
    push_one(heads, SiteFile::Netgroup, files)?;
    Ok(())
}

/// Adds one of the seven files, if it has a revision. None of them is guarded, so none has a proposal.
fn push_one<'a>(
    heads: &'a [Head],
    file: SiteFile,
    files: &mut Vec<HeldFile<'a>>,
) -> Result<(), AllocError>
    ensures { OnOk result (map spec.file_of files.new.items
        ≡ with_file (map spec.file_of files.old.items) (option_map spec.revised_file (newest_in heads.now (file_name file)))) }
{
    match newest_among(heads, file.name()) {
        Some(head) => {
            files.push(HeldFile {
                newest: Some(head),
                proposal: None,
            })?;
            Ok(())
        }
        None => Ok(()),
    }
}

/// Adds the exports files of these printed mount points.
fn push_exports<'a>(
    alloc: Global,
    heads: &'a [Head],
    proposals: &'a [Proposal],
    mounts: &[&str],
    files: &mut Vec<HeldFile<'a>>,
) -> Result<(), AllocError>
    ensures { OnOk result (map spec.file_of files.new.items ≡ map spec.file_of files.old.items
        ++ map (spec.exports_file (standing_in heads.now proposals.now)) (map (λ mount. mount.now) mounts.now)) }
{
    for mount in mounts {
        push_mount(alloc, heads, proposals, mount, files)?;
    }
    Ok(())
}

/// Adds the exports file of a printed mount point.
fn push_mount<'a>(
    alloc: Global,
    heads: &'a [Head],
    proposals: &'a [Proposal],
    mount: &str,
    files: &mut Vec<HeldFile<'a>>,
) -> Result<(), AllocError>
    ensures { OnOk result (map spec.file_of files.new.items ≡ map spec.file_of files.old.items
        ++ spec.exports_file (standing_in heads.now proposals.now) mount.now ∷ []) }
{
    let name = exports_file_name(alloc, mount)?;
    let file = held_file(heads, proposals, name.as_str());
    files.push(file)?;
    Ok(())
}

/// Finds the newest revision and the proposal of a file.
fn held_file<'a>(heads: &'a [Head], proposals: &'a [Proposal], name: &str) -> HeldFile<'a>
    ensures { spec.file_of result
        ≡ record { newest = newest_in heads.entry.now name.entry.now; proposal = proposals_in proposals.entry.now name.entry.now } }
{
    HeldFile {
        newest: newest_among(heads, name),
        proposal: proposal_among(proposals, name),
    }
}

/// Finds the printed mount points whose exports files are among those of these revisions and proposals, in byte order, each once.
fn mounts_with_exports<'a>(
    alloc: Global,
    heads: &'a [Head],
    proposals: &'a [Proposal],
) -> Result<Vec<&'a str>, AllocError>
    ensures { IfOk result (λ mounts. spec.AreMountsWithExports (standing_in heads.now proposals.now) (map (λ mount. mount.now) mounts.items)) }
{
    let mut mounts = named_mounts(alloc, heads, proposals)?;
    mounts.sort_unstable();
    mounts.dedup();
    Ok(mounts)
}

/// Finds the printed mount points that the files of these revisions and proposals name, in their order.
fn named_mounts<'a>(
    alloc: Global,
    heads: &'a [Head],
    proposals: &'a [Proposal],
) -> Result<Vec<&'a str>, AllocError>
    ensures { IfOk result (λ mounts. AreNamed (map (λ head. head.file) heads.now ++ map (λ proposal. proposal.file) proposals.now)
        (map (λ mount. mount.now) mounts.items)) }
{
    let mut mounts = Vec::new(alloc);
    push_revised(heads, &mut mounts)?;
    push_proposed(proposals, &mut mounts)?;
    Ok(mounts)
}

/// Adds the printed mount points that the files of these revisions name.
fn push_revised<'a>(heads: &'a [Head], mounts: &mut Vec<&'a str>) -> Result<(), AllocError>
    ensures { OnOk result (NamesMore (map (λ head. head.file) heads.now)
        (map (λ mount. mount.now) mounts.old.items) (map (λ mount. mount.now) mounts.new.items)) }
{
    for head in heads {
        push_named(head.file.as_str(), mounts)?;
    }
    Ok(())
}

/// Adds the printed mount points that the files of these proposals name.
fn push_proposed<'a>(proposals: &'a [Proposal], mounts: &mut Vec<&'a str>) -> Result<(), AllocError>
    ensures { OnOk result (NamesMore (map (λ proposal. proposal.file) proposals.now)
        (map (λ mount. mount.now) mounts.old.items) (map (λ mount. mount.now) mounts.new.items)) }
{
    for proposal in proposals {
        push_named(proposal.file.as_str(), mounts)?;
    }
    Ok(())
}

/// Adds the printed mount point that a file names, if it is an exports file.
fn push_named<'a>(file: &'a str, mounts: &mut Vec<&'a str>) -> Result<(), AllocError>
    ensures { OnOk result (GainsNamed file.now (map (λ mount. mount.now) mounts.old.items) (map (λ mount. mount.now) mounts.new.items)) }
{
    match mount_of(file) {
        Some(mount) => {
            mounts.push(mount)?;
            Ok(())
        }
        None => Ok(()),
    }
}
