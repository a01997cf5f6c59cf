//! The part of the page on one file system, made of what is found of it.

ghost use Rattle.std.specs.Prelude.{◌≡◌, ◌<◌, All, OnOk, Some, length, map, slice_get};
ghost use Rattle.std.specs.Option.{option_copied};
ghost use Rattle.std.specs.String.{string_bytes};
ghost use Rattle.desk_policy.specs.Policy.{rows_of};
ghost use Rattle.page_data.specs.Classes.{class_run};
ghost use Rattle.page_filesystem.specs.Parts.{IsTellable};
ghost use Rattle.page_filesystem.specs.Shares.{HasSize};
ghost use Rattle.page_filesystem.specs.OwnParts as spec;
ghost use Rattle.page_filesystem.specs.OwnParts.{AreNotesFor, CanBeTold, IsPartOf, Tells};
ghost use Rattle.page_filesystem.specs.CountedShares.{AreShares};

use crate::counted_shares::{Shares, shares_of};
use crate::counting::all_counts;
use crate::gutter::Note;
use crate::notes::notes_of;
use crate::own_lines::lines_in;
use crate::parts::{FileSystemPart, ProposalPart, push_file_system};
use desk_core::Head;
use desk_policy::Policy;
use desk_tables::{FsId, Mount};
use desk_who::Run;
use page_data::Class;
use page_findings::{Finding, SiteLine};
use page_places::GroupPart;
use std::alloc::{AllocError, Global};

/// What the part on a file system is made of.
#[derive(Clone, Copy)]
pub struct FileSystemData<'b, 'a> {
    /// The policy in force.
    pub policy: &'b Policy,
    pub fs: FsId,
    /// The most that clients may on it.
    pub classes: &'b [Run<Class>],
    /// The lines of the whole site.
    pub lines: &'b [SiteLine<'b>],
    /// The newest revision of its file.
    pub head: Option<&'b Head>,
    /// What stands out of its lines.
    pub findings: &'b [Finding<'b>],
    pub proposal: Option<ProposalPart<'b, 'a>>,
    /// The maps that show where its clients are, in HTML.
    pub maps: &'b str,
    /// The first groups of directories that are granted alike.
    pub groups: &'b [GroupPart<'a>],
    /// How many groups there are, how many directories are in those that are not told, and whether the other directories are.
    pub group_count: u64,
    pub unlisted: u64,
    pub has_unlisted_others: bool,
}

/// Adds the part of the page on a file system.
pub fn push_file_system_of(
    alloc: Global,
    given: &FileSystemData<'_, '_>,
    page: &mut String,
) -> Result<(), AllocError>
    requires { CanBeTold given.now }
    ensures { OnOk result (Tells given.now (string_bytes page.old) (string_bytes page.new)) }
{
    let own = lines_in(given.lines, given.fs);
    let notes = notes_of(alloc, own, text_of(given.head))?;
    let shares = shares_of(alloc, given.classes, given.policy.rows(given.fs))?;
    push_told(alloc, given, notes.as_slice(), &shares, page)
}

/// Adds it, given the notes on the text, and the shares.
fn push_told(
    alloc: Global,
    given: &FileSystemData<'_, '_>,
    notes: &[Note],
    shares: &Shares,
    page: &mut String,
) -> Result<(), AllocError>
    requires given { CanBeTold given.now }
    requires notes { AreNotesFor given.now notes.now }
    requires shares { AreShares (map class_run given.now.classes.now) (rows_of given.now.policy.now given.now.fs.0) shares.now }
    requires sizes { All HasSize shares.now.shares }
    ensures { OnOk result (Tells given.now (string_bytes page.old) (string_bytes page.new)) }
{
    let part = part_of(given, notes, shares);
    push_file_system(alloc, &part, page)
}

/// Makes it.
fn part_of<'b, 'a>(
    given: &FileSystemData<'b, 'a>,
    notes: &'b [Note],
    shares: &'b Shares,
) -> FileSystemPart<'b, 'a>
    requires given { CanBeTold given.now }
    requires notes { AreNotesFor given.now notes.now }
    requires shares { AreShares (map class_run given.now.classes.now) (rows_of given.now.policy.now given.now.fs.0) shares.now }
    requires sizes { All HasSize shares.now.shares }
    ensures part { IsPartOf given.now result }
    ensures tellable { IsTellable result }
{
    let mount = mount_of(given.policy, given.fs);
    FileSystemPart {
        fs: given.fs,
        name: mount.path.text(),
        head: given.head,
        custodians: mount.custodians.as_slice(),
        guarded: mount.guarded,
        counts: all_counts(given.classes),
        findings: given.findings,
        proposal: given.proposal,
        text: text_of(given.head),
        notes,
        maps: given.maps,
        shares: shares.shares.as_slice(),
        networks_left_out: shares.left_out,
        groups: given.groups,
        group_count: given.group_count,
        unlisted: given.unlisted,
        has_unlisted_others: given.has_unlisted_others,
    }
}

/// Lends the mount point of a file system.
fn mount_of(policy: &Policy, fs: FsId) -> &Mount
    requires { fs.0 < length policy.now.table }
    ensures { slice_get policy.now.table fs.0 ≡ Some result.now }
{
    &policy.filesystems().as_slice()[fs.0 as usize]
}

/// Lends the text of a revision, the empty one if there is none.
fn text_of(head: Option<&Head>) -> &str
    ensures { result.now ≡ spec.text_of (option_copied head.entry) }
{
    match head {
        Some(head) => head.body.as_str(),
        None => "",
    }
}
