//! Which files have a revision or a proposal.

ghost use Rattle.std.specs.Prelude.{◌≡◌, IfOk, map};
ghost use Rattle.std.specs.Option.{option_copied};
ghost use Rattle.desk_core.specs.Head.{newest_in};
ghost use Rattle.desk_core.specs.Listing as listing;
ghost use Rattle.desk_core.specs.Standing.{standing_in};
ghost use Rattle.desk_store.specs.Desk.{History, StandsAt};
ghost use Rattle.desk_service.specs.Files as spec;
ghost use Rattle.desk_service.specs.Questions as questions;
ghost use Rattle.desk_service.specs.Questions.{AnswersByHistory, answer_of};

use crate::foreseeing::listed_now;
use crate::questions::Answer;
use desk_core::{Head, HeldFile, Proposal, held_files, is_guarded, is_known, newest_among};
use desk_policy::PolicyView;
use desk_store::Desk;
use desk_tables::FileSystems;
use sqlite::Alter;
use std::alloc::{AllocError, Global};

/// What is marked of a file.
#[derive(Clone, Copy)]
pub enum Mark {
    /// Nothing: it is one of the seven, or the exports file of a listed file system, and not guarded.
    Plain,
    /// It is guarded now.
    Guarded,
    /// It is the exports file of a file system that is not listed now.
    Unlisted,
}

/// A file that has a revision or a proposal.
#[derive(Clone, Copy)]
pub struct ListedFile<'a> {
    /// Its newest revision.
    pub newest: Option<&'a Head>,
    /// Its proposal.
    pub proposal: Option<&'a Proposal>,
    pub mark: Mark,
}

/// The files that have a revision or a proposal.
#[derive(Drop)]
pub struct ListedFiles<'a> {
    /// The file systems that are listed now.
    pub filesystems: &'a FileSystems,
    /// The newest revision of each file, in no order.
    pub heads: &'a [Head],
    /// The files, in the order of a site: those of the seven, and then the exports files by printed mount point.
    pub files: Vec<ListedFile<'a>>,
}

impl<'a> ListedFiles<'a> {
    /// Finds the newest revision of a file.
    pub fn newest(&self, file: &str) -> Option<&'a Head>
        ensures { option_copied result ≡ newest_in self.now.heads.now file.now }
    {
        newest_among(self.heads, file)
    }
}

/// Lists the files that have a revision or a proposal in a desk. This takes no statement.
pub(crate) fn files_answer<'a, S: Alter + Drop, V: PolicyView + Drop>(
    alloc: Global,
    desk: &'a Desk<S, V>,
) -> Result<Answer<'a, V>, AllocError>
    ensures { (history pending : History) → StandsAt S.Store desk.now history pending
        → IfOk result (λ answer. AnswersByHistory history questions.Files (answer_of V.in_force answer)) }
{
    let listed = files_among(alloc, listed_now(desk), desk.heads(), desk.proposals())?;
    Ok(Answer::Files(listed))
}

/// Lists the files of these revisions and proposals.
fn files_among<'a>(
    alloc: Global,
    filesystems: &'a FileSystems,
    heads: &'a [Head],
    proposals: &'a [Proposal],
) -> Result<ListedFiles<'a>, AllocError>
    ensures table { IfOk result (λ listed. listed.filesystems.now ≡ filesystems.now) }
    ensures heads { IfOk result (λ listed. listed.heads.now ≡ heads.now) }
    ensures files { IfOk result (λ listed. spec.AreFilesOf filesystems.now (standing_in heads.now proposals.now) (map spec.file_of listed.files.items)) }
{
    let held = held_files(alloc, heads, proposals)?;
    let files = marked_files(alloc, filesystems, held.as_slice())?;
    Ok(ListedFiles {
        filesystems,
        heads,
        files,
    })
}

/// Marks files.
fn marked_files<'a>(
    alloc: Global,
    filesystems: &FileSystems,
    held: &[HeldFile<'a>],
) -> Result<Vec<ListedFile<'a>>, AllocError>
    ensures { IfOk result (λ files. map spec.file_of files.items ≡ map (spec.marked filesystems.now) (map listing.file_of held.now)) }
{
    let mut files = Vec::new(alloc);
    for file in held {
        files.push(marked(filesystems, *file))?;
    }
    Ok(files)
}

/// Marks a file.
fn marked<'a>(filesystems: &FileSystems, file: HeldFile<'a>) -> ListedFile<'a>
    ensures { spec.file_of result ≡ spec.marked filesystems.now (listing.file_of file.entry) }
{
    ListedFile {
        newest: file.newest,
        proposal: file.proposal,
        mark: mark_of(filesystems, file.name()),
    }
}

/// Returns the mark of a file.
fn mark_of(filesystems: &FileSystems, file: &str) -> Mark
    ensures { result ≡ spec.mark_of filesystems.now file.now }
{
    if is_guarded(filesystems, file) {
        Mark::Guarded
    } else if is_known(filesystems, file) {
        Mark::Plain
    } else {
        Mark::Unlisted
    }
}
