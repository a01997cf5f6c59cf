//! Questions that change nothing, and their answers.

use crate::files::ListedFiles;
use crate::foreseeing::Foreseen;
use crate::sites::WholeSite;
use desk_core::{Proposal, Refusal};
use desk_exports::Profile;
use desk_policy::{Policy, Shown, Verdict};
use desk_store::Signature;
use desk_text::{Addr, Path, Sequence, Text};
use desk_who::Range;

/// What is asked of a file by its name alone.
#[derive(Clone, Copy)]
pub enum FileQuestion {
    /// The numbers of its revisions, with who wrote and who approved them, and their profiles.
    Revisions,
    /// Its proposal, which waits for a second custodian.
    Proposal,
}

/// A question.
#[derive(Clone, Copy)]
pub enum Question<'a> {
    /// Whether the client of this address may mount this directory, by the policy in force.
    Mount(Addr, &'a Path),
    /// Why the client of this address may mount this directory, or may not, by the policy in force.
    Why(Addr, &'a Path),
    /// What the client of this address may mount, by the policy in force.
    Listing(Addr),
    /// All exports of the policy in force.
    Exports,
    /// Who may mount this directory, by the policy in force.
    Who(&'a Path),
    /// The text of the file of this name as of a revision, or else the newest.
    Text(&'a str, Option<u32>),
    /// This, of the file of this name.
    OfFile(&'a str, FileQuestion),
    /// Which files have a revision or a proposal.
    Files,
    /// What would be in force if the file of this name had this text.
    Foresee(&'a str, &'a str),
    /// What would be in force if the file of this name had the text of its proposal.
    ForeseeProposal(&'a str),
    /// The whole site in force.
    Site,
    /// The whole site as it would be if the file of this name had this text.
    ForeseeSite(&'a str, &'a str),
    /// The whole site as it would be if the file of this name had the text of its proposal.
    ForeseeProposedSite(&'a str),
}

/// What the statements of a question found.
#[derive(Drop)]
pub enum Looked {
    /// The question takes no statement.
    Nothing,
    Text(FileText),
    /// At least one revision, by number.
    Revisions(Sequence<Signature>),
    /// There is no such file or revision.
    NoRevision,
}

/// The answer to a question. It lends the policy in force, whose mount points it names by number, and what the desk keeps of the
/// files.
#[derive(Drop)]
pub enum Answer<'a, V> {
    Verdict(&'a Policy, Verdict<'a>),
    /// The view of the policy in force, and why it decides so, in whole lines.
    Why(&'a V, String),
    /// What the client may mount, by mount point.
    Listing(&'a Policy, Vec<Shown>),
    /// The policy itself says what all exports are.
    Exports(&'a Policy),
    /// The verdict on every client, by ranges of addresses.
    Who(&'a Policy, Vec<Range<'a>>),
    Text(FileText),
    /// At least one revision, by number.
    Revisions(Sequence<Signature>),
    Proposal(&'a Proposal),
    /// There is no such file, revision or proposal.
    NoRevision,
    Files(ListedFiles<'a>),
    Foreseen(Foreseen<'a, V>),
    Site(WholeSite<'a, V>),
    /// The file cannot have the text that was to be foreseen.
    Refused(Refusal),
}

/// A text of a file: the number of its revision, who wrote it, who approved it if the file was guarded, the profile by which it is
/// read, and the text itself.
#[derive(Drop)]
pub struct FileText {
    pub rev: u32,
    pub author: Text,
    pub approver: Option<Text>,
    pub profile: Profile,
    pub body: Text,
}
