//! What is checked of an edit before the site with its text is, none of which takes memory; and what there is to store of an
//! edit that passes.

ghost use Rattle.std.specs.Prelude.{◌≡◌, ◌↔◌, ◌<◌, ℕ, IfOk, IsTrue, List, Ok, false};
ghost use Rattle.std.specs.Option.{option_copied, option_map_or};
ghost use Rattle.std.specs.Str.{bytes_eq};
ghost use Rattle.desk_core.specs.Edit.{approved_revision, asked, proposal_of, revision_by, revision_of};
ghost use Rattle.desk_core.specs.Head.{last_revision};
ghost use Rattle.desk_text.specs.Path.{path_text, read_path};
ghost use Rattle.desk_core.specs.Judging as spec;

use crate::edit::{Edit, Refusal};
use crate::entry::Entry;
use crate::head::{Head, LAST_REVISION, LONGEST_REVISION, newest_number};
use crate::proposal::Proposal;
use desk_exports::Profile;
use desk_policy::{SiteFile, exports_place, mount_of};
use desk_tables::{Custodians, FileSystems};
use desk_text::laws::written_paths_read_back;
use desk_text::{Path, ReadError, Text};
use sha2::{Digest, Sha256};
use std::alloc::{AllocError, Global};

/// What an edit can be before the site with its text is judged.
#[derive(Drop)]
pub enum Case {
    /// It is refused.
    Refused(Refusal),
    /// The newest revision is this edit: its number is base + 1, its author the caller, or who approved it, its text the
    /// edit's.
    Already,
    /// The file is guarded, and its proposal is this edit: its base, its author and its text.
    Pending,
}

/// Finds the first case that holds, by the custodians and file systems in force and the file's newest revision and
/// proposal.
pub(crate) fn first_case(
    custodians: &Custodians,
    table: &FileSystems,
    newest: Option<&Head>,
    proposal: Option<&Proposal>,
    edit: &Edit<'_>,
) -> Option<Case>
    ensures { result ≡ spec.first_held (spec.checks custodians.now table.now (option_copied newest.entry) (option_copied proposal.entry) (asked edit.now)) }
{
    if let Some(refusal) = objection(custodians, table, edit) {
        return Some(Case::Refused(refusal));
    }
    if is_repeat(edit, newest) {
        return Some(Case::Already);
    }
    if is_pending(table, edit, proposal) {
        return Some(Case::Pending);
    }
    match conflict(edit, newest) {
        Some(refusal) => Some(Case::Refused(refusal)),
        None => None,
    }
}

/// Finds the first reason why an edit is not allowed.
fn objection(custodians: &Custodians, table: &FileSystems, edit: &Edit<'_>) -> Option<Refusal>
    ensures { result ≡ spec.first_held (spec.objections custodians.now table.now (asked edit.now)) }
{
    let listed = custodians.digest_of(edit.caller);
    if listed.is_none() {
        Some(Refusal::UnknownCaller)
    } else if !is_key(edit.key, listed) {
        Some(Refusal::BadKey)
    } else if !is_known(table, edit.file) {
        Some(Refusal::UnknownFile)
    } else if !keeps_file(table, edit.caller, edit.file) {
        Some(Refusal::NotCustodian)
    } else if edit.text.len() > LONGEST_REVISION {
        Some(Refusal::TooLarge)
    } else {
        None
    }
}

/// Finds the first reason why an edit cannot follow the newest revision.
fn conflict(edit: &Edit<'_>, newest: Option<&Head>) -> Option<Refusal>
    ensures { result ≡ spec.first_held (spec.conflicts (option_copied newest.entry) (asked edit.now)) }
{
    let number = newest_number(newest);
    if number != edit.base {
        Some(Refusal::Stale(number))
    } else if edit.base == LAST_REVISION {
        Some(Refusal::Full)
    } else {
        None
    }
}

/// Tests whether the digest that is listed for a caller is that of a key.
fn is_key(key: &str, listed: Option<&[u8; 32]>) -> bool
    ensures { result ≡ spec.is_key key.now (option_copied listed.entry) }
{
    match listed {
        Some(listed) => *listed == Sha256::digest(key.as_bytes()),
        None => false,
    }
}

/// Tests whether a file is one of the seven, or the exports file of a listed mount point.
pub fn is_known(table: &FileSystems, file: &str) -> bool
    ensures { result ≡ spec.is_known table.now file.now }
{
    SiteFile::is_name(file) || exports_place(table, file).is_some()
}

/// Tests whether a custodian keeps a file: `site` the seven, and those listed for a mount point its exports file.
fn keeps_file(table: &FileSystems, caller: &str, file: &str) -> bool
    ensures { result ≡ spec.keeps_file table.now caller.now file.now }
{
    if SiteFile::is_name(file) {
        return caller == "site";
    }
    match exports_place(table, file) {
        Some(fs) => table.keeps(caller, fs),
        None => false,
    }
}

/// Tests whether a file may have this name: that of one of the seven, or `exports:` and a path in printed form.
pub fn is_file_name(alloc: Global, file: &str) -> Result<bool, AllocError>
    ensures { IfOk result (λ named. IsTrue named ↔ spec.IsFileName file.now) }
{
    if SiteFile::is_name(file) {
        return Ok(true);
    }
    is_exports_name(alloc, file)
}

/// Tests whether this is the name of an exports file: `exports:` and a path in printed form. A proposal has no other.
pub fn is_exports_name(alloc: Global, file: &str) -> Result<bool, AllocError>
    ensures { IfOk result (λ named. IsTrue named ↔ spec.IsExportsName file.now) }
{
    match mount_of(file) {
        Some(mount) => is_printed_path(alloc, mount),
        None => Ok(false),
    }
}

/// Tests whether a text is a path in printed form.
fn is_printed_path(alloc: Global, text: &str) -> Result<bool, AllocError>
    ensures { IfOk result (λ printed. IsTrue printed ↔ ((path : List (List ℕ)) × (read_path (path_text path) ≡ Ok path) × (text.now ≡ path_text path))) }
{
    written_paths_read_back();
    match Path::read(alloc, text) {
        Ok(path) => {
            let printed = path.text() == text;
            drop(path);
            Ok(printed)
        }
        Err(ReadError::Fault(_)) => Ok(false),
        Err(ReadError::Memory) => Err(AllocError),
    }
}

/// Tests whether a file is guarded: it is the exports file of a mount point with the mark.
pub fn is_guarded(table: &FileSystems, file: &str) -> bool
    ensures { result ≡ spec.is_guarded_file table.now file.now }
{
    match exports_place(table, file) {
        Some(fs) => table.guarded(fs),
        None => false,
    }
}

/// Tests whether the newest revision is this edit, stored before.
fn is_repeat(edit: &Edit<'_>, newest: Option<&Head>) -> bool
    ensures { result ≡ spec.is_repeat (asked edit.now) (option_copied newest.entry) }
{
    match newest {
        Some(head) => {
            u64::from(head.rev) == u64::from(edit.base) + 1
                && is_of(edit.caller, head)
                && head.body.as_str() == edit.text
        }
        None => false,
    }
}

/// Tests whether a custodian is the author of a revision, or approved it.
fn is_of(name: &str, head: &Head) -> bool
    ensures { result ≡ spec.is_of name.now head.now }
{
    head.author.as_str() == name || has_approver(name, &head.approver)
}

/// Tests whether this is who approved a revision.
fn has_approver(name: &str, approver: &Option<Text>) -> bool
    ensures { result ≡ option_map_or (bytes_eq name.now) approver.now false }
{
    match approver {
        Some(approver) => name == approver.as_str(),
        None => false,
    }
}

/// Tests whether a proposal has the base and the text of an edit.
fn proposes(edit: &Edit<'_>, proposal: &Proposal) -> bool
    ensures { result ≡ spec.proposes (asked edit.now) proposal.now }
{
    proposal.base == edit.base && proposal.body.as_str() == edit.text
}

/// Tests whether the file is guarded, and its proposal is this edit.
fn is_pending(table: &FileSystems, edit: &Edit<'_>, proposal: Option<&Proposal>) -> bool
    ensures { result ≡ spec.is_pending table.now (asked edit.now) (option_copied proposal.entry) }
{
    match proposal {
        Some(proposal) => {
            is_guarded(table, edit.file)
                && (proposes(edit, proposal) && proposal.author.as_str() == edit.caller)
        }
        None => false,
    }
}

/// Tests whether an edit approves a proposal: it has its base and text, and its author is another, who still keeps the
/// file.
fn approves(table: &FileSystems, edit: &Edit<'_>, proposal: &Proposal) -> bool
    ensures { result ≡ spec.approves table.now (asked edit.now) proposal.now }
{
    proposes(edit, proposal)
        && (proposal.author.as_str() != edit.caller
            && keeps_file(table, proposal.author.as_str(), edit.file))
}

/// Finds the proposal that an edit approves.
fn approved<'a>(
    table: &FileSystems,
    edit: &Edit<'_>,
    proposal: Option<&'a Proposal>,
) -> Option<&'a Proposal>
    ensures { option_copied result ≡ spec.approved table.now (asked edit.now) (option_copied proposal.entry) }
{
    match proposal {
        Some(proposal) => {
            if approves(table, edit, proposal) {
                Some(proposal)
            } else {
                None
            }
        }
        None => None,
    }
}

/// Makes what is stored of an edit: its revision, that of the proposal which it approves, or a proposal.
pub(crate) fn entry_by(
    alloc: Global,
    table: &FileSystems,
    edit: &Edit<'_>,
    proposal: Option<&Proposal>,
) -> Result<Entry, AllocError>
    requires { edit.now.base < last_revision }
    ensures { IfOk result (λ stored. stored ≡ spec.entry_by table.now (asked edit.now) (option_copied proposal.entry)) }
{
    if is_guarded(table, edit.file) {
        guarded_entry(alloc, edit, approved(table, edit, proposal))
    } else {
        let head = revision_of(alloc, edit)?;
        Ok(Entry::Revised(head))
    }
}

/// Makes what is stored of an edit of a guarded file that approves this proposal, or none.
fn guarded_entry(
    alloc: Global,
    edit: &Edit<'_>,
    approved: Option<&Proposal>,
) -> Result<Entry, AllocError>
    requires { edit.now.base < last_revision }
    ensures { IfOk result (λ stored. stored ≡ spec.guarded_entry (asked edit.now) (option_copied approved.entry)) }
{
    match approved {
        Some(proposal) => {
            let head = approved_revision(alloc, proposal, edit)?;
            Ok(Entry::Revised(head))
        }
        None => {
            let proposal = proposal_of(alloc, edit)?;
            Ok(Entry::Proposed(proposal))
        }
    }
}

/// Makes the revision that an edit stores by itself.
fn revision_of(alloc: Global, edit: &Edit<'_>) -> Result<Head, AllocError>
    requires { edit.now.base < last_revision }
    ensures { IfOk result (λ head. head ≡ revision_of (asked edit.now)) }
{
    revision_by(alloc, edit, edit.caller, None)
}

/// Makes the revision that an edit stores as the approval of a proposal.
fn approved_revision(
    alloc: Global,
    proposal: &Proposal,
    edit: &Edit<'_>,
) -> Result<Head, AllocError>
    requires { edit.now.base < last_revision }
    ensures { IfOk result (λ head. head ≡ approved_revision proposal.now (asked edit.now)) }
{
    let approver = Text::copy(alloc, edit.caller)?;
    revision_by(alloc, edit, proposal.author.as_str(), Some(approver))
}

/// Makes the revision that an edit stores, by this author.
fn revision_by(
    alloc: Global,
    edit: &Edit<'_>,
    author: &str,
    approver: Option<Text>,
) -> Result<Head, AllocError>
    requires { edit.now.base < last_revision }
    ensures { IfOk result (λ head. head ≡ revision_by (asked edit.now) author.now approver) }
{
    Ok(Head {
        file: Text::copy(alloc, edit.file)?,
        rev: edit.base + 1,
        author: Text::copy(alloc, author)?,
        approver,
        profile: Profile::Two,
        body: Text::copy(alloc, edit.text)?,
    })
}

/// Makes the proposal that an edit makes.
fn proposal_of(alloc: Global, edit: &Edit<'_>) -> Result<Proposal, AllocError>
    ensures { IfOk result (λ proposal. proposal ≡ proposal_of (asked edit.now)) }
{
    Ok(Proposal {
        file: Text::copy(alloc, edit.file)?,
        base: edit.base,
        author: Text::copy(alloc, edit.caller)?,
        body: Text::copy(alloc, edit.text)?,
    })
}
