//! Edits whose text waits for a second custodian already: they name it by its SHA-256.

ghost use Rattle.std.specs.Prelude.{◌≡◌, IfOk, Some};
ghost use Rattle.std.specs.String.{string_bytes};
ghost use Rattle.desk_core.specs.Edit.{asked};
ghost use Rattle.desk_core.specs.History.{standing_of};
ghost use Rattle.desk_core.specs.State.{standing};
ghost use Rattle.desk_store.specs.Desk.{History, StandsAt};
ghost use Rattle.desk_service.specs.Approving as spec;

use crate::refused::Refused;
use desk_core::{Edit, Proposal};
use desk_policy::PolicyView;
use desk_store::Desk;
use desk_text::Text;
use sha2::{Digest, Sha256};
use sqlite::Alter;
use std::alloc::{AllocError, Global};

/// An edit of a file that has the text of its proposal: all of an edit but that text, and the text's SHA-256, in
/// hexadecimal digits, the letters small.
#[derive(Clone, Copy)]
pub struct Approval<'a> {
    pub file: &'a str,
    pub base: u32,
    pub caller: &'a str,
    pub key: &'a str,
    pub digest: &'a str,
}

impl<'a> Approval<'a> {
    /// Returns the edit that it is if this is the text.
    pub fn with_text(self, text: &'a str) -> Edit<'a>
        ensures { asked result ≡ spec.edit_with (spec.approval_of self.entry) text.now }
    {
        Edit {
            file: self.file,
            base: self.base,
            caller: self.caller,
            key: self.key,
            text,
        }
    }
}

/// Finds the text of an approval, which is that of the proposal of its file if that has its digest; or why it has
/// none. This takes no statement.
pub fn approved_text<S: Alter + Drop, V: PolicyView + Drop>(
    alloc: Global,
    desk: &Desk<S, V>,
    approval: Approval<'_>,
) -> Result<Result<Text, Refused>, AllocError>
    ensures found { IfOk result (λ found. found ≡ spec.text_in (standing desk.now.state) (spec.approval_of approval.entry)) }
    ensures stood_at { (history pending : History) → StandsAt S.Store desk.now history pending
        → IfOk result (λ found. found ≡ spec.text_in (standing_of history) (spec.approval_of approval.entry)) }
{
    match desk.proposal(approval.file) {
        Some(proposal) => text_with(alloc, proposal, approval.digest),
        None => Ok(Err(Refused::NoRevision)),
    }
}

/// Copies the text of a proposal if it has this digest.
fn text_with(
    alloc: Global,
    proposal: &Proposal,
    digest: &str,
) -> Result<Result<Text, Refused>, AllocError>
    ensures { IfOk result (λ found. found ≡ spec.text_with (Some proposal.now) digest.now) }
{
    let text = proposal.body.as_str();
    if !has_digest(alloc, text, digest)? {
        return Ok(Err(Refused::OtherProposal));
    }
    let copied = Text::copy(alloc, text)?;
    Ok(Ok(copied))
}

/// Tests whether a text has this digest.
fn has_digest(alloc: Global, text: &str, digest: &str) -> Result<bool, AllocError>
    ensures { IfOk result (λ has. has ≡ spec.has_digest text.now digest.now) }
{
    let own = digest_of(alloc, text)?;
    let has = own.as_str() == digest;
    drop(own);
    Ok(has)
}

/// Makes the digest of a text: its SHA-256 in hexadecimal digits, the letters small.
pub fn digest_of(alloc: Global, text: &str) -> Result<String, AllocError>
    ensures { IfOk result (λ digest. string_bytes digest ≡ spec.digest_of text.now) }
{
    let digest = Sha256::digest(text.as_bytes());
    hex::encode(alloc, digest.as_slice())
}
