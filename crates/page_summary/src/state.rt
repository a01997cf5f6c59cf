//! The state of a database: its newest revisions and its proposals.

ghost use Rattle.std.specs.Prelude.{◌≡◌, ◌++◌, IfOk, OnOk, map};
ghost use Rattle.std.specs.Option.{option_copied};
ghost use Rattle.std.specs.String.{string_bytes};
ghost use Rattle.desk_core.specs.Listing.{file_of};
ghost use Rattle.desk_core.specs.Standing.{standing_in};
ghost use Rattle.page_summary.specs.State as spec;

use desk_core::{Head, HeldFile, Proposal, held_files};
use desk_policy::SiteFile;
use desk_text::Text;
use page_lists::text_digest;
use std::alloc::{AllocError, Global};

/// Makes the digest of the state with these newest revisions and proposals.
pub fn state_digest(
    alloc: Global,
    heads: &[Head],
    proposals: &[Proposal],
) -> Result<String, AllocError>
    ensures { IfOk result (λ digest. spec.IsStateDigest (standing_in heads.now proposals.now) (string_bytes digest)) }
{
    let files = held_files(alloc, heads, proposals)?;
    let mut text = String::new(alloc);
    push_state(alloc, files.as_slice(), &mut text)?;
    text_digest(alloc, text.as_str())
}

/// Adds the lines of files.
fn push_state(alloc: Global, files: &[HeldFile<'_>], text: &mut String) -> Result<(), AllocError>
    ensures { OnOk result (string_bytes text.new ≡ string_bytes text.old ++ spec.state_text (map file_of files.now)) }
{
    for file in files {
        push_file(alloc, file, text)?;
    }
    Ok(())
}

/// Adds the lines of a file.
fn push_file(alloc: Global, file: &HeldFile<'_>, text: &mut String) -> Result<(), AllocError>
    ensures { OnOk result (string_bytes text.new ≡ string_bytes text.old ++ spec.file_lines (file_of file.now)) }
{
    push_newest(alloc, file.newest, text)?;
    push_pending(alloc, file.proposal, text)?;
    Ok(())
}

/// Adds the line of the newest revision, if there is one.
fn push_newest(alloc: Global, newest: Option<&Head>, text: &mut String) -> Result<(), AllocError>
    ensures { OnOk result (string_bytes text.new ≡ string_bytes text.old ++ spec.newest_line (option_copied newest.entry)) }
{
    match newest {
        None => Ok(()),
        Some(head) => push_revision(alloc, head, text),
    }
}

/// Adds the line of a revision.
fn push_revision(alloc: Global, head: &Head, text: &mut String) -> Result<(), AllocError>
    ensures { OnOk result (string_bytes text.new ≡ string_bytes text.old ++ spec.revision_line head.now) }
{
    push_written(head.file.as_str(), head.rev, head.author.as_str(), text)?;
    push_approver(&head.approver, text)?;
    push_profile(head, text)?;
    push_line_end(alloc, head.body.as_str(), text)?;
    Ok(())
}

/// Adds a file, the number of its revision, and who wrote it.
fn push_written(file: &str, rev: u32, author: &str, text: &mut String) -> Result<(), AllocError>
    ensures { OnOk result (string_bytes text.new ≡ string_bytes text.old ++ spec.written file.now rev author.now) }
{
    write!(text, "{file} rev {rev} by {author}")
}

/// Adds who approved a revision, if somebody did.
fn push_approver(approver: &Option<Text>, text: &mut String) -> Result<(), AllocError>
    ensures { OnOk result (string_bytes text.new ≡ string_bytes text.old ++ spec.approved approver.now) }
{
    match approver {
        None => Ok(()),
        Some(name) => push_approved(name.as_str(), text),
    }
}

/// Adds who approved a revision.
fn push_approved(name: &str, text: &mut String) -> Result<(), AllocError>
    ensures { OnOk result (string_bytes text.new ≡ string_bytes text.old ++ spec.approved_by name.now) }
{
    write!(text, " approved by {name}")
}

/// Adds by which profile an exports file is read.
fn push_profile(head: &Head, text: &mut String) -> Result<(), AllocError>
    ensures { OnOk result (string_bytes text.new ≡ string_bytes text.old ++ spec.profile_words head.now) }
{
    if SiteFile::is_name(head.file.as_str()) {
        Ok(())
    } else {
        let number = head.profile.number();
        write!(text, " profile {number}")
    }
}

/// Adds the digest of a file's text, and ends the line.
fn push_line_end(alloc: Global, body: &str, text: &mut String) -> Result<(), AllocError>
    ensures { OnOk result (string_bytes text.new ≡ string_bytes text.old ++ spec.line_end body.now) }
{
    let made = text_digest(alloc, body)?;
    let digest = made.as_str();
    write!(text, " {digest}\n")
}

/// Adds the line of the proposal, if there is one.
fn push_pending(
    alloc: Global,
    proposal: Option<&Proposal>,
    text: &mut String,
) -> Result<(), AllocError>
    ensures { OnOk result (string_bytes text.new ≡ string_bytes text.old ++ spec.pending_line (option_copied proposal.entry)) }
{
    match proposal {
        None => Ok(()),
        Some(proposal) => push_proposal(alloc, proposal, text),
    }
}

/// Adds the line of a proposal.
fn push_proposal(alloc: Global, proposal: &Proposal, text: &mut String) -> Result<(), AllocError>
    ensures { OnOk result (string_bytes text.new ≡ string_bytes text.old ++ spec.proposal_line proposal.now) }
{
    let rev = u64::from(proposal.base) + 1;
    push_proposed(proposal.file.as_str(), rev, proposal.author.as_str(), text)?;
    push_line_end(alloc, proposal.body.as_str(), text)?;
    Ok(())
}

/// Adds a file, the number that its proposal would have, and who proposes it.
fn push_proposed(file: &str, rev: u64, author: &str, text: &mut String) -> Result<(), AllocError>
    ensures { OnOk result (string_bytes text.new ≡ string_bytes text.old ++ spec.proposed file.now rev author.now) }
{
    write!(text, "{file} proposed rev {rev} by {author}")
}
