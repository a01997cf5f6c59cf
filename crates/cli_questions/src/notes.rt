//! What standard error says beside the answer to a question. Of it two things are promised: that a file is guarded is
//! said of guarded files alone; and the digest that is said of a proposal is that of its text.

ghost use Rattle.std.specs.Prelude.{◌≡◌, [], false, IfOk, None};
ghost use Rattle.std.specs.String.{string_bytes};
ghost use Rattle.cli_questions.specs.ProposalNote.{EndsWithDigest};

use crate::answering::{Asked, Printer};
use crate::revision_lines::counts_classes;
use cli_desk::View;
use cli_desk::desks::CopiedDesk;
use cli_desk::refusal_notes::{too_large_note, unknown_file_note};
use cli_desk::site_notes::{NewText, edit_fault_note};
use desk_core::{Proposal, Refusal};
use desk_policy::SiteFault;
use desk_service::{Answer, FileQuestion, FileText, Foreseen, Looked, Question, answer, digest_of};
use std::alloc::{AllocError, Global};

/// Says that the file of a question, its revision of the number that is asked for, or its proposal is not there.
pub(crate) fn no_revision_note(
    alloc: Global,
    question: Question<'_>,
) -> Result<String, AllocError> {
    match question {
        Question::Text(name, Some(rev)) => {
            format!(in alloc; "exportdesk: NAME {name:?}: it has no revision {rev}\n")
        }
        Question::Text(name, None) | Question::OfFile(name, FileQuestion::Revisions) => {
            format!(in alloc; "exportdesk: NAME {name:?}: it has no revision\n")
        }
        Question::OfFile(name, FileQuestion::Proposal)
        | Question::ForeseeProposal(name)
        | Question::ForeseeProposedSite(name) => {
            format!(in alloc; "exportdesk: NAME {name:?}: it has no proposal\n")
        }
        _ => Ok(String::new(alloc)),
    }
}

/// Says who approved a revision of a file, or that it is read by profile 1; of another revision nothing.
pub(crate) fn text_note(alloc: Global, name: &str, text: &FileText) -> Result<String, AllocError> {
    let rev = text.rev;
    if let Some(approver) = &text.approver {
        let author = text.author.as_str();
        let approver = approver.as_str();
        return format!(in alloc;
            "exportdesk: NAME {name:?}: revision {rev} is by {author:?}, approved by {approver:?}\n"
        );
    }
    if counts_classes(name, text.profile) {
        return format!(in alloc;
            "exportdesk: NAME {name:?}: revision {rev} is read by profile 1: a -network without a prefix and a mask has that of its class\n"
        );
    }
    Ok(String::new(alloc))
}

/// Says who proposes a text for a file, and on which revision.
pub(crate) fn proposal_note(
    alloc: Global,
    name: &str,
    author: &str,
    base: u32,
) -> Result<String, AllocError> {
    format!(in alloc;
        "exportdesk: NAME {name:?}: it is proposed by {author:?}, with --base {base}\n"
    )
}

/// Says who proposes a text for a file, on which revision, and the digest of the text, by which `put --proposal` names
/// it.
pub(crate) fn proposal_text_note(
    alloc: Global,
    name: &str,
    proposal: &Proposal,
) -> Result<String, AllocError>
    ensures { IfOk result (EndsWithDigest proposal.now.body) }
{
    let author = proposal.author.as_str();
    let note = proposal_note(alloc, name, author, proposal.base)?;
    with_digest(alloc, note.as_str(), name, proposal.body.as_str())
}

/// Writes the digest of a text below a note on it.
fn with_digest(alloc: Global, note: &str, name: &str, text: &str) -> Result<String, AllocError>
    ensures { IfOk result (EndsWithDigest text.now) }
{
    let digest = digest_of(alloc, text)?;
    let mut said = format!(in alloc; "{note}exportdesk: NAME {name:?}: its SHA-256 is ")?;
    said.push_str(digest.as_str())?;
    said.push_str("\n")?;
    Ok(said)
}

/// Says who proposes the text that is foreseen; or, if its file is guarded, that it would be proposed; and else
/// nothing.
pub(crate) fn foreseen_note(
    alloc: Global,
    question: Question<'_>,
    foreseen: &Foreseen<'_, View>,
) -> Result<String, AllocError>
    ensures { foreseen.now.proposal ≡ None → foreseen.now.guarded ≡ false → IfOk result (λ note. string_bytes note ≡ []) }
{
    let name = foreseen_name(question);
    if let Some(proposal) = foreseen.proposal {
        return proposal_note(alloc, name, proposal.author.as_str(), proposal.base);
    }
    if foreseen.guarded {
        return format!(in alloc;
            "exportdesk: NAME {name:?}: it is guarded: put would propose this text, unless another custodian has proposed it\n"
        );
    }
    Ok(String::new(alloc))
}

/// Returns the name of the file whose text is foreseen.
fn foreseen_name<'a>(question: Question<'a>) -> &'a str {
    match question {
        Question::Foresee(name, _)
        | Question::ForeseeProposal(name)
        | Question::ForeseeSite(name, _)
        | Question::ForeseeProposedSite(name) => name,
        _ => "",
    }
}

/// Says why a file cannot have a text.
pub(crate) fn refusal_note(
    alloc: Global,
    desk: &CopiedDesk,
    asked: Asked<'_>,
    refusal: &Refusal,
) -> Result<String, AllocError> {
    match refusal {
        Refusal::UnknownFile => unknown_file_note(alloc, foreseen_name(asked.question)),
        Refusal::TooLarge => match asked.printer {
            Printer::Changes(Some(file), _) | Printer::Breaches(Some(file), _) => {
                too_large_note(alloc, "FILE", file)
            }
            _ => Ok(String::new(alloc)),
        },
        Refusal::Fault(fault) => fault_note(alloc, desk, asked.question, fault),
        _ => Ok(String::new(alloc)),
    }
}

/// Says the fault that the site of a desk has with the text that is foreseen.
fn fault_note(
    alloc: Global,
    desk: &CopiedDesk,
    question: Question<'_>,
    fault: &SiteFault,
) -> Result<String, AllocError> {
    match question {
        Question::Foresee(file, text) | Question::ForeseeSite(file, text) => edit_fault_note(
            alloc,
            desk,
            NewText { file, text },
            fault,
        ),
        Question::ForeseeProposal(file) | Question::ForeseeProposedSite(file) => {
            proposal_fault_note(alloc, desk, file, fault)
        }
        _ => Ok(String::new(alloc)),
    }
}

/// Says the fault that the site of a desk has with the proposal of a file.
fn proposal_fault_note(
    alloc: Global,
    desk: &CopiedDesk,
    file: &str,
    fault: &SiteFault,
) -> Result<String, AllocError> {
    let question = Question::OfFile(file, FileQuestion::Proposal);
    match answer(alloc, desk, question, Looked::Nothing)? {
        Answer::Proposal(proposal) => {
            let text = proposal.body.as_str();
            edit_fault_note(alloc, desk, NewText { file, text }, fault)
        }
        other => {
            drop(other);
            Ok(String::new(alloc))
        }
    }
}
