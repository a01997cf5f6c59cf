//! The lines of the files that have a revision or a proposal, as `files` prints them.

ghost use Rattle.std.specs.Prelude.{◌≡◌, ◌++◌, IfOk, OnOk};
ghost use Rattle.std.specs.Option.{option_copied};
ghost use Rattle.std.specs.String.{string_bytes};
ghost use Rattle.desk_service.specs.Files.{file_of, files_of};
ghost use Rattle.cli_questions.specs.FileLines as spec;

use desk_core::{Head, Proposal};
use desk_service::{ListedFile, ListedFiles, Mark};
use std::alloc::{AllocError, Global};

/// Writes the lines of files, in their order: each with the number and the author of its newest revision and its mark, and below it
/// its proposal.
pub(crate) fn files_text(alloc: Global, listed: &ListedFiles<'_>) -> Result<String, AllocError>
    ensures { IfOk result (λ text. string_bytes text ≡ spec.files_text (files_of listed.now)) }
{
    let mut text = String::new(alloc);
    for file in &listed.files {
        push_file(file, &mut text)?;
    }
    Ok(text)
}

/// Writes the lines of a file: that of its newest revision, and that of its proposal, if it has them.
fn push_file(file: &ListedFile<'_>, text: &mut String) -> Result<(), AllocError>
    ensures { OnOk result (string_bytes text.new ≡ string_bytes text.old ++ spec.file_lines (file_of file.now)) }
{
    push_newest(file.newest, file.mark, text)?;
    push_proposal(file.proposal, text)?;
    Ok(())
}

/// Writes the line of a file's newest revision, with its mark, if it has one.
fn push_newest(newest: Option<&Head>, mark: Mark, text: &mut String) -> Result<(), AllocError>
    ensures { OnOk result (string_bytes text.new ≡ string_bytes text.old ++ spec.newest_line mark (option_copied newest.entry)) }
{
    match newest {
        Some(head) => write_revision(
            head.file.as_str(),
            head.rev,
            head.author.as_str(),
            mark_text(mark),
            text,
        ),
        None => Ok(()),
    }
}

/// Returns the mark of a file as it is printed after the author.
fn mark_text(mark: Mark) -> &'static str
    ensures { result.now ≡ spec.mark_text mark }
{
    match mark {
        Mark::Plain => "",
        Mark::Guarded => " guarded",
        Mark::Unlisted => " unlisted",
    }
}

/// Writes the line of a revision.
fn write_revision(
    file: &str,
    rev: u32,
    author: &str,
    mark: &str,
    text: &mut String,
) -> Result<(), AllocError>
    ensures { OnOk result (string_bytes text.new ≡ string_bytes text.old ++ spec.revision_line file.now rev author.now mark.now) }
{
    write!(text, "{file} rev {rev} {author}{mark}\n")
}

/// Writes the line of a proposal, if there is one.
fn push_proposal(proposal: Option<&Proposal>, text: &mut String) -> Result<(), AllocError>
    ensures { OnOk result (string_bytes text.new ≡ string_bytes text.old ++ spec.proposal_line (option_copied proposal.entry)) }
{
    match proposal {
        Some(proposal) => write_proposal(
            proposal.file.as_str(),
            u64::from(proposal.base) + 1,
            proposal.author.as_str(),
            text,
        ),
        None => Ok(()),
    }
}

/// Writes the line of a proposal.
fn write_proposal(file: &str, rev: u64, author: &str, text: &mut String) -> Result<(), AllocError>
    ensures { OnOk result (string_bytes text.new ≡ string_bytes text.old ++ spec.proposed_line file.now rev author.now) }
{
    write!(text, "{file} proposed rev {rev} {author}\n")
}
