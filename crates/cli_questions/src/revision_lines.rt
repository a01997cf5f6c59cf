//! The lines of a file's revisions, as `log` prints them.

ghost use Rattle.std.specs.Prelude.{◌≡◌, ◌++◌, IfOk, OnOk};
ghost use Rattle.std.specs.String.{string_bytes};
ghost use Rattle.cli_questions.specs.RevisionLines as spec;

use desk_exports::Profile;
use desk_policy::SiteFile;
use desk_store::Signature;
use std::alloc::{AllocError, Global};

/// Writes a line for each revision of a file.
pub(crate) fn log_text(
    alloc: Global,
    name: &str,
    revisions: &[Signature],
) -> Result<String, AllocError>
    ensures { IfOk result (λ text. string_bytes text ≡ spec.log_text name.now revisions.now) }
{
    let mut text = String::new(alloc);
    for revision in revisions {
        push_revision(name, revision, &mut text)?;
    }
    Ok(text)
}

/// Writes the line of a revision of a file.
fn push_revision(name: &str, revision: &Signature, text: &mut String) -> Result<(), AllocError>
    ensures { OnOk result (string_bytes text.new ≡ string_bytes text.old ++ spec.revision_line name.now revision.now) }
{
    let author = revision.author.as_str();
    let mark = profile_mark(name, revision.profile);
    match &revision.approver {
        Some(approver) => push_approved(revision.rev, author, approver.as_str(), mark, text),
        None => push_plain(revision.rev, author, mark, text),
    }
}

/// Writes the line of a revision that was approved, with a mark.
fn push_approved(
    rev: u32,
    author: &str,
    approver: &str,
    mark: &str,
    text: &mut String,
) -> Result<(), AllocError>
    ensures { OnOk result (string_bytes text.new ≡ string_bytes text.old ++ spec.approved_line rev author.now approver.now mark.now) }
{
    write!(text, "rev {rev} {author}, approved by {approver}{mark}\n")
}

/// Writes the line of a revision that nobody approved, with a mark.
fn push_plain(rev: u32, author: &str, mark: &str, text: &mut String) -> Result<(), AllocError>
    ensures { OnOk result (string_bytes text.new ≡ string_bytes text.old ++ spec.plain_line rev author.now mark.now) }
{
    write!(text, "rev {rev} {author}{mark}\n")
}

/// Returns what is told of a revision's profile: of a text in which classes count, its number.
fn profile_mark(name: &str, profile: Profile) -> &'static str
    ensures { result.now ≡ spec.profile_mark name.now profile }
{
    if counts_classes(name, profile) {
        ", profile 1"
    } else {
        ""
    }
}

/// Tests whether the class of a network counts in a text of a file: whether that is an exports file's, of profile 1.
pub(crate) fn counts_classes(name: &str, profile: Profile) -> bool
    ensures { result ≡ spec.counts_classes name.now profile }
{
    match profile {
        Profile::One => !SiteFile::is_name(name),
        Profile::Two => false,
    }
}
