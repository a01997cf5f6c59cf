//! Questions that keep what a database holds, whose page is asked for then (`pages`).

use desk_cases_texts::answers::{Asked, number, say, split};
use desk_core::{Head, Proposal};
use desk_exports::Profile;
use desk_text::Text;
use std::alloc::{AllocError, Global};

/// The newest revisions and the proposals of the database to come.
#[derive(Drop)]
pub struct Revisions {
    pub heads: Vec<Head>,
    pub proposals: Vec<Proposal>,
}

impl Revisions {
    /// No revisions, and no proposals.
    pub fn new(alloc: Global) -> Revisions {
        Revisions {
            heads: Vec::new(alloc),
            proposals: Vec::new(alloc),
        }
    }
}

/// `head NUMBER AUTHOR APPROVER FILE`, and the text on the lines below: `kept`. Adds the newest revision of a file, which is read by the
/// profile that was set last. The approver of one that nobody approved is `-`.
pub fn head(
    alloc: Global,
    revisions: &mut Revisions,
    profile: Profile,
    out: &mut String,
    text: &str,
) -> Asked {
    let (first, body) = lines_of(text);
    let (rev, rest) = split(first);
    let (author, rest) = split(rest);
    let (approver, file) = split(rest);
    let Some(rev) = number(rev) else {
        return Ok(false);
    };
    let approver = approver_of(alloc, approver)?;
    revisions.heads.push(Head {
        file: Text::copy(alloc, file)?,
        rev,
        author: Text::copy(alloc, author)?,
        approver,
        profile,
        body: Text::copy(alloc, body)?,
    })?;
    say(out, "kept")
}

/// Returns who approved a revision, if somebody did.
fn approver_of(alloc: Global, approver: &str) -> Result<Option<Text>, AllocError> {
    if approver == "-" {
        return Ok(None);
    }
    Ok(Some(Text::copy(alloc, approver)?))
}

/// `pending BASE AUTHOR FILE`, and the text on the lines below: `kept`. Adds the proposal of a file, which follows the revision with this
/// number.
pub fn pending(alloc: Global, revisions: &mut Revisions, out: &mut String, text: &str) -> Asked {
    let (first, body) = lines_of(text);
    let (base, rest) = split(first);
    let (author, file) = split(rest);
    let Some(base) = number(base) else {
        return Ok(false);
    };
    revisions.proposals.push(Proposal {
        file: Text::copy(alloc, file)?,
        base,
        author: Text::copy(alloc, author)?,
        body: Text::copy(alloc, body)?,
    })?;
    say(out, "kept")
}

/// Splits a text behind its first line.
fn lines_of(text: &str) -> (&str, &str) {
    text.split_once('\n').unwrap_or((text, ""))
}
