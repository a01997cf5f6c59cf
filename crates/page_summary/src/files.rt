//! The exports files of the file systems.

ghost use Rattle.std.specs.Prelude.{◌≡◌, ◌++◌, ◌∷◌, [], IfOk, OnOk, map};
ghost use Rattle.std.specs.Str.Lines.{lines};
ghost use Rattle.page_summary.specs.Files as spec;
ghost use Rattle.page_summary.specs.Files.{line_values};

use desk_core::{Head, Proposal, newest_among};
use desk_policy::exports_file_name;
use desk_tables::{FileSystems, FsId, Mount};
use desk_text::Sequence;
use std::alloc::{AllocError, Global};

/// Lends the printed mount point of a file system.
pub(crate) fn name_of(table: &FileSystems, fs: FsId) -> &str
    ensures { result.now ≡ spec.name_of table.now fs.0 }
{
    match table.mount(fs) {
        Some(mount) => mount.text(),
        None => "",
    }
}

/// Tests whether a proposal of a file waits.
pub(crate) fn has_proposal(proposals: &[Proposal], file: &str) -> bool
    ensures { result ≡ spec.has_proposal proposals.now file.now }
{
    proposals
        .iter()
        .any(|proposal| proposal.file.as_str() == file)
}

/// Lists the lines of the text in force of each file system, in the order of the table.
pub(crate) fn texts_in_force<'a>(
    alloc: Global,
    mounts: &[Mount],
    heads: &'a [Head],
) -> Result<Vec<Sequence<&'a str>>, AllocError>
    ensures { IfOk result (λ texts. map line_values texts.items ≡ map (spec.text_in_force heads.now) mounts.now) }
{
    let mut texts = Vec::new(alloc);
    for mount in mounts {
        let text = text_in_force(alloc, mount, heads)?;
        texts.push(Sequence::from_vec(text))?;
    }
    Ok(texts)
}

/// Lists the lines of the text in force of a file system, none if its exports file has no revision.
fn text_in_force<'a>(
    alloc: Global,
    mount: &Mount,
    heads: &'a [Head],
) -> Result<Vec<&'a str>, AllocError>
    ensures { IfOk result (λ text. line_values text.items ≡ spec.text_in_force heads.now mount.now) }
{
    let file = exports_file_name(alloc, mount.path.text())?;
    match newest_among(heads, file.as_str()) {
        Some(head) => lines_of(alloc, head.body.as_str()),
        None => Ok(Vec::new(alloc)),
    }
}

/// Lists the lines of a text.
fn lines_of(alloc: Global, text: &str) -> Result<Vec<&str>, AllocError>
    ensures { IfOk result (λ found. line_values found.items ≡ lines text.now) }
{
    text.lines().collect(alloc)
}

/// Lends the line of a file system with a number, an empty one if there is none.
pub(crate) fn line_in<'a>(texts: &[Sequence<&'a str>], fs: FsId, number: u32) -> &'a str
    ensures { result.now ≡ spec.line_in (map line_values texts.now) fs.0 number }
{
    match texts.get(fs.0 as usize) {
        Some(text) => line_at(text.as_slice(), number),
        None => "",
    }
}

/// Lends the line of a text with a number, from 1.
fn line_at<'a>(text: &[&'a str], number: u32) -> &'a str
    ensures { result.now ≡ spec.line_at (line_values text.now) number }
{
    match text.get((number as usize).saturating_sub(1)) {
        Some(line) => line,
        None => "",
    }
}
