//! Exports files, one behind another, in a text that can be split into them again.

ghost use Rattle.std.specs.Prelude.{◌≡◌, ◌++◌, ◌==◌, IfOk, OnOk, map, not};
ghost use Rattle.std.specs.List.{list_any};
ghost use Rattle.std.specs.String.{string_bytes};
ghost use Rattle.desk_split.specs.Splitting.{line_end};
ghost use Rattle.desk_split.specs.Joining as spec;

use std::alloc::{AllocError, Global};

/// The exports file of a file system: its name, as `exports:/u2`, the number and the author of its newest revision, and its text.
#[derive(Clone, Copy)]
pub struct ExportsFile<'a> {
    pub name: &'a str,
    pub rev: u32,
    pub author: &'a str,
    pub text: &'a str,
}

/// Joins exports files, in order: each behind a comment line that tells its name, number and author, and before an empty line.
pub fn join(alloc: Global, files: &[ExportsFile<'_>]) -> Result<String, AllocError>
    ensures { IfOk result (λ text. string_bytes text ≡ spec.joined (map spec.stored_file files.now)) }
{
    let mut text = String::new(alloc);
    for file in files {
        push_section(&mut text, file)?;
    }
    Ok(text)
}

/// Writes a file with what stands before and behind it.
fn push_section(text: &mut String, file: &ExportsFile<'_>) -> Result<(), AllocError>
    ensures { OnOk result (string_bytes text.new ≡ string_bytes text.old ++ spec.section (spec.stored_file file.now)) }
{
    push_comment(text, file)?;
    text.push_str(file.text)?;
    text.push_str(last_line_end(file.text))?;
    text.push_str("\n")?;
    Ok(())
}

/// Writes the comment line of a file, if it is one line.
fn push_comment(text: &mut String, file: &ExportsFile<'_>) -> Result<(), AllocError>
    ensures { OnOk result (string_bytes text.new ≡ string_bytes text.old ++ spec.comment_line (spec.stored_file file.now)) }
{
    if has_feed(file.name) || has_feed(file.author) {
        return Ok(());
    }
    write_comment(text, file.name, file.rev, file.author)
}

/// Writes a comment line.
fn write_comment(text: &mut String, name: &str, rev: u32, author: &str) -> Result<(), AllocError>
    ensures { OnOk result (string_bytes text.new ≡ string_bytes text.old ++ spec.told_revision name.now rev author.now) }
{
    write!(text, "# {name} rev {rev} ({author})\n")
}

/// Tests whether a line feed stands in a text.
fn has_feed(text: &str) -> bool
    ensures { result ≡ spec.has_feed text.now }
{
    let bytes = text.as_bytes();
    bytes.iter().any(|b| *b == b'\n')
}

/// Returns what ends the last line of a text, if nothing does. The reader drops one carriage return before a line feed, so a
/// line that ends with one gets another.
fn last_line_end(text: &str) -> &'static str
    ensures { result.now ≡ spec.last_line_end text.now }
{
    if text.is_empty() || text.ends_with('\n') {
        ""
    } else if text.ends_with('\r') {
        "\r\n"
    } else {
        "\n"
    }
}
