//! The text of file systems that `site` keeps.

ghost use Rattle.std.specs.Prelude.{◌≡◌, ◌++◌, IfOk, OnOk};
ghost use Rattle.std.specs.List.{flat_map};
ghost use Rattle.std.specs.String.{string_bytes};
ghost use Rattle.desk_mounts.specs.SiteLines as spec;

use desk_tables::Mount;
use std::alloc::{AllocError, Global};

/// Writes a line `MOUNT site` for each mount point, in their order. What does not stand for itself in a word has a backslash before it.
pub fn site_text(alloc: Global, mounts: &[Mount]) -> Result<String, AllocError>
    ensures { IfOk result (λ text. string_bytes text ≡ spec.site_text mounts.now) }
{
    let mut text = String::new(alloc);
    push_lines(mounts, &mut text)?;
    Ok(text)
}

/// Adds the line of each mount point.
fn push_lines(mounts: &[Mount], text: &mut String) -> Result<(), AllocError>
    ensures { OnOk result (string_bytes text.new ≡ string_bytes text.old ++ flat_map spec.site_line mounts.now) }
{
    for mount in mounts {
        push_line(mount, text)?;
    }
    Ok(())
}

/// Adds the line of a mount point.
fn push_line(mount: &Mount, text: &mut String) -> Result<(), AllocError>
    ensures { OnOk result (string_bytes text.new ≡ string_bytes text.old ++ spec.site_line mount.now) }
{
    push_word(mount.path.text(), text)?;
    text.push_str(" site\n")
}

/// Adds the word that stands for a text.
fn push_word(word: &str, text: &mut String) -> Result<(), AllocError>
    ensures { OnOk result (string_bytes text.new ≡ string_bytes text.old ++ spec.written_word word.now) }
{
    for c in word.chars() {
        push_character(c, text)?;
    }
    Ok(())
}

/// Adds a character as a word has it.
fn push_character(c: char, text: &mut String) -> Result<(), AllocError>
    ensures { OnOk result (string_bytes text.new ≡ string_bytes text.old ++ spec.written c) }
{
    if is_marked(c) {
        text.push('\\')?;
    }
    text.push(c)
}

/// Tests whether a character of a word does not stand for itself.
fn is_marked(c: char) -> bool
    ensures { result ≡ spec.is_marked c }
{
    c == ' ' || c == '\t' || c == '"' || c == '\'' || c == '\\'
}
