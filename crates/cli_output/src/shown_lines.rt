//! Lines and names as they are shown, so that nothing in them can write to the terminal.

ghost use Rattle.std.specs.Prelude.{◌≡◌, ◌++◌, IfOk, OnOk};
ghost use Rattle.std.specs.String.{string_bytes};
ghost use Rattle.cli_output.specs.ShownLines as spec;
ghost use Rattle.desk_shown.specs.ShownText.{shown_text};

use desk_shown::{is_coded, push_code, push_shown};
use std::alloc::{AllocError, Global};

/// Writes lines as they are shown: each control character, and each one that cannot be seen, by its code, but line ends
/// and tabs as they are.
pub fn shown_lines(alloc: Global, lines: &str) -> Result<String, AllocError>
    ensures { IfOk result (λ shown. string_bytes shown ≡ spec.shown_lines lines.now) }
{
    let mut shown = String::new(alloc);
    push_shown_lines(lines, &mut shown)?;
    Ok(shown)
}

/// Writes a name in the same way, its line ends and tabs by their codes too.
pub fn shown_name(alloc: Global, name: &str) -> Result<String, AllocError>
    ensures { IfOk result (λ shown. string_bytes shown ≡ shown_text name.now) }
{
    let mut shown = String::new(alloc);
    push_shown(name, &mut shown)?;
    Ok(shown)
}

/// Adds lines as they are shown.
fn push_shown_lines(lines: &str, shown: &mut String) -> Result<(), AllocError>
    ensures { OnOk result (string_bytes shown.new ≡ string_bytes shown.old ++ spec.shown_lines lines.now) }
{
    for c in lines.chars() {
        push_shown_in_lines(c, shown)?;
    }
    Ok(())
}

/// Adds a character of lines.
fn push_shown_in_lines(c: char, shown: &mut String) -> Result<(), AllocError>
    ensures { OnOk result (string_bytes shown.new ≡ string_bytes shown.old ++ spec.shown_in_lines c) }
{
    if is_kept(c) {
        shown.push(c)
    } else {
        push_code(c, shown)
    }
}

/// Tests whether a character of lines is shown as it is.
fn is_kept(c: char) -> bool
    ensures { result ≡ spec.is_kept c }
{
    c == '\t' || c == '\n' || !is_coded(c)
}
