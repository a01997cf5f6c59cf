//! Texts as they are shown in a finding: no control character of a file goes to the terminal, and each character is seen.

ghost use Rattle.std.specs.Prelude.{◌≡◌, ◌++◌, ◌<◌, ◌^◌, OnOk, length};
ghost use Rattle.std.specs.List.{list_all};
ghost use Rattle.std.specs.Str.{chars};
ghost use Rattle.std.specs.String.{string_bytes};
ghost use Rattle.desk_shown.specs.ShownText as spec;

use std::alloc::AllocError;

/// Adds a text, with each control character, and each one that cannot be seen, by its code.
pub fn push_shown(text: &str, shown: &mut String) -> Result<(), AllocError>
    ensures { OnOk result (string_bytes shown.new ≡ string_bytes shown.old ++ spec.shown_text text.now) }
{
    for c in text.chars() {
        push_shown_character(c, shown)?;
    }
    Ok(())
}

/// Adds a line of a file in the same way, with its tabs as they are.
pub fn push_shown_line(line: &str, shown: &mut String) -> Result<(), AllocError>
    ensures { OnOk result (string_bytes shown.new ≡ string_bytes shown.old ++ spec.shown_line line.now) }
{
    for c in line.chars() {
        if c == '\t' {
            shown.push(c)?;
        } else {
            push_shown_character(c, shown)?;
        }
    }
    Ok(())
}

/// Adds what stands under the part of a line before a slice.
pub fn push_blanks(text: &str, shown: &mut String) -> Result<(), AllocError>
    ensures { OnOk result (string_bytes shown.new ≡ string_bytes shown.old ++ spec.blanks text.now) }
{
    for c in text.chars() {
        push_under(' ', c, shown)?;
    }
    Ok(())
}

/// Adds what stands under a slice.
pub fn push_carets(text: &str, shown: &mut String) -> Result<(), AllocError>
    ensures { OnOk result (string_bytes shown.new ≡ string_bytes shown.old ++ spec.carets text.now) }
{
    if has_tabs_alone(text) {
        return shown.push('^');
    }
    for c in text.chars() {
        push_under('^', c, shown)?;
    }
    Ok(())
}

/// Tests whether a text has no character but tabs.
fn has_tabs_alone(text: &str) -> bool
    ensures { result ≡ list_all spec.is_tab (chars text.now) }
{
    text.chars().all(|c| c == '\t')
}

/// Adds a character, or its code if it is a control character or cannot be seen.
fn push_shown_character(c: char, shown: &mut String) -> Result<(), AllocError>
    ensures { OnOk result (string_bytes shown.new ≡ string_bytes shown.old ++ spec.shown c) }
{
    if is_coded(c) {
        push_code(c, shown)
    } else {
        shown.push(c)
    }
}

/// Adds the code of a character.
pub fn push_code(c: char, shown: &mut String) -> Result<(), AllocError>
    ensures { OnOk result (string_bytes shown.new ≡ string_bytes shown.old ++ spec.code c) }
{
    let code = c as u32;
    write!(shown, "\\u{{{code:x}}}")
}

/// Adds what stands under a character.
fn push_under(mark: char, c: char, shown: &mut String) -> Result<(), AllocError>
    requires { mark < 128 }
    ensures { OnOk result (string_bytes shown.new ≡ string_bytes shown.old ++ spec.under mark c) }
{
    if c == '\t' {
        return shown.push(c);
    }
    for _ in 0..width(c) {
        shown.push(mark)?;
    }
    Ok(())
}

/// Counts the characters in which a character is shown.
fn width(c: char) -> usize
    ensures { result ≡ spec.width c }
{
    if is_coded(c) { code_length(c) } else { 1 }
}

/// Counts the characters of a code.
fn code_length(c: char) -> usize
    ensures { result ≡ length (spec.code c) }
{
    match c as u32 {
        0..=0xF => 5,
        0x10..=0xFF => 6,
        0x100..=0xFFF => 7,
        0x1000..=0xFFFF => 8,
        0x10000..=0xFFFFF => 9,
        _ => 10,
    }
}

/// Tests whether a character is shown by its code.
pub fn is_coded(c: char) -> bool
    ensures { result ≡ spec.is_coded c }
{
    c.is_control() || is_unseen(c)
}

/// Tests whether a character is shown as nothing, or turns or breaks its line.
fn is_unseen(c: char) -> bool
    ensures { result ≡ spec.is_unseen c }
{
    matches!(
        c,
        '\u{ad}'
            | '\u{34f}'
            | '\u{61c}'
            | '\u{115f}'..='\u{1160}'
            | '\u{17b4}'..='\u{17b5}'
            | '\u{180b}'..='\u{180f}'
            | '\u{200b}'..='\u{200f}'
            | '\u{2028}'..='\u{202e}'
            | '\u{2060}'..='\u{206f}'
            | '\u{3164}'
            | '\u{fe00}'..='\u{fe0f}'
            | '\u{feff}'
            | '\u{ffa0}'
            | '\u{fff0}'..='\u{fff8}'
            | '\u{1bca0}'..='\u{1bca3}'
            | '\u{1d173}'..='\u{1d17a}'
            | '\u{e0000}'..='\u{e0fff}'
    )
}
