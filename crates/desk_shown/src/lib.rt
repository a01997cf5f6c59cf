//! Texts as they are shown, so that each character can be seen and none of them can write to the terminal.
//!
//! ```text
//! // With a text of "a", the escape character and "b":
//! push_shown(text, &mut shown)?;          // a\u{1b}b
//! ```
#![tactic(auto)]

pub mod shown_text;

pub use shown_text::{is_coded, push_blanks, push_carets, push_code, push_shown, push_shown_line};
