//! What a command prints, with its exit status; or why it has no answer.
//!
//! ```text
//! let answer = Ok(Printed { status: 0, text, note });
//! report(alloc, Origin::Arguments, answer, &mut out, &mut err) // Reported { status: 0, said: Ok(()) }: prints text
//! ```
#![tactic(auto)]

pub mod bad_argument;
pub mod failure;
pub mod printed;
pub mod shown_lines;
