//! What a desk is asked and answers, as data: questions on the policy in force and on a site's files, and edits.
//!
//! ```text
//! let question = Question::Mount(address, &path);
//! let looked = look_up(alloc, &mut desk, question)?;
//! answer(alloc, &desk, question, looked)?                          // Answer::Verdict(policy, verdict)
//! put(alloc, &mut desk, &edit, Replies { accepted, already, .. })? // one of the four replies
//! ```
#![tactic(auto)]

pub mod answering;
pub mod approving;
pub mod edits;
pub mod files;
pub mod foreseeing;
pub mod laws;
pub mod lending;
pub mod questions;
pub mod readable_by_init;
mod reasons;
pub mod refused;
pub mod sites;
mod texts;

pub use answering::{answer, look_up};
pub use approving::{Approval, approved_text, digest_of};
pub use edits::{Replies, put};
pub use files::{ListedFile, ListedFiles, Mark};
pub use foreseeing::Foreseen;
pub use laws::{edits_put_the_site_that_was_foreseen, edits_put_what_was_foreseen};
pub use lending::lend_state;
pub use questions::{Answer, FileQuestion, FileText, Looked, Question};
pub use readable_by_init::read_by_second;
pub use refused::Refused;
pub use sites::WholeSite;
