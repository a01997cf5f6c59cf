//! Which texts a command on texts reads: those of its words and options, or of the folder of `--site`; and what is asked of
//! them once they are read.
//!
//! ```text
//! let subject = subject_of(alloc, words, places)?;      // try --site server 10.0.0.5 /a: Subject::Site(folder)
//! let files = whole_files(words, &subject, "FILE");      // its tables, or those of the options, and its exports
//! answer_whole(rt, false, words, &subject, &question, &mut input)?
//! ```
#![tactic(auto)]

mod exports_files;
pub mod laws;
pub mod line_ends;
pub mod subject;
pub mod systems;
pub mod table_files;
pub mod two_files;
pub mod two_question;
pub mod whole_files;
pub mod whole_question;
