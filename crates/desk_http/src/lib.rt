//! The service of a desk over a connection of HTTP/1.1, one message after another: questions and edits, answered with
//! JSON. (this project's own, over RFC 9110 and RFC 9112)
//!
//! ```text
//! serve(alloc, &mut desk, &mut reader, &mut writer)    // Served { replies: 1, written: 187, end: End::Input }
//! ```
#![tactic(auto)]

pub mod answering;
pub mod connection;
pub mod edits;
pub mod laws;
pub mod questions;
pub mod replies;
pub mod serving;
pub mod stepping;

pub use connection::{Connection, State};
pub use laws::{
    interleavings_go_on, interleavings_serve, replies_are_a_run, runs_follow, stepping_serves,
};
pub use serving::serve;
pub use stepping::{ReplyText, Step, take_step};
