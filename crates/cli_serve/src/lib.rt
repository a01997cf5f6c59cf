//! The command `serve`: the desk of a database behind a TCP listener, which serves many connections beside one another.
//!
//! ```text
//! serve_on(&rt, &mut desk, listener, 2, 5000, &mut err)?;    // two connections, beside one another
//! ```
#![tactic(auto)]

mod clock;
pub mod kept_edits;
pub mod limits;
pub mod loopback;
mod notes;
mod peer;
mod readiness;
pub mod refusals;
pub mod serve_command;
pub mod serving;
mod socket;

pub use serving::{Serving, serve_on};
