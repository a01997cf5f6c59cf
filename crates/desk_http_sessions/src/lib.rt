//! One peer among many: its connection, the part of the reply that it has not taken yet, and a wire whose calls never
//! wait.
//!
//! ```text
//! session.receive(&mut room);                       // Received::Bytes(false)
//! session.answer(alloc, &routes, &mut desk);        // true: a reply waits
//! session.send();                                   // Sent::Part: the peer takes no more for now
//! ```
#![tactic(auto)]

mod given_bytes;
pub mod laws;
pub mod session;
pub mod wire;

pub use laws::exchanges_follow;
pub use session::{Received, Sent, Session};
pub use wire::Wire;
