//! Who may mount what by the rule of mountd(8), and where that grants more than this desk does.
//!
//! ```text
//! // with `/a/x 10.0.0.5` and `/a -network 10.0.0.0/24`:
//! let found = wider_grants(alloc, &index, fs)?;
//! // line 1: the server lets 10.0.0.5 mount /a by line 2
//! ```
#![tactic(auto)]

pub mod deciding;
pub mod laws;
mod looking;
pub mod repeated_client;
mod same_listing;
pub mod wider_grant;

pub use deciding::server_decide;
pub use laws::{
    grants_are_the_servers, nothing_repeated_is_loaded, nothing_wider_is_equal,
    server_grants_what_is_listed, silence_is_the_servers_verdict,
    verdicts_differ_where_the_server_grants_more,
};
pub use repeated_client::{RepeatedClient, repeated_clients};
pub use wider_grant::{WiderGrant, wider_grants, wider_grants_by};
