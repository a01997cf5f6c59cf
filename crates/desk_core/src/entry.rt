//! What is stored of a file.

use crate::head::Head;
use crate::proposal::Proposal;

/// What is stored of a file: a revision, which is then its newest, and the file has no proposal; or a proposal, in place
/// of any other.
#[derive(Drop)]
pub enum Entry {
    Revised(Head),
    Proposed(Proposal),
}
