//! What the questions of a file are asked of.

use crate::revisions::Revisions;
use desk_cases_texts::site::Site;
use std::alloc::Global;

/// What the file read last, and the revisions and the proposals of a database to come.
#[derive(Drop)]
pub struct Subject {
    pub site: Site,
    pub revisions: Revisions,
}

impl Subject {
    /// Nothing read, and no revisions.
    pub fn new(alloc: Global) -> Subject {
        Subject {
            site: Site::new(alloc),
            revisions: Revisions::new(alloc),
        }
    }
}
