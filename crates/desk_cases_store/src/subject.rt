//! What the questions of a file are asked of.

use crate::databases::Database;
use crate::edits::Edits;
use crate::stores::Fresh;
use crate::views::ByKeys;
use desk_cases_texts::site::Site;
use std::alloc::Global;
use std::collections::BTreeSet;

/// What the file read last, the edits that it made, and its database; and the keys of the lines in force whenever they were asked
/// for.
#[derive(Drop)]
pub struct Subject<S: Fresh, V: ByKeys> {
    pub site: Site,
    pub edits: Edits<V>,
    pub database: Database<S, V>,
    pub keys: BTreeSet<String>,
}

impl<S: Fresh, V: ByKeys> Subject<S, V> {
    /// Nothing read, no edits, and no database.
    pub fn new(alloc: Global) -> Subject<S, V> {
        Subject {
            site: Site::new(alloc),
            edits: Edits::new(alloc),
            database: Database::new(),
            keys: BTreeSet::new(alloc),
        }
    }
}
