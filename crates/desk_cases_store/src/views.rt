//! The views of which `keys_in_force` is asked.

use desk_cases_texts::answers::Asked;
use desk_cases_texts::indexes;
use desk_index::Index;
use desk_policy::{PolicyView, Site};
use std::alloc::Global;
use std::collections::BTreeSet;

/// A view that finds lines by their keys.
pub trait ByKeys: PolicyView + Drop {
    /// Answers what `keys` answers, of this view and these texts.
    fn compare_keys(
        &self,
        alloc: Global,
        keys: &mut BTreeSet<String>,
        texts: &Site,
        out: &mut String,
    ) -> Asked;
}

impl ByKeys for Index {
    fn compare_keys(
        &self,
        alloc: Global,
        keys: &mut BTreeSet<String>,
        texts: &Site,
        out: &mut String,
    ) -> Asked {
        indexes::compare_keys(alloc, keys, self, texts, out)
    }
}
