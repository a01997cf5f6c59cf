//! What came of a file of cases.

use std::alloc::{AllocError, Global};
use std::fmt;

/// How many cases a file has, how many of them differ, and a text that tells how, each difference behind a line end.
#[derive(Drop)]
pub struct Report {
    cases: u64,
    differing: u64,
    differences: String,
}

impl Report {
    /// Returns the report of a file without cases.
    pub fn new(alloc: Global) -> Report {
        Report {
            cases: 0,
            differing: 0,
            differences: String::new(alloc),
        }
    }

    /// Counts a case.
    pub fn count(&mut self) {
        self.cases = self.cases.saturating_add(1);
    }

    /// Tells how the case of this name, which is on this line, differs.
    pub fn add_difference(
        &mut self,
        line: usize,
        name: &str,
        found: &str,
    ) -> Result<(), AllocError> {
        self.differing = self.differing.saturating_add(1);
        write!(self.differences, "\n  line {line}: {name}\n  {found}")
    }

    /// Tests whether there are cases, and none differs.
    pub fn is_right(&self) -> bool {
        self.cases > 0 && self.differing == 0
    }
}

/// `3 cases, 1 differ`, and then the differences.
impl fmt::Display for Report {
    fn fmt<W: fmt::Write>(&self, f: &mut fmt::Formatter<W>) -> fmt::Result {
        let (cases, differing) = (self.cases, self.differing);
        let differences = self.differences.as_str();
        write!(f, "{cases} cases, {differing} differ{differences}")
    }
}
