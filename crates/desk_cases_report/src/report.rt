//! What came of a file of cases.

use std::alloc::{AllocError, Global};
use std::fmt;

/// How many cases a file has, how many of them differ, and a text that tells how, each difference behind a line end.
#[derive(Drop)]
pub struct Report {
    cases: u64,
    differing: u64,
    differences: String,
    /// The number of the line of the case that is tried.
    line: usize,
}

impl Report {
    /// Returns the report of a file without cases.
    pub fn new(alloc: Global) -> Report {
        Report {
            cases: 0,
            differing: 0,
            differences: String::new(alloc),
            line: 0,
        }
    }

    /// Begins a case on the line behind this many.
    pub fn begin_case(&mut self, lines: usize) {
        self.line = lines.saturating_add(1);
        self.cases = self.cases.saturating_add(1);
    }

    /// Tells that the case that is tried differs, and what it has in place of what it wants.
    pub fn add_difference(&mut self, case: &str, found: &str) -> Result<(), AllocError> {
        self.differing = self.differing.saturating_add(1);
        let line = self.line;
        write!(self.differences, "\n  line {line}: {case}\n  {found}")
    }

    /// Tests whether there are cases, and none differs.
    pub fn is_right(&self) -> bool {
        self.cases > 0 && self.differing == 0
    }
}

/// `3 cases, 1 differ`, and then the differences.
impl fmt::Display for Report {
    fn fmt<W: fmt::Write>(&self, f: &mut fmt::Formatter<W>) -> fmt::Result {
        let (cases, differing) = (self.cases, self.differing);
        let differences = self.differences.as_str();
        write!(f, "{cases} cases, {differing} differ{differences}")
    }
}
