//! What is printed of a rule, or of a kind of warning.

/// A row of a list of rules or of kinds of warnings. Each list has numbers of its own.
#[derive(Clone, Copy)]
pub struct Said {
    pub number: u32,
    pub name: &'static str,
    /// What is said of the slice that is at fault or odd, behind the slice; or of a line.
    pub sentence: &'static str,
}
