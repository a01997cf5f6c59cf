//! What the status 4 of an answer says, as a function that does nothing.

ghost use Rattle.cli.specs.Laws.{FourIsRefused};

/// An answer whose own status is 4 is the line of a refusal: `201 Store`, `202 Schema` or `203 Memory`.
pub fn four_is_refused()
    ensures { FourIsRefused }
{}
