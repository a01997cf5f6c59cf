//! What the definitions of this crate keep, each as a function that does nothing.

ghost use Rattle.desk_why.specs.Laws.{HeaviestAreSelected, MatchingLinesAreByWeight, VerdictsAreWhatLinesSay};

/// The verdict on a path is what the lines that match say.
pub fn verdicts_are_what_lines_say()
    ensures { VerdictsAreWhatLinesSay }
{}

/// Those of the lines that match that are as heavy as the first are the selected ones.
pub fn heaviest_are_selected()
    ensures { HeaviestAreSelected }
{}

/// Each line that matches is listed once, and none is heavier than one before it.
pub fn matching_lines_are_by_weight()
    ensures { MatchingLinesAreByWeight }
{}
