//! What the definitions of this crate keep, each as a function that does nothing.

ghost use Rattle.page_summary.specs.Laws.{AlikeLinesShareARow, NamedLinesDecide};

/// The lines that are named in place of one that never decides are just those that decide for its clients.
pub fn named_lines_decide()
    ensures { NamedLinesDecide }
{}

/// Each line that stands out is in just one row, together with just the lines that are told alike.
pub fn alike_lines_share_a_row()
    ensures { AlikeLinesShareARow }
{}
