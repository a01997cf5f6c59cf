//! What the definitions of this crate keep, as a function that does nothing.

ghost use Rattle.desk_remarks.specs.Laws.{LinesLeftOutChangeNothing};

use desk_idle::idle_lines_change_nothing;

/// With any lines made comments that decide nothing, all of them at once too, every verdict stays the same.
pub fn lines_left_out_change_nothing()
    ensures { LinesLeftOutChangeNothing }
{
    idle_lines_change_nothing();
}
