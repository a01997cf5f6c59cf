//! What the definitions of this crate keep, each as a function that does nothing.

ghost use Rattle.desk_idle.specs.Laws.{IdleLinesAreListedBefore, IdleLinesChangeNothing, LinesDecideByWhatTheyBring, SiteLinesWriteDirectories, WholeLinesWriteDirectories};

use desk_policy::laws::{lines_have_directories, lines_write_their_own};

/// Each line of a policy that is read from texts writes directories of its own file system alone, at least one.
pub fn read_lines_write_directories()
    ensures site { SiteLinesWriteDirectories }
    ensures whole { WholeLinesWriteDirectories }
{
    lines_write_their_own();
    lines_have_directories();
}

/// A line decides exactly if, at some address at which it is selected, it brings something to the selected lines before it.
pub fn lines_decide_by_what_they_bring()
    ensures { LinesDecideByWhatTheyBring }
{}

/// With any lines made comments that decide nothing, all of them at once too, every verdict stays the same.
pub fn idle_lines_change_nothing()
    ensures { IdleLinesChangeNothing }
{}

/// Wherever a line is selected that decides nothing, earlier lines that are selected, too, list all that it lists.
pub fn idle_lines_are_listed_before()
    ensures { IdleLinesAreListedBefore }
{}
