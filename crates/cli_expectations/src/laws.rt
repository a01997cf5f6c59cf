//! What the exit status says of expectations, as a function that does nothing.

ghost use Rattle.cli_expectations.specs.Laws.{StatusZeroIsAllHold};

use desk_expect::no_broken_is_all_hold;

/// What is printed of a text of expectations has the status 0 exactly if each line of the text holds.
pub fn status_zero_is_all_hold()
    ensures { StatusZeroIsAllHold }
{
    no_broken_is_all_hold();
}
