//! What the definitions of this crate keep, each as a function that does nothing.

ghost use Rattle.desk_index.specs.Laws.{SelectFindsTheSelectedLines};

use desk_policy::lines_are_selected_by_keys;

/// What `select` finds through a `Probes` are exactly the lines that are selected for the address.
pub fn select_finds_the_selected_lines()
    ensures { SelectFindsTheSelectedLines }
{
    lines_are_selected_by_keys();
}
