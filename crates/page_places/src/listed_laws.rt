//! What the definitions of this crate keep, each as a function that does nothing.

ghost use Rattle.page_places.specs.ListedLaws.{ChangesAreOfWhole, ListedAddUp};

/// No place of a file system is left out: it is in a group that is listed, or counted.
pub fn listed_add_up()
    ensures { ListedAddUp }
{}

/// What lines would change at the places of a file system is what the whole policy with them would change there.
pub fn changes_are_of_whole()
    ensures { ChangesAreOfWhole }
{}
