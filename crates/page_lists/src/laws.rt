//! What holds of the word for the database, and of the rows, each as a function that does nothing.

ghost use Rattle.page_lists.specs.Laws.{ShellsTakeWords};
ghost use Rattle.page_lists.specs.Ranges.{RangesAreLongest};
ghost use Rattle.page_lists.specs.UniqueLaws.{ListsAreToldInOneWay};

/// A shell takes the word that is made of a text for this text.
pub fn shells_take_words()
    ensures { ShellsTakeWords }
{}

/// Addresses that ascend stand in the longest ranges that have them.
pub fn ranges_are_longest()
    ensures { RangesAreLongest }
{}

/// What is listed of a site is told in one way.
pub fn lists_are_told_in_one_way()
    ensures { ListsAreToldInOneWay }
{}
