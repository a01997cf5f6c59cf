//! What the definitions of this crate keep, each as a function that does nothing.

ghost use Rattle.page_filesystem.specs.Laws.{EachLineHasANote, OutsideIsOutside};
ghost use Rattle.page_filesystem.specs.UniqueLaws.{FileSystemsAreToldInOneWay};

use desk_text::laws::covers_between_first_and_last;
use page_data::what_is_found_is_unique;

/// An address is in one of the ranges outside the private networks exactly if no private network has it.
pub fn outside_is_outside()
    ensures { OutsideIsOutside }
{
    covers_between_first_and_last();
}

/// If the lines of a file system are those of a text, each logical line of it has a note.
pub fn each_line_has_a_note()
    ensures { EachLineHasANote }
{}

/// What is told of a file system is told in one way.
pub fn file_systems_are_told_in_one_way()
    ensures { FileSystemsAreToldInOneWay }
{
    what_is_found_is_unique();
}
