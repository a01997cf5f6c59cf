//! What the definitions of this crate keep, each as a function that does nothing.

ghost use Rattle.page_findings.specs.Laws.{CountedLinesGrant};
ghost use Rattle.page_findings.specs.UniqueLaws.{LinesAreToldInOneWay, ReadLinesHaveFewFlavours};

use desk_exports::laws::{answers_say_what, entries_are_the_answers};
use page_data::what_is_found_is_unique;

/// A line is counted among those that grant something exactly if some address is granted something by it.
pub fn counted_lines_grant()
    ensures { CountedLinesGrant }
{}

/// What is found of the lines of a site is found in one way, by value.
pub fn lines_are_told_in_one_way()
    ensures { LinesAreToldInOneWay }
{
    what_is_found_is_unique();
}

/// The lines of a site that is read have no more flavours than there are.
pub fn read_lines_have_few_flavours()
    ensures { ReadLinesHaveFewFlavours }
{
    answers_say_what();
    entries_are_the_answers();
}
