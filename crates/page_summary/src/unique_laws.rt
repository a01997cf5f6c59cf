//! The summary is told in one way: a law as a function that does nothing.

ghost use Rattle.page_summary.specs.UniqueLaws.{SummaryIsToldInOneWay};

use page_data::what_is_found_is_unique;
use page_findings::lines_are_told_in_one_way;
use page_lists::lists_are_told_in_one_way;

/// The summary says one thing of one site.
pub fn summary_is_told_in_one_way()
    ensures { SummaryIsToldInOneWay }
{
    what_is_found_is_unique();
    lines_are_told_in_one_way();
    lists_are_told_in_one_way();
}
