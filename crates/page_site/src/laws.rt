//! What a page is made of, and that what it tells is told in one way, each law as a function that does nothing.

ghost use Rattle.page_site.specs.MadeOfBlocks.{PrintedPagesAreMadeOfBlocks};
ghost use Rattle.page_site.specs.UniqueLaws.{PagesAreToldInOneWay, SystemsAreToldInOneWay};

use page_data::{orders_tell_verdicts, what_is_found_is_unique};
use page_filesystem::file_systems_are_told_in_one_way;
use page_findings::{lines_are_told_in_one_way, read_lines_have_few_flavours};
use page_lists::lists_are_told_in_one_way;
use page_maps::{maps_are_told_in_one_way, networks_are_told_in_one_way};
use page_places::places_are_told_in_one_way;
use page_summary::summary_is_told_in_one_way;

/// A page is made of blocks, in which only fixed texts and the pictures of maps stand as HTML: every text of a site is escaped.
pub fn printed_pages_are_made_of_blocks()
    ensures { PrintedPagesAreMadeOfBlocks }
{}

/// What waits, by which of it clients may do more, and the parts on file systems are told in one way.
pub fn systems_are_told_in_one_way()
    ensures { SystemsAreToldInOneWay }
{
    places_are_told_in_one_way();
    file_systems_are_told_in_one_way();
    maps_are_told_in_one_way();
    orders_tell_verdicts();
    what_is_found_is_unique();
    lines_are_told_in_one_way();
}

/// Two pages of one state and for one word have the same bytes, in whatever order its newest revisions and proposals are listed.
pub fn pages_are_told_in_one_way()
    ensures { PagesAreToldInOneWay }
{
    lists_are_told_in_one_way();
    summary_is_told_in_one_way();
    lines_are_told_in_one_way();
    read_lines_have_few_flavours();
    networks_are_told_in_one_way();
    what_is_found_is_unique();
    systems_are_told_in_one_way();
}
