//! What the definitions of this crate keep, each as a function that does nothing.

ghost use Rattle.page_places.specs.Laws.{TablesHaveSizes};
ghost use Rattle.page_places.specs.UniqueLaws.{PlacesAreToldInOneWay};

use desk_impact::impacts_are_unique;
use page_data::{groups_can_be_tabled, tables_add_up, what_is_found_is_unique};
use page_maps::maps_are_told_in_one_way;

/// No row of the table of a group has more addresses than there are.
pub fn tables_have_sizes()
    ensures { TablesHaveSizes }
{
    tables_add_up();
}

/// What changes at the places of a file system, and who may mount them, is told in one way.
pub fn places_are_told_in_one_way()
    ensures { PlacesAreToldInOneWay }
{
    what_is_found_is_unique();
    impacts_are_unique();
    groups_can_be_tabled();
    maps_are_told_in_one_way();
}
