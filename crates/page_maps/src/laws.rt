//! What maps show, what a map has, and what is told of the maps that are needed, each law as a function that does nothing.

ghost use Rattle.page_maps.specs.Grounds.{GroundsHaveJustTheCells};
ghost use Rattle.page_maps.specs.Laws.{CellsCoverTheNetwork, MapsAreExactTogether, MapsAreToldInOneWay, NeededMapsAreTold, NetworksAreToldInOneWay, SeamsAreShown};

use desk_text::laws::covers_between_first_and_last;

/// Every address at which the class changes lies on the grid of a map.
pub fn seams_are_shown()
    ensures { SeamsAreShown }
{}

/// The cells of a map have each address of the network once.
pub fn cells_cover_the_network()
    ensures { CellsCoverTheNetwork }
{
    covers_between_first_and_last();
}

/// Two lists of classes with the same maps, and the same cells on each, are the same.
pub fn maps_are_exact_together()
    ensures { MapsAreExactTogether }
{}

/// The path of grounds has just the cells that are meant, each of them once.
pub fn grounds_have_just_the_cells()
    ensures { GroundsHaveJustTheCells }
{}

/// All maps that are needed are drawn, or counted by prefix.
pub fn needed_maps_are_told()
    ensures { NeededMapsAreTold }
{}

/// Given the runs of a function of addresses, there is at most one text of its maps.
pub fn maps_are_told_in_one_way()
    ensures { MapsAreToldInOneWay }
{}

/// There is at most one text of the table of the networks that lines write.
pub fn networks_are_told_in_one_way()
    ensures { NetworksAreToldInOneWay }
{}
