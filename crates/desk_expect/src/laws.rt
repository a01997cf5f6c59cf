//! What the definitions of this crate keep, each as a function that does nothing.

ghost use Rattle.desk_expect.specs.FaultyLines.{FirstOfFaultsIsReported};
ghost use Rattle.desk_expect.specs.HostBits.{ToldNetworksAreMeant};
ghost use Rattle.desk_expect.specs.Laws.{NoBrokenIsAllHold, NoneBrokenIsAllHold, UnreportedLinesHold};
ghost use Rattle.desk_expect.specs.OutsideDirectories.{OutsideIsDenied};

use crate::judging::Judged;
use desk_impact::no_section_is_nothing_found;

/// Nothing is reported of a line exactly if it holds: at each address that its names mean, and for each path of its directories.
pub fn unreported_lines_hold()
    ensures { UnreportedLinesHold }
{
    no_section_is_nothing_found::<Judged<'_>>();
}

/// None of the expectations of a text is broken exactly if each of its lines holds.
pub fn no_broken_is_all_hold()
    ensures { NoBrokenIsAllHold }
{
    unreported_lines_hold();
}

/// A report counts no expectation as broken exactly if each line of their text holds.
pub fn none_broken_is_all_hold()
    ensures { NoneBrokenIsAllHold }
{
    no_broken_is_all_hold();
}

/// A directory of which neither it nor anything below it is in a file system is denied to everybody, and all below it.
pub fn outside_is_denied()
    ensures { OutsideIsDenied }
{}

/// A text is refused with a fault exactly if that is the first of its faults.
pub fn first_of_faults_is_reported()
    ensures { FirstOfFaultsIsReported }
{}

/// A name whose network is told, since it is written with host bits, means just the addresses of that network.
pub fn told_networks_are_meant()
    ensures { ToldNetworksAreMeant }
{}
