//! What the definitions of this crate come to, each as a function that does nothing.

ghost use Rattle.desk_netgroup.specs.Laws.{FaultsFollowGoodLines, FirstOfFaultsIsReported, HostsAreLeast, HostsAreReached, OrderKeepsTheHosts, TokensAreTheText};

/// Says that the tokens of a text are its characters without the blanks, and that two words stand
/// side by side only with a blank between them.
pub fn tokens_are_the_text()
    ensures { TokensAreTheText }
{}

/// Says that the hosts of groups are the least sets that have the hosts of each group's own triples
/// and those of its member groups.
pub fn hosts_are_least()
    ensures { HostsAreLeast }
{}

/// Says that a host is a group's exactly if a chain of groups, each a member of the one before, leads
/// to a triple with it.
pub fn hosts_are_reached()
    ensures { HostsAreReached }
{}

/// Says that the hosts of a group, in the order in which a walk first meets them, are just its hosts,
/// without duplicates.
pub fn order_keeps_the_hosts()
    ensures { OrderKeepsTheHosts }
{}

/// Says that the fault that a refused file reports is the first of those that it is told to have.
pub fn first_of_faults_is_reported()
    ensures { FirstOfFaultsIsReported }
{}

/// Says that the faults of lines and further ones are those of the lines, and those of the further
/// ones after the groups that the good lines among them define.
pub fn faults_follow_good_lines()
    ensures { FaultsFollowGoodLines }
{}
