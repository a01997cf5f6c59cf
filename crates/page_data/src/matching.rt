//! Whether a line matches anybody.

ghost use Rattle.std.specs.Bool.{Decides};
ghost use Rattle.desk_idle.specs.Idle.{MatchesNobody};
ghost use Rattle.page_data.specs.PrivateLines.{IsFirstOf, IsMatchOf};

use desk_exports::Clients;
use desk_policy::{Row, RowAddrs};
use desk_text::Addr;
use desk_text::laws::covers_between_first_and_last;

/// Tests whether a line matches no address.
pub(crate) fn matches_nobody(row: &Row) -> bool
    ensures { Decides result (MatchesNobody row.now) }
{
    match some_match(row) {
        Some(_) => false,
        None => true,
    }
}

/// Finds an address that a line matches.
fn some_match(row: &Row) -> Option<Addr>
    ensures { IsMatchOf row.now result }
{
    covers_between_first_and_last();
    match &row.entry.clients {
        Clients::Hosts(_) => first_of(&row.addrs),
        Clients::Net(net, _) => Some(net.first()),
        Clients::Net6(_) => None,
        Clients::World => Some(Addr::from_number(0)),
    }
}

/// Gives the first of some addresses.
fn first_of(addresses: &RowAddrs) -> Option<Addr>
    ensures { IsFirstOf addresses.now result }
{
    match addresses.as_slice() {
        [] => None,
        [first, ..] => Some(Addr::from_number(first.number())),
    }
}
