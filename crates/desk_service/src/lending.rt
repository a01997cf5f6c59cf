//! What a desk keeps, lent as a whole.

ghost use Rattle.std.specs.Prelude.{◌≡◌};
ghost use Rattle.desk_core.specs.History.{standing_of};
ghost use Rattle.desk_core.specs.Standing.{PendOnce};
ghost use Rattle.desk_core.specs.State.{standing};
ghost use Rattle.desk_store.specs.Desk.{History, StandsAt};

use desk_core::State;
use desk_policy::PolicyView;
use desk_store::Desk;
use sqlite::Alter;

/// Lends the newest revisions and the proposals, with the site in force, for a report: that is made of more than a question answers.
/// This takes no statement.
pub fn lend_state<S: Alter + Drop, V: PolicyView + Drop>(desk: &Desk<S, V>) -> &State<V>
    ensures state { result.now ≡ desk.now.state }
    ensures once { PendOnce desk.now.state.proposals }
    ensures stood_at { (history pending : History) → StandsAt S.Store desk.now history pending
        → standing desk.now.state ≡ standing_of history }
{
    desk.current()
}
