//! What the definitions of this crate come to, each as a function that does nothing of its own.

ghost use Rattle.desk_http.specs.Laws.{InterleavingsGoOn, InterleavingsServe, RepliesAreARun, RunsFollow, SteppingServes};

use desk_policy::PolicyView;
use sqlite::Alter;

/// A desk after one connection and then another is one after a run over the messages of both.
pub fn runs_follow<S: Alter + Drop, V: PolicyView + Drop>()
    ensures { RunsFollow S V S.Store }
{}

/// The replies to messages are a run of the desk: the edits that were replied 200 are exactly those that are stored or proposed, now or
/// before, in order, and what a crash may bring to light is what the run leaves pending. So the laws of desk_core and desk_store hold
/// behind a connection.
pub fn replies_are_a_run<S: Alter + Drop, V: PolicyView + Drop>()
    ensures { RepliesAreARun S V S.Store }
{}

/// A connection that is stepped through a stream, in whatever pieces this comes, writes the replies to it.
pub fn stepping_serves<S: Alter + Drop, V: PolicyView + Drop>()
    ensures { SteppingServes S V S.Store }
{}

/// Connections that are served beside one another are each served as alone, by a desk that answers the messages of all.
pub fn interleavings_serve<S: Alter + Drop, V: PolicyView + Drop>()
    ensures { InterleavingsServe S V S.Store }
{}

/// Connections beside one another go on by an event of one of them.
pub fn interleavings_go_on<S: Alter + Drop, V: PolicyView + Drop>()
    ensures { InterleavingsGoOn S V S.Store }
{}
