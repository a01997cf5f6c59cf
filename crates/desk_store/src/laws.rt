//! What the definitions of this crate come to, each as a function that does nothing of its own.

ghost use Rattle.desk_store.specs.Laws.{AnsweredEditsKeepSiteHistories, CallsAreARun, CrashesLeaveDesks, CrashesLeaveFirstHistories, DeclaredTablesAreOurs, EditsAreARun, OneHistory, PendingEditsHaveNoAnswer, StopsInOpeningLeaveDesks};

use desk_core::{
    answered_edits_keep_the_numbers, answers_are_right, known_files_have_names,
    standing_of_a_longer_history,
};
use desk_policy::PolicyView;
use sqlite::Alter;

/// After any edits on a good disk the answers are a run of the histories, and the desk stands at the run's last history.
pub fn edits_are_a_run<S: Alter + Drop, V: PolicyView + Drop>()
    ensures { EditsAreARun S V S.Store }
{}

/// After any edits and looks on a good disk each answer is right at the history at which the desk stood then, the edits are a
/// run, and the desk stands at the run's last history.
pub fn calls_are_a_run<S: Alter + Drop, V: PolicyView + Drop>()
    ensures { CallsAreARun S V S.Store }
{}

/// An entry that a crash may still bring to light is that of an edit that had no answer, after the last stored one.
pub fn pending_edits_have_no_answer()
    ensures { PendingEditsHaveNoAnswer }
{}

/// What a crash leaves of a desk is a database of this project, with the history at which the desk stood, or that and one of the
/// entries whose edits had no answer: no `open` answers `Schema` of it, and a desk that opens on it stands there.
pub fn crashes_leave_desks<S: Alter + Drop, T: Alter + Drop, V: PolicyView + Drop>()
    ensures { CrashesLeaveDesks S T V S.Store T.Store }
{}

/// What a stop while a desk is made leaves is what could be left before, or a database of this project with the site's first
/// revisions: no `open` answers `Schema` of that, and a desk that opens on it stands there.
pub fn crashes_leave_first_histories<S: Alter + Drop, T: Alter + Drop, V: PolicyView + Drop>()
    ensures { CrashesLeaveFirstHistories S T V S.Store T.Store }
{}

/// What a stop while a desk is opened leaves is a database of this project, with the same histories.
pub fn stops_in_opening_leave_desks<S: Alter + Drop, T: Alter + Drop>()
    ensures { StopsInOpeningLeaveDesks S T S.Store T.Store }
{}

/// The same tables hold one history, file by file: the order in which their rows are read does not matter.
pub fn one_history()
    ensures { OneHistory }
{}

/// Tables that a database declares as the project's are the project's tables.
pub fn declared_tables_are_ours()
    ensures { DeclaredTablesAreOurs }
{}

/// The history of a site with what an answered edit adds is one, too: no `open` answers `Schema` of tables that hold it.
pub fn answered_edits_keep_site_histories()
    ensures { AnsweredEditsKeepSiteHistories }
{
    answers_are_right();
    known_files_have_names();
    standing_of_a_longer_history();
    answered_edits_keep_the_numbers()
}
