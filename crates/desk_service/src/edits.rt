//! Edits, and their replies.

ghost use Rattle.std.specs.Prelude.{◌≡◌};
ghost use Rattle.sqlite.specs.Held.{state};
ghost use Rattle.desk_core.specs.Edit.{asked};
ghost use Rattle.desk_store.specs.Desk.{IsEdited};
ghost use Rattle.desk_service.specs.Edits.{PutsBy};
ghost use Rattle.desk_service.specs.Edits as spec;

use desk_core::Edit;
use desk_policy::PolicyView;
use desk_store::{Desk, DeskError, Done};
use sqlite::Alter;
use std::alloc::Global;

/// The replies to an edit that is not refused, of whatever form. All four are made before the edit, so that no edit that is
/// stored or proposed goes without its reply; the number of its revision is known by then: it is one more than the edit's base.
#[derive(Drop)]
pub struct Replies<T: Drop> {
    /// The edit is stored.
    pub accepted: T,
    /// The edit was stored before.
    pub already: T,
    /// The edit is proposed, and waits for a second custodian.
    pub proposed: T,
    /// The edit was proposed before, and still waits.
    pub already_proposed: T,
}

/// Makes an edit of a desk, and returns the reply to it, or why the desk refuses it.
pub fn put<S: Alter + Drop, V: PolicyView + Drop, T: Drop>(
    alloc: Global,
    desk: &mut Desk<S, V>,
    edit: &Edit<'_>,
    replies: Replies<T>,
) -> Result<T, DeskError>
    ensures { PutsBy S.Store desk.old desk.new (asked edit.now) replies result }
{
    match edited(alloc, desk, edit) {
        Ok(done) => Ok(reply_in(replies, done)),
        Err(error) => Err(error),
    }
}

/// Returns the reply to an edit that is not refused, by what the desk answers.
fn reply_in<T: Drop>(replies: Replies<T>, done: Done) -> T
    ensures { result ≡ spec.reply_in replies done }
{
    if done.proposed {
        if done.already {
            replies.already_proposed
        } else {
            replies.proposed
        }
    } else if done.already {
        replies.already
    } else {
        replies.accepted
    }
}

/// Edits a desk. (Split off for its proof.)
fn edited<S: Alter + Drop, V: PolicyView + Drop>(
    alloc: Global,
    desk: &mut Desk<S, V>,
    edit: &Edit<'_>,
) -> Result<Done, DeskError>
    ensures { IsEdited (state S.Store desk.old.conn) (state S.Store desk.new.conn) desk.old.state desk.new.state (asked edit.now) result }
{
    desk.edit(alloc, edit)
}
