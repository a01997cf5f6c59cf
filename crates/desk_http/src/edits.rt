//! The replies to edits.

ghost use Rattle.std.specs.Prelude.{◌≤◌, IfOk, OnErr};
ghost use Rattle.std.specs.String.{string_bytes};
ghost use Rattle.desk_core.specs.Edit.{asked};
ghost use Rattle.desk_core.specs.Head.{last_revision};
ghost use Rattle.desk_store.specs.Desk.{HasGoodDisk, StandsAt};
ghost use Rattle.desk_http_messages.specs.Replies.{memory_reply};
ghost use Rattle.desk_http.specs.PrivateAnswering.{AreReplies, EditAnswered, Gives, GivesText};

use crate::replies::{done_text, failed_text, proposed_text};
use desk_core::Edit;
use desk_policy::PolicyView;
use desk_service::{Replies, put};
use desk_store::Desk;
use sqlite::Alter;
use std::alloc::{AllocError, Global};

/// Makes an edit and writes the reply. The four replies that a success may need are made before; if one cannot be made, the desk is
/// not asked. The error is that there is no memory.
pub(crate) fn answer_edit<S: Alter + Drop, V: PolicyView + Drop>(
    alloc: Global,
    desk: &mut Desk<S, V>,
    edit: &Edit<'_>,
    ends: bool,
) -> Result<String, AllocError>
    requires { edit.now.base ≤ last_revision }
    ensures ok { IfOk result (λ text. GivesText (HasGoodDisk S.Store) (StandsAt S.Store) (EditAnswered (asked edit.now)) ends desk.old (string_bytes text) desk.new) }
    ensures err { OnErr result (Gives (HasGoodDisk S.Store) (StandsAt S.Store) (EditAnswered (asked edit.now)) desk.old memory_reply desk.new) }
{
    let rev = edit.base + 1;
    let replies = replies_to(alloc, rev, ends)?;
    match put(alloc, desk, edit, replies) {
        Ok(text) => Ok(text),
        Err(error) => failed_text(alloc, error, ends),
    }
}

/// Writes the replies that an edit may have which is not refused: that it is this revision, or is proposed as it.
fn replies_to(alloc: Global, rev: u32, ends: bool) -> Result<Replies<String>, AllocError>
    ensures { IfOk result (AreReplies string_bytes ends rev) }
{
    let accepted = done_text(alloc, false, rev, ends)?;
    let already = done_text(alloc, true, rev, ends)?;
    let proposed = proposed_text(alloc, false, rev, ends)?;
    let already_proposed = proposed_text(alloc, true, rev, ends)?;
    Ok(Replies {
        accepted,
        already,
        proposed,
        already_proposed,
    })
}
