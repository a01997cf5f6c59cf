//! Storing the entry of an edit in the tables, in one transaction.

ghost use Rattle.std.specs.Prelude.{◌≡◌, ◌∷◌, [], Contains, Some, false, IsTrue, codes, option_map};
ghost use Rattle.sqlite.specs.Held.{state};
ghost use Rattle.sqlite.specs.State.{HasCleanDisk};
ghost use Rattle.sqlite.specs.declared.types.Value.TheVariants.{Text as Words};
ghost use Rattle.desk_store.specs.Create.{AddsRow, IsInside, RunsInside};
ghost use Rattle.desk_store.specs.Desk.{CommitsAtMost};
ghost use Rattle.desk_store.specs.Error.{FailsAsSaid, FailsInside, Step};
ghost use Rattle.desk_store.specs.History.{approval_of, entry_rows, proposed_row, row_of};
ghost use Rattle.desk_store.specs.Storing.{AddsApproval, AddsProposal, TakesProposal, WritesEntry, statements_of};
ghost use Rattle.desk_store.specs.Tables.{IsAtRest, IsKeyed, Stores, delete_proposal, insert_approval, insert_proposal, insert_revision};

use desk_core::{Entry, Head, Proposal};
use sqlite::{Alter, Connection, Error, Transaction, params};

/// Stores an entry, in one commit: a revision with its approval, and no proposal of its file any more; or a proposal in place of
/// any other of its file.
pub(crate) fn append_entry<S: Alter>(conn: &mut Connection<S>, entry: &Entry) -> Result<(), Error>
    requires autocommit { (state S.Store conn.old).in_transaction ≡ false }
    requires rest { HasCleanDisk (state S.Store conn.old) → IsAtRest (state S.Store conn.old) }
    requires keyed { HasCleanDisk (state S.Store conn.old) → IsTrue (state S.Store conn.old).is_open → IsKeyed (state S.Store conn.old).committed (codes "proposal") }
    ensures commits { CommitsAtMost (Stores (entry_rows entry.now)) (state S.Store conn.old) (state S.Store conn.new) result }
    ensures said { FailsAsSaid S.Store (Contains (statements_of entry.now)) conn.old conn.new result }
{
    let mut tx = conn.transaction();
    write_entry(&mut tx, entry)?;
    tx.commit()
}

/// Writes the rows of an entry.
fn write_entry<S: Alter>(tx: &mut Transaction<'_, S>, entry: &Entry) -> Result<(), Error>
    ensures same_reference { tx.new.conn.ghost_name ≡ tx.old.conn.ghost_name }
    ensures written { RunsInside (state S.Store tx.old.conn.now) (state S.Store tx.new.conn.now) result (WritesEntry entry.now) }
    ensures said { FailsInside S.Store (Contains (statements_of entry.now)) tx.old.conn.now tx.new.conn.now result }
{
    match entry {
        Entry::Revised(head) => {
            take_proposal(tx, head.file.as_str())?;
            add_revision(tx, head)?;
            add_approval(tx, head)
        }
        Entry::Proposed(proposal) => {
            take_proposal(tx, proposal.file.as_str())?;
            add_proposal(tx, proposal)
        }
    }
}

/// Adds the row of a revision.
pub(crate) fn add_revision<S: Alter>(tx: &mut Transaction<'_, S>, head: &Head) -> Result<(), Error>
    ensures same_reference { tx.new.conn.ghost_name ≡ tx.old.conn.ghost_name }
    ensures added { RunsInside (state S.Store tx.old.conn.now) (state S.Store tx.new.conn.now) result (AddsRow (row_of head.now)) }
    ensures said { FailsInside S.Store (λ s. s ≡ Step insert_revision (row_of head.now)) tx.old.conn.now tx.new.conn.now result }
{
    tx.execute(
        "INSERT INTO file_rev(file, rev, author, profile, body) VALUES(?1, ?2, ?3, ?4, ?5)",
        params![
            head.file.as_str(),
            i64::from(head.rev),
            head.author.as_str(),
            i64::from(head.profile.number()),
            head.body.as_str().as_bytes()
        ],
    )?;
    Ok(())
}

/// Adds the row of a revision's approval, if it was approved.
fn add_approval<S: Alter>(tx: &mut Transaction<'_, S>, head: &Head) -> Result<(), Error>
    requires inside { HasCleanDisk (state S.Store tx.old.conn.now) → IsInside (state S.Store tx.old.conn.now) }
    ensures same_reference { tx.new.conn.ghost_name ≡ tx.old.conn.ghost_name }
    ensures added { RunsInside (state S.Store tx.old.conn.now) (state S.Store tx.new.conn.now) result (AddsApproval (approval_of head.now)) }
    ensures said { FailsInside S.Store (λ s. option_map (Step insert_approval) (approval_of head.now) ≡ Some s) tx.old.conn.now tx.new.conn.now result }
{
    if let Some(approver) = &head.approver {
        tx.execute(
            "INSERT INTO approval(file, rev, approver) VALUES(?1, ?2, ?3)",
            params![head.file.as_str(), i64::from(head.rev), approver.as_str()],
        )?;
    }
    Ok(())
}

/// Takes the proposal of a file out, if it has one.
fn take_proposal<S: Alter>(tx: &mut Transaction<'_, S>, file: &str) -> Result<(), Error>
    ensures same_reference { tx.new.conn.ghost_name ≡ tx.old.conn.ghost_name }
    ensures taken { RunsInside (state S.Store tx.old.conn.now) (state S.Store tx.new.conn.now) result (TakesProposal file.now) }
    ensures said { FailsInside S.Store (λ s. s ≡ Step delete_proposal (Words file.now ∷ [])) tx.old.conn.now tx.new.conn.now result }
{
    tx.execute("DELETE FROM proposal WHERE file = ?1", params![file])?;
    Ok(())
}

/// Adds the row of a proposal.
fn add_proposal<S: Alter>(tx: &mut Transaction<'_, S>, proposal: &Proposal) -> Result<(), Error>
    ensures same_reference { tx.new.conn.ghost_name ≡ tx.old.conn.ghost_name }
    ensures added { RunsInside (state S.Store tx.old.conn.now) (state S.Store tx.new.conn.now) result (AddsProposal (proposed_row proposal.now)) }
    ensures said { FailsInside S.Store (λ s. s ≡ Step insert_proposal (proposed_row proposal.now)) tx.old.conn.now tx.new.conn.now result }
{
    tx.execute(
        "INSERT INTO proposal(file, base, author, body) VALUES(?1, ?2, ?3, ?4)",
        params![
            proposal.file.as_str(),
            i64::from(proposal.base),
            proposal.author.as_str(),
            proposal.body.as_str().as_bytes()
        ],
    )?;
    Ok(())
}
