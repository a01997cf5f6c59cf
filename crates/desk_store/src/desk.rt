//! A desk: a connection to a database, and the state that its tables stand for.

ghost use Rattle.std.specs.Prelude.{◌≡◌, ◌≢◌, ◌+◌, ◌≤◌, ℕ, Contains, List, [], false, Err, IfErr, IfOk, IsTrue, None, Ok, length, map, option_copied};
ghost use Rattle.sqlite.specs.Held.{state};
ghost use Rattle.sqlite.specs.State.{HasCleanDisk, Survives};
ghost use Rattle.desk_policy.specs.Parsing.{read_site_tables};
ghost use Rattle.desk_policy.specs.Site.{texts_of};
ghost use Rattle.desk_core.specs.Edit.{asked};
ghost use Rattle.desk_core.specs.Foresight.{Foresees, ForeseesSite, TellsSite, with_text};
ghost use Rattle.desk_core.specs.Head.{longest_revision, newest_in};
ghost use Rattle.desk_core.specs.History.{newest_of, revisions_of, standing_of};
ghost use Rattle.desk_core.specs.Judging.{entry_of, first_case};
ghost use Rattle.desk_core.specs.Site.{IsConsistent, IsInForce, site_in};
ghost use Rattle.desk_core.specs.Standing.{PendOnce, proposals_in};
ghost use Rattle.desk_core.specs.State.{standing};
ghost use Rattle.desk_store.specs.Create.{IsMade, JudgesSite, MayMake, RefusesToCreate, answer_of, first_revisions};
ghost use Rattle.desk_store.specs.Desk.{AddsNothing, CommitsOne, HasGoodDisk, HasStored, History, IsAccepted, IsEdited, IsInUtf8, IsJudgedBy, LeavesTables, StandsAt, StaysAsItWas, StepsTo, is_proposed, revision_at, signature_of, stored_of, told};
ghost use Rattle.desk_store.specs.Error.{TellsSaid};
ghost use Rattle.desk_store.specs.History.{entry_rows};
ghost use Rattle.desk_store.specs.Looks.{numbers_queries, revision_queries, signature_queries};
ghost use Rattle.desk_store.specs.Open.{IsOfOpening, IsOurs, LeavesOpened, MayMigrate, OpensAt, TellsMemory, TellsOpening, held_in};
ghost use Rattle.desk_store.specs.Rows.{IsOfEdit, IsOfTask, TellsLook};
ghost use Rattle.desk_store.specs.Storing.{statements_of};
ghost use Rattle.desk_store.specs.Tables.{LeavesCommit};
ghost use Rattle.desk_store.specs.declared.error.DeskError.TheVariants as error;
ghost use Rattle.desk_store.specs.declared.error.Task.TheVariants as tasks;

use crate::creating::create_state;
use crate::database::read_state;
use crate::error::{CreateError, DeskError, Task};
use crate::laws::answered_edits_keep_site_histories;
use crate::rows::{find_revision, list_revisions, not_stored};
use crate::signatures::list_signatures;
use crate::storing::append_entry;
use crate::tables::{read_approver, read_approvers, read_numbers, read_revision};
use desk_core::{
    Accepted, Edit, Entry, ForeseenSite, Foresight, Head, Judged, Proposal, State,
    standing_of_a_longer_history,
};
use desk_exports::Profile;
use desk_policy::{PolicyView, Site, SiteFault, SiteTables};
use desk_text::{ReadError, Sequence, Text};
use sqlite::{Alter, Connection};
use std::alloc::Global;
use std::marker::Model;

/// A desk over any store, with any view.
pub struct Desk<S: Alter + Drop, V: PolicyView + Drop> {
    conn: Connection<S>,
    current: State<V>,
}

// It is written out, so that the crates above do not prove again how each part is dropped.
impl<S: Alter + Drop, V: PolicyView + Drop> Drop for Desk<S, V> {
    fn drop(self) {
        let Desk {
            conn: _,
            current: _,
        } = self;
    }
}

impl<S: Alter + Drop, V: PolicyView + Drop> Model for Desk<S, V> {
    ghost use Rattle.std.specs.Prelude.{◌≡◌, false};
    ghost use Rattle.sqlite.specs.Held.{state};
    ghost use Rattle.sqlite.specs.State.{HasCleanDisk};
    ghost use Rattle.desk_core.specs.Standing.{PendOnce};
    ghost use Rattle.desk_store.specs.Desk.{IsDesk, Shown, shown_code};

    ghost Value = { Shown S V };

    ghost coded = { shown_code S.code V.code };

    ghost view = { λ d. record { conn = d.conn; state = d.current } };

    ghost invariant = { λ d. ((state S.Store d.conn).in_transaction ≡ false) × (HasCleanDisk (state S.Store d.conn) → IsDesk (state S.Store d.conn) d.current) × PendOnce d.current.proposals };
}

/// What an edit is answered that is not refused.
#[derive(Clone, Copy)]
pub struct Done {
    /// The number of its revision.
    pub rev: u32,
    /// Whether it was stored, or proposed, before.
    pub already: bool,
    /// Whether it is proposed, and waits for a second custodian.
    pub proposed: bool,
}

/// A stored revision.
#[derive(Drop)]
pub struct Revision {
    pub author: Text,
    /// Who approved it, if its file was guarded.
    pub approver: Option<Text>,
    /// The profile by which it is read.
    pub profile: Profile,
    pub body: Text,
}

/// Who signed a stored revision.
#[derive(Drop)]
pub struct Signature {
    pub rev: u32,
    pub author: Text,
    /// Who approved it, if its file was guarded.
    pub approver: Option<Text>,
    /// The profile by which it is read.
    pub profile: Profile,
}

impl<S: Alter + Drop, V: PolicyView + Drop> Desk<S, V> {
    /// Opens a desk on the database of a connection; `Schema` if it is not one of this project. Beside an error the connection
    /// is handed back.
    pub fn open(
        alloc: Global,
        mut conn: Connection<S>,
    ) -> Result<Desk<S, V>, (DeskError, Connection<S>)>
        requires autocommit { (state S.Store conn).in_transaction ≡ false }

        // The desk stands at the history that the tables hold, and nothing is pending: a crash leaves these tables.
        ensures opened { IfOk result (λ desk. HasGoodDisk S.Store desk → OpensAt S.Store (state S.Store conn).committed desk) }
        ensures durable { IfOk result (λ desk. HasGoodDisk S.Store desk → IsTrue (state S.Store desk.conn).is_open × LeavesCommit (state S.Store desk.conn)) }

        // An error is `Schema`, out of memory, or a look that was refused, told as SQLite said it; `Schema` only if the tables are not
        // those of a site's history; and of a database of another version not out of memory, but where SQLite said so.
        ensures errors { IfErr result (λ both. IsOfOpening both.0) }
        ensures said { IfErr result (λ both. HasCleanDisk (state S.Store both.1) → TellsOpening S.Store conn both.1 both.0) }
        ensures memory { IfErr result (λ both. HasCleanDisk (state S.Store both.1) → both.0 ≡ error.Memory → TellsMemory S.Store conn both.1) }
        ensures foreign { IfErr result (λ both. HasCleanDisk (state S.Store both.1) → both.0 ≡ error.Schema → ¬ IsOurs (state S.Store conn).committed) }

        // A database of version 1 is made one of version 2, with the same history, in one commit; any other stays as it is. Beside an
        // error the tables are as before. A crash leaves what it could before, or that one commit; and no transaction is open.
        ensures tables { IfOk result (λ desk. HasGoodDisk S.Store desk → LeavesOpened (state S.Store conn).committed (state S.Store desk.conn).committed) }
        ensures unchanged { IfErr result (λ both. HasCleanDisk (state S.Store both.1) → IsTrue (state S.Store both.1).is_open → (state S.Store both.1).committed ≡ (state S.Store conn).committed) }
        ensures crash { Survives (state S.Store conn) (state S.Store (held_in result)) (MayMigrate (state S.Store conn)) }
        ensures mode { (state S.Store (held_in result)).in_transaction ≡ false }
    {
        match read_state(alloc, &mut conn) {
            Ok(current) => Ok(Desk { conn, current }),
            Err(e) => Err((e, conn)),
        }
    }

    /// Lends the newest revisions and the proposals, with the site in force. This takes no statement.
    pub fn current(&self) -> &State<V>
        ensures state { result.now ≡ self.now.state }
        ensures once { PendOnce self.now.state.proposals }
    {
        &self.current
    }

    /// Lends the view of the policy in force.
    pub fn view(&self) -> &V
        ensures value { result.now ≡ self.now.state.view }
        ensures in_force { IsInForce (site_in (newest_in self.now.state.heads)) (V.in_force result.now) }
        ensures stood_at { (history pending : History) → StandsAt S.Store self.now history pending
            → IsInForce (site_in (newest_of history)) (V.in_force result.now) }
    {
        self.current.view()
    }

    /// Lends the tables in force, which exports files are read with. This takes no statement.
    pub fn tables(&self) -> &SiteTables
        ensures tables { read_site_tables (site_in (newest_in self.now.state.heads)) ≡ Ok result.now }
        ensures stood_at { (history pending : History) → StandsAt S.Store self.now history pending
            → read_site_tables (site_in (newest_of history)) ≡ Ok result.now }
    {
        self.current.tables()
    }

    /// Finds the newest revision of a file. This takes no statement.
    pub fn newest(&self, file: &str) -> Option<&Head>
        ensures newest { option_copied result ≡ newest_in self.now.state.heads file.now }
        ensures stood_at { (history pending : History) → StandsAt S.Store self.now history pending
            → option_copied result ≡ newest_of history file.now }
    {
        self.current.newest(file)
    }

    /// Lends the newest revision of each file, in no order. This takes no statement.
    pub fn heads(&self) -> &[Head]
        ensures heads { result.now ≡ self.now.state.heads }
        ensures stood_at { (history pending : History) → StandsAt S.Store self.now history pending
            → (file : List ℕ) → newest_in result.now file ≡ newest_of history file }
    {
        self.current.heads()
    }

    /// Lends the proposals, at most one of each file, in no order. This takes no statement.
    pub fn proposals(&self) -> &[Proposal]
        ensures proposals { result.now ≡ self.now.state.proposals }
        ensures once { PendOnce result.now }
        ensures stood_at { (history pending : History) → StandsAt S.Store self.now history pending
            → (file : List ℕ) → proposals_in result.now file ≡ (standing_of history).proposals file }
    {
        self.current.proposals()
    }

    /// Finds the proposal of a file. This takes no statement.
    pub fn proposal(&self, file: &str) -> Option<&Proposal>
        ensures proposal { option_copied result ≡ proposals_in self.now.state.proposals file.now }
        ensures stood_at { (history pending : History) → StandsAt S.Store self.now history pending
            → option_copied result ≡ (standing_of history).proposals file.now }
    {
        self.current.proposal(file)
    }

    /// Makes what would be in force if a file had this text, read by profile 2 as that of an edit is, or gives the fault of the
    /// site with it. This takes no statement, and if it is the exports file of a listed mount point, no other file is read.
    pub fn foresee(
        &self,
        alloc: Global,
        file: &str,
        text: &str,
    ) -> Result<Foresight<V>, ReadError<SiteFault>>
        requires { length text.now ≤ longest_revision }
        ensures { Foresees V.in_force self.now.state file.now text.now result }
    {
        self.current.foresee(alloc, file, text)
    }

    /// Makes the whole site that would be in force if a file had this text, read by profile 2 as that of an edit is, or gives the
    /// fault of that site. This takes no statement.
    pub fn foresee_site(
        &self,
        alloc: Global,
        file: &str,
        text: &str,
    ) -> Result<ForeseenSite<V>, ReadError<SiteFault>>
        requires { length text.now ≤ longest_revision }
        ensures foreseen { ForeseesSite V.in_force self.now.state file.now text.now result }
        ensures stood_at { (history pending : History) → StandsAt S.Store self.now history pending
            → TellsSite V.in_force (site_in (with_text (newest_of history) file.now text.now)) result }
    {
        self.current.foresee_site(alloc, file, text)
    }

    /// Judges an edit, stores its revision or its proposal in one commit, and puts a revision in force. The reply can be made
    /// before.
    pub fn edit(&mut self, alloc: Global, edit: &Edit<'_>) -> Result<Done, DeskError>
        ensures number { IfOk result (λ done. done.rev ≡ edit.now.base + 1) }

        // Whatever the disk does, the answer is by the newest revisions of the desk, which are then those after it.
        ensures judged { IsJudgedBy self.old.state self.new.state (asked edit.now) result }

        // Wherever the desk stood, the edit is answered by that history, and the desk stands at the history after it.
        ensures step { HasGoodDisk S.Store self.new → (history pending : History)
            → StandsAt S.Store self.old history pending
            → StepsTo S.Store self.new (asked edit.now) (told result) history pending }
        ensures unanswered { told result ≡ None → first_case (standing self.old.state) (asked edit.now) ≡ None }
        ensures schema { result ≢ Err error.Schema }
        ensures errors { IfErr result IsOfEdit }

        // A refused statement is one of those that store the edit's entry, and its error is told as SQLite said it.
        ensures said { HasGoodDisk S.Store self.new → IfErr result
            (TellsSaid S.Store (Contains (statements_of (entry_of (standing self.old.state) (asked edit.now)))) self.old.conn self.new.conn) }

        // What was not stored changed nothing.
        ensures unchanged { AddsNothing self.old.state (asked edit.now) (told result) → self.new.state ≡ self.old.state }
        ensures tables { HasGoodDisk S.Store self.new → IsTrue (state S.Store self.new.conn).is_open → AddsNothing self.old.state (asked edit.now) (told result)
            → (state S.Store self.new.conn).committed ≡ (state S.Store self.old.conn).committed }

        // A crash at any moment leaves what it could before, or the edit's one commit. Once the edit is answered as stored or as
        // proposed, its rows stand in the tables, and a crash leaves that.
        ensures crash { Survives (state S.Store self.old.conn) (state S.Store self.new.conn)
            (CommitsOne self.old.state (asked edit.now) (told result) (state S.Store self.old.conn).committed) }
        ensures durable { HasGoodDisk S.Store self.new → ¬ AddsNothing self.old.state (asked edit.now) (told result)
            → HasStored (entry_rows (entry_of (standing self.old.state) (asked edit.now))) (state S.Store self.old.conn) (state S.Store self.new.conn) }
    {
        // The view is that of a consistent site.
        let _view = self.current.view();
        self.judged(alloc, edit)
    }

    /// Reads a stored revision of a file; none if the file has no revision with this number. An error changes nothing.
    pub fn revision(
        &mut self,
        alloc: Global,
        file: &str,
        rev: u32,
    ) -> Result<Option<Revision>, DeskError>
        ensures stays { StaysAsItWas S.Store self.old self.new }
        ensures found { HasGoodDisk S.Store self.new → (history pending : History)
            → StandsAt S.Store self.old history pending
            → IfOk result (λ found. found ≡ stored_of (revision_at history file.now rev)) }
        ensures errors { IfErr result (IsOfTask tasks.ReadRevisions) }
        ensures said { HasGoodDisk S.Store self.new
            → IfErr result (TellsLook S.Store (Contains (revision_queries file.now rev)) self.old.conn self.new.conn) }
        ensures tables { LeavesTables (state S.Store self.old.conn) (state S.Store self.new.conn) }
    {
        let rows = match read_revision(&mut self.conn, file, rev) {
            Ok(rows) => rows,
            Err(e) => return Err(not_stored(Task::ReadRevisions, e)),
        };
        match read_approver(&mut self.conn, file, rev) {
            Ok(approvals) => find_revision(alloc, rows.as_slice(), approvals.as_slice()),
            Err(e) => {
                drop(rows);
                Err(not_stored(Task::ReadRevisions, e))
            }
        }
    }

    /// Lists the numbers and authors of a file's revisions, in order. An error changes nothing.
    pub fn revisions(
        &mut self,
        alloc: Global,
        file: &str,
    ) -> Result<Sequence<(u32, Text)>, DeskError>
        ensures stays { StaysAsItWas S.Store self.old self.new }
        ensures found { HasGoodDisk S.Store self.new → (history pending : History)
            → StandsAt S.Store self.old history pending
            → IfOk result (λ found. found ≡ map (λ r. (r.rev, r.author)) (revisions_of file.now history)) }
        ensures errors { IfErr result (IsOfTask tasks.ReadRevisions) }
        ensures said { HasGoodDisk S.Store self.new
            → IfErr result (TellsLook S.Store (Contains (numbers_queries file.now)) self.old.conn self.new.conn) }
        ensures tables { LeavesTables (state S.Store self.old.conn) (state S.Store self.new.conn) }
    {
        match read_numbers(&mut self.conn, file) {
            Ok(rows) => list_revisions(alloc, rows.as_slice()),
            Err(e) => Err(not_stored(Task::ReadRevisions, e)),
        }
    }

    /// Lists who signed a file's revisions, in the order of their numbers. An error changes nothing.
    pub fn signatures(
        &mut self,
        alloc: Global,
        file: &str,
    ) -> Result<Sequence<Signature>, DeskError>
        ensures stays { StaysAsItWas S.Store self.old self.new }
        ensures found { HasGoodDisk S.Store self.new → (history pending : History)
            → StandsAt S.Store self.old history pending
            → IfOk result (λ found. found ≡ map signature_of (revisions_of file.now history)) }
        ensures errors { IfErr result (IsOfTask tasks.ReadRevisions) }
        ensures said { HasGoodDisk S.Store self.new
            → IfErr result (TellsLook S.Store (Contains (signature_queries file.now)) self.old.conn self.new.conn) }
        ensures tables { LeavesTables (state S.Store self.old.conn) (state S.Store self.new.conn) }
    {
        let rows = match read_numbers(&mut self.conn, file) {
            Ok(rows) => rows,
            Err(e) => return Err(not_stored(Task::ReadRevisions, e)),
        };
        match read_approvers(&mut self.conn, file) {
            Ok(approvals) => list_signatures(alloc, rows.as_slice(), approvals.as_slice()),
            Err(e) => {
                drop(rows);
                Err(not_stored(Task::ReadRevisions, e))
            }
        }
    }

    /// Gives the connection back, as it stands, with no transaction open.
    pub fn into_connection(self) -> Connection<S>
        ensures same { result ≡ self.conn }
        ensures mode { (state S.Store result).in_transaction ≡ false }
    {
        let Desk { conn, current: _ } = self;
        conn
    }

    /// Makes the tables of a desk in the database of a connection, with revision 1 of each file of a site, by `site`, all in one
    /// commit. Nothing is made if one of the tables is there, or a view, an index or a trigger has one of their names; if a text
    /// that is stored has more than 65,536 bytes; or if the site has a fault. Beside a refusal the connection is handed back.
    pub fn create(
        alloc: Global,
        mut conn: Connection<S>,
        site: &Site,
    ) -> Result<Desk<S, V>, (CreateError, Connection<S>)>
        requires autocommit { (state S.Store conn).in_transaction ≡ false }

        // The desk stands at the first revisions, in tables beside what was there, and a crash leaves just that.
        ensures made { IfOk result (λ desk. HasGoodDisk S.Store desk → IsMade (state S.Store conn) (state S.Store desk.conn) (texts_of site.now) desk.state) }

        // Whatever the disk does, a desk is made only of a consistent site, and has its first revisions; and a site is refused only
        // for what it is.
        ensures judged { JudgesSite (texts_of site.now) (answer_of result) }
        ensures heads { IfOk result (λ desk. desk.state.heads ≡ first_revisions (texts_of site.now)) }
        ensures proposals { IfOk result (λ desk. desk.state.proposals ≡ []) }

        // A refusal names the first reason in the order of `RefusesToCreate`, or out of memory or a refused statement. While the
        // store is open the tables are as before; what a crash leaves is said below.
        ensures refused { IfErr result (λ both. HasCleanDisk (state S.Store both.1) → RefusesToCreate (state S.Store conn).committed.schema (texts_of site.now) both.0) }
        ensures unchanged { IfErr result (λ both. HasCleanDisk (state S.Store both.1) → IsTrue (state S.Store both.1).is_open
            → (state S.Store both.1).committed ≡ (state S.Store conn).committed) }

        // A crash at any moment leaves what it could before, or the one commit; and no transaction is open.
        ensures crash { Survives (state S.Store conn) (state S.Store (held_in result)) (MayMake (state S.Store conn) (texts_of site.now) (answer_of result)) }
        ensures mode { (state S.Store (held_in result)).in_transaction ≡ false }
    {
        match create_state(alloc, &mut conn, site) {
            Ok(current) => Ok(Desk { conn, current }),
            Err(e) => Err((e, conn)),
        }
    }

    /// Answers an edit by what it is judged.
    fn judged(&mut self, alloc: Global, edit: &Edit<'_>) -> Result<Done, DeskError>
        requires sound { IsConsistent (site_in (newest_in self.old.state.heads)) }
        ensures edited { IsEdited (state S.Store self.old.conn) (state S.Store self.new.conn) self.old.state self.new.state (asked edit.now) result }
        ensures errors { IfErr result IsOfEdit }
        ensures said { HasGoodDisk S.Store self.new → IfErr result
            (TellsSaid S.Store (Contains (statements_of (entry_of (standing self.old.state) (asked edit.now)))) self.old.conn self.new.conn) }
    {
        match self.current.judge(alloc, edit) {
            Ok(Judged::Already { rev, proposed }) => Ok(Done {
                rev,
                already: true,
                proposed,
            }),
            Ok(Judged::Accepted(accepted)) => self.store(edit, accepted),
            Err(ReadError::Fault(refusal)) => Err(DeskError::Refused(refusal)),
            Err(ReadError::Memory) => Err(DeskError::Memory),
        }
    }

    /// Stores the revision or the proposal of an edit that this desk, as it is, has accepted, and puts a revision in force.
    fn store(&mut self, edit: &Edit<'_>, accepted: Accepted<V>) -> Result<Done, DeskError>
        requires sound { IsConsistent (site_in (newest_in self.old.state.heads)) }
        requires accepted { IsAccepted V.in_force self.old.state (asked edit.now) accepted }
        ensures edited { IsEdited (state S.Store self.old.conn) (state S.Store self.new.conn) self.old.state self.new.state (asked edit.now) result }
        ensures errors { IfErr result IsOfEdit }
        ensures said { HasGoodDisk S.Store self.new → IfErr result
            (TellsSaid S.Store (Contains (statements_of (entry_of (standing self.old.state) (asked edit.now)))) self.old.conn self.new.conn) }
    {
        standing_of_a_longer_history();
        answered_edits_keep_site_histories();
        texts_are_utf8(edit);
        let rev = edit.base + 1;
        let proposed = is_proposed(accepted.entry());
        if let Err(e) = append_entry(&mut self.conn, accepted.entry()) {
            drop(accepted);
            return Err(not_stored(Task::AddEntry, e));
        }
        self.current.apply(accepted);
        Ok(Done {
            rev,
            already: false,
            proposed,
        })
    }
}

/// The texts of an edit are UTF-8.
fn texts_are_utf8(edit: &Edit<'_>)
    ensures { IsInUtf8 (asked edit.now) }
{
    edit.file.as_bytes();
    edit.caller.as_bytes();
    edit.text.as_bytes();
}

/// Tests whether what is stored is a proposal.
fn is_proposed(entry: &Entry) -> bool
    ensures { result ≡ is_proposed entry.now }
{
    match entry {
        Entry::Proposed(_) => true,
        Entry::Revised(_) => false,
    }
}
