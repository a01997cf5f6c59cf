//! The state for which a database stands, if it is one of this project. One of version 1 is made one of version 2.

ghost use Rattle.std.specs.Prelude.{◌≡◌, ◌≢◌, [], false, codes, Contains, Err, IfErr, IfOk, IsTrue, OnErr, OnOk};
ghost use Rattle.sqlite.specs.Effect.{IsDatabase};
ghost use Rattle.sqlite.specs.Held.{state};
ghost use Rattle.sqlite.specs.State.{HasCleanDisk, Survives};
ghost use Rattle.desk_core.specs.History.{standing_of};
ghost use Rattle.desk_core.specs.Standing.{PendOnce};
ghost use Rattle.desk_core.specs.State.{standing};
ghost use Rattle.desk_store.specs.Create.{HasLaterRoom, RunsInside};
ghost use Rattle.desk_store.specs.Desk.{CommitsAtMost, History, IsSiteHistory};
ghost use Rattle.desk_store.specs.Error.{FailsAsSaid, FailsInside};
ghost use Rattle.desk_store.specs.History.{Holds, HoldsFirst};
ghost use Rattle.desk_store.specs.Looks.{ChangesNothing, SeesTables};
ghost use Rattle.desk_store.specs.Open.{IsFirst, IsOfOpening, IsOpeningError, IsOurs, IsProject, LeavesOpened, MayMigrate, Migrates, TellsMemory, TellsOpening, opening_statements, version_rows};
ghost use Rattle.desk_store.specs.Rows.{IsOfTask};
ghost use Rattle.desk_store.specs.StoredRows.{AreRowsIn};
ghost use Rattle.desk_store.specs.Storing.{MakesSecond};
ghost use Rattle.desk_schema.specs.Tables.{has_later};
ghost use Rattle.desk_store.specs.Tables.{AreKeys, IsAtRest, IsAtRestWith, IsKeyed, rows_of};
ghost use Rattle.desk_store.specs.declared.error.DeskError.TheVariants as error;
ghost use Rattle.desk_store.specs.declared.error.Task.TheVariants as tasks;

use crate::creating::{has_later_room, make_later, run};
use crate::error::{DeskError, Task};
use crate::keys::are_keys;
use crate::opening::{accept_version, state_of_rows};
use crate::rows::not_stored;
use crate::tables::{
    gather_revisions, read_approvals, read_proposal_keys, read_proposals, read_version_keys,
    read_versions, seen_tables,
};
use desk_core::State;
use desk_policy::PolicyView;
use desk_schema::Version;
use sqlite::{Alter, Connection, Error, ErrorCode, Row, Transaction};
use std::alloc::Global;

/// Looks which tables the database has; `Schema` if it has neither those of version 1 alone nor all four.
fn find_tables<S: Alter>(conn: &mut Connection<S>) -> Result<Version, DeskError>
    requires { (state S.Store conn.old).in_transaction ≡ false }
    ensures look { ChangesNothing (state S.Store conn.old) (state S.Store conn.new) }
    ensures live { HasCleanDisk (state S.Store conn.new) → OnOk result (IsTrue (state S.Store conn.new).is_open) }
    ensures seen { HasCleanDisk (state S.Store conn.new) → IfOk result (λ version. SeesTables (state S.Store conn.old) (state S.Store conn.new) (Some version)) }
    ensures foreign { HasCleanDisk (state S.Store conn.new) → result ≡ Err error.Schema → SeesTables (state S.Store conn.old) (state S.Store conn.new) None }
    ensures errors { IfErr result IsOfOpening }
    ensures said { HasCleanDisk (state S.Store conn.new) → IfErr result (TellsOpening S.Store conn.old conn.new) }
    ensures memory { HasCleanDisk (state S.Store conn.new) → result ≡ Err error.Memory → TellsMemory S.Store conn.old conn.new }
{
    match seen_tables(conn) {
        Ok(Some(version)) => Ok(version),
        Ok(None) => Err(DeskError::Schema),
        Err(e) => Err(not_stored(Task::FindTables, e)),
    }
}

/// Reads the version; `Schema` if it is not this one.
fn check_version<S: Alter>(conn: &mut Connection<S>, version: Version) -> Result<(), DeskError>
    requires { HasCleanDisk (state S.Store conn.old) → IsAtRestWith false (state S.Store conn.old) }
    ensures look { ChangesNothing (state S.Store conn.old) (state S.Store conn.new) }
    ensures live { HasCleanDisk (state S.Store conn.new) → OnOk result (IsTrue (state S.Store conn.new).is_open) }
    ensures version { HasCleanDisk (state S.Store conn.new) → OnOk result (rows_of (state S.Store conn.old).committed (codes "meta") ≡ version_rows version) }
    ensures foreign { HasCleanDisk (state S.Store conn.new) → result ≡ Err error.Schema → rows_of (state S.Store conn.old).committed (codes "meta") ≡ version_rows version → ⊥ }
    ensures errors { IfErr result IsOfOpening }
    ensures said { HasCleanDisk (state S.Store conn.new) → IfErr result (TellsOpening S.Store conn.old conn.new) }
    ensures memory { HasCleanDisk (state S.Store conn.new) → result ≡ Err error.Memory → TellsMemory S.Store conn.old conn.new }
{
    match read_versions(conn) {
        Ok(rows) => accept_version(rows.as_slice(), version),
        Err(e) => Err(not_stored(Task::ReadVersion, e)),
    }
}

/// Reads the history of a database with the four tables, and makes the state that it stands for; `Schema` if it is not one of this
/// project.
fn read_second<S: Alter, V: PolicyView + Drop>(
    alloc: Global,
    conn: &mut Connection<S>,
) -> Result<State<V>, DeskError>
    requires { HasCleanDisk (state S.Store conn.old) → IsAtRest (state S.Store conn.old) }
    ensures look { ChangesNothing (state S.Store conn.old) (state S.Store conn.new) }
    ensures live { HasCleanDisk (state S.Store conn.new) → OnOk result (IsTrue (state S.Store conn.new).is_open) }
    ensures keyed { HasCleanDisk (state S.Store conn.new) → OnOk result (IsKeyed (state S.Store conn.old).committed (codes "proposal")) }
    ensures history { HasCleanDisk (state S.Store conn.new) → IfOk result (λ state'. (history : History) × IsSiteHistory history
        × Holds (state S.Store conn.old).committed history × (standing state' ≡ standing_of history)) }
    ensures foreign { HasCleanDisk (state S.Store conn.new) → result ≡ Err error.Schema → (history : History) → IsSiteHistory history
        → Holds (state S.Store conn.old).committed history → ⊥ }
    ensures errors { IfErr result IsOfOpening }
    ensures said { HasCleanDisk (state S.Store conn.new) → IfErr result (TellsOpening S.Store conn.old conn.new) }
    ensures memory { HasCleanDisk (state S.Store conn.new) → result ≡ Err error.Memory → TellsMemory S.Store conn.old conn.new }
    ensures proposals_once { IfOk result (λ state'. PendOnce state'.proposals) }
{
    check_version(conn, Version::Second)?;
    check_keys(alloc, conn)?;
    read_history(alloc, conn)
}

/// Reads the rows of the three tables of a history, and makes the state that they stand for; `Schema` if it is not the history of a
/// site.
fn read_history<S: Alter, V: PolicyView + Drop>(
    alloc: Global,
    conn: &mut Connection<S>,
) -> Result<State<V>, DeskError>
    requires { HasCleanDisk (state S.Store conn.old) → IsAtRest (state S.Store conn.old) }
    ensures look { ChangesNothing (state S.Store conn.old) (state S.Store conn.new) }
    ensures live { HasCleanDisk (state S.Store conn.new) → OnOk result (IsTrue (state S.Store conn.new).is_open) }
    ensures history { HasCleanDisk (state S.Store conn.new) → IfOk result (λ state'. (history : History) × IsSiteHistory history
        × AreRowsIn (state S.Store conn.old).committed history × (standing state' ≡ standing_of history)) }
    ensures foreign { HasCleanDisk (state S.Store conn.new) → result ≡ Err error.Schema → (history : History) → IsSiteHistory history
        → AreRowsIn (state S.Store conn.old).committed history → ⊥ }
    ensures errors { IfErr result IsOfOpening }
    ensures said { HasCleanDisk (state S.Store conn.new) → IfErr result (TellsOpening S.Store conn.old conn.new) }
    ensures proposals_once { IfOk result (λ state'. PendOnce state'.proposals) }
{
    let revisions = match gather_revisions(alloc, conn) {
        Ok(gathered) => gathered,
        Err(e) => return Err(not_stored(Task::ReadRevisions, e)),
    };
    let approvals = match read_approvals(conn) {
        Ok(rows) => rows,
        Err(e) => return Err(not_stored(Task::ReadRevisions, e)),
    };
    match read_proposals(conn) {
        Ok(proposals) => state_of_rows(
            alloc,
            revisions,
            approvals.as_slice(),
            proposals.as_slice(),
        ),
        Err(e) => Err(not_stored(Task::ReadRevisions, e)),
    }
}

/// Reads the history of a database with the tables of version 1, and makes the state that it stands for; `Schema` if it is not the
/// history of a site.
fn read_first<S: Alter, V: PolicyView + Drop>(
    alloc: Global,
    conn: &mut Connection<S>,
) -> Result<State<V>, DeskError>
    requires rest { HasCleanDisk (state S.Store conn.old) → IsAtRestWith false (state S.Store conn.old) }
    requires alone { HasCleanDisk (state S.Store conn.old) → has_later (state S.Store conn.old).committed.schema ≡ false }
    ensures look { ChangesNothing (state S.Store conn.old) (state S.Store conn.new) }
    ensures live { HasCleanDisk (state S.Store conn.new) → OnOk result (IsTrue (state S.Store conn.new).is_open) }
    ensures keyed { HasCleanDisk (state S.Store conn.new) → OnOk result (IsKeyed (state S.Store conn.old).committed (codes "meta")) }
    ensures history { HasCleanDisk (state S.Store conn.new) → IfOk result (λ state'. (history : History) × IsSiteHistory history
        × HoldsFirst (state S.Store conn.old).committed history × (standing state' ≡ standing_of history)) }
    ensures foreign { HasCleanDisk (state S.Store conn.new) → result ≡ Err error.Schema → (history : History) → IsSiteHistory history
        → HoldsFirst (state S.Store conn.old).committed history → ⊥ }
    ensures errors { IfErr result IsOfOpening }
    ensures said { HasCleanDisk (state S.Store conn.new) → IfErr result (TellsOpening S.Store conn.old conn.new) }
    ensures memory { HasCleanDisk (state S.Store conn.new) → result ≡ Err error.Memory → TellsMemory S.Store conn.old conn.new }
    ensures proposals_once { IfOk result (λ state'. PendOnce state'.proposals) }
{
    check_version(conn, Version::First)?;
    check_version_keys(alloc, conn)?;
    match gather_revisions(alloc, conn) {
        Ok(revisions) => state_of_rows(alloc, revisions, &[], &[]),
        Err(e) => Err(not_stored(Task::ReadRevisions, e)),
    }
}

/// Reads the rowids of the proposals, and tests that none comes twice.
fn check_keys<S: Alter>(alloc: Global, conn: &mut Connection<S>) -> Result<(), DeskError>
    requires { HasCleanDisk (state S.Store conn.old) → IsAtRest (state S.Store conn.old) }
    ensures look { ChangesNothing (state S.Store conn.old) (state S.Store conn.new) }
    ensures live { HasCleanDisk (state S.Store conn.new) → OnOk result (IsTrue (state S.Store conn.new).is_open) }
    ensures keyed { HasCleanDisk (state S.Store conn.new) → OnOk result (IsKeyed (state S.Store conn.old).committed (codes "proposal")) }
    ensures errors { IfErr result (IsOfTask tasks.ReadRevisions) }
    ensures said { HasCleanDisk (state S.Store conn.new) → IfErr result (TellsOpening S.Store conn.old conn.new) }
{
    match read_proposal_keys(conn) {
        Ok(rows) => accept_keys(alloc, Task::ReadRevisions, rows.as_slice()),
        Err(e) => Err(not_stored(Task::ReadRevisions, e)),
    }
}

/// Reads the rowids of the versions, and tests that none comes twice.
fn check_version_keys<S: Alter>(alloc: Global, conn: &mut Connection<S>) -> Result<(), DeskError>
    requires { HasCleanDisk (state S.Store conn.old) → IsAtRestWith false (state S.Store conn.old) }
    ensures look { ChangesNothing (state S.Store conn.old) (state S.Store conn.new) }
    ensures live { HasCleanDisk (state S.Store conn.new) → OnOk result (IsTrue (state S.Store conn.new).is_open) }
    ensures keyed { HasCleanDisk (state S.Store conn.new) → OnOk result (IsKeyed (state S.Store conn.old).committed (codes "meta")) }
    ensures errors { IfErr result (IsOfTask tasks.ReadVersion) }
    ensures said { HasCleanDisk (state S.Store conn.new) → IfErr result (TellsOpening S.Store conn.old conn.new) }
{
    match read_version_keys(conn) {
        Ok(rows) => accept_keys(alloc, Task::ReadVersion, rows.as_slice()),
        Err(e) => Err(not_stored(Task::ReadVersion, e)),
    }
}

/// Accepts rowids of which none comes twice. (A file in which one does is damaged, which `sqlite` tells otherwise.)
fn accept_keys(alloc: Global, task: Task, rows: &[Row]) -> Result<(), DeskError>
    ensures keys { OnOk result (AreKeys rows.now) }
    ensures errors { IfErr result (IsOfTask task) }
    ensures twice { IfErr result (λ e. e ≢ error.Memory → (e ≡ error.Store (record { task = task; error = Error.SqliteFailure ErrorCode.DatabaseCorrupt })) × (AreKeys rows.now → ⊥)) }
{
    match are_keys(alloc, rows) {
        Ok(true) => Ok(()),
        Ok(false) => Err(not_stored(task, Error::SqliteFailure(ErrorCode::DatabaseCorrupt))),
        Err(_) => Err(DeskError::Memory),
    }
}

/// Makes the two later tables, and writes the version.
fn make_second<S: Alter>(tx: &mut Transaction<'_, S>) -> Result<(), Error>
    ensures same_reference { tx.new.conn.ghost_name ≡ tx.old.conn.ghost_name }
    ensures made { RunsInside (state S.Store tx.old.conn.now) (state S.Store tx.new.conn.now) result MakesSecond }
    ensures said { FailsInside S.Store (Contains opening_statements) tx.old.conn.now tx.new.conn.now result }
{
    make_later(tx)?;
    run(tx, "DELETE FROM meta")?;
    run(tx, "INSERT INTO meta(version) VALUES(2)")
}

/// Makes a database of version 1 one of version 2, in one commit. Its history stays.
fn commit_second<S: Alter>(conn: &mut Connection<S>) -> Result<(), Error>
    requires autocommit { (state S.Store conn.old).in_transaction ≡ false }
    requires rest { HasCleanDisk (state S.Store conn.old) → IsAtRestWith false (state S.Store conn.old) }
    requires first { HasCleanDisk (state S.Store conn.old) → IsTrue (state S.Store conn.old).is_open → IsFirst (state S.Store conn.old).committed }
    requires keyed { HasCleanDisk (state S.Store conn.old) → IsTrue (state S.Store conn.old).is_open → IsKeyed (state S.Store conn.old).committed (codes "meta") }
    requires room { HasCleanDisk (state S.Store conn.old) → IsTrue (state S.Store conn.old).is_open → HasLaterRoom (state S.Store conn.old).committed.schema }
    ensures migrated { CommitsAtMost Migrates (state S.Store conn.old) (state S.Store conn.new) result }
    ensures said { FailsAsSaid S.Store (Contains opening_statements) conn.old conn.new result }
{
    let mut tx = conn.transaction();
    make_second(&mut tx)?;
    tx.commit()
}

/// Makes a database of version 1 one of version 2, if there is room for the later tables. (A view, an index or a trigger that has
/// one of their names is refused as `sqlite` refuses the statement; so is a schema in which a table counts and `sqlite_sequence`
/// is not there.)
fn migrate<S: Alter>(conn: &mut Connection<S>) -> Result<(), Error>
    requires autocommit { (state S.Store conn.old).in_transaction ≡ false }
    requires live { HasCleanDisk (state S.Store conn.old) → IsTrue (state S.Store conn.old).is_open }
    requires rest { HasCleanDisk (state S.Store conn.old) → IsAtRestWith false (state S.Store conn.old) }
    requires first { HasCleanDisk (state S.Store conn.old) → IsTrue (state S.Store conn.old).is_open → IsFirst (state S.Store conn.old).committed }
    requires keyed { HasCleanDisk (state S.Store conn.old) → IsTrue (state S.Store conn.old).is_open → IsKeyed (state S.Store conn.old).committed (codes "meta") }
    ensures migrated { CommitsAtMost Migrates (state S.Store conn.old) (state S.Store conn.new) result }
    ensures said { HasCleanDisk (state S.Store conn.new) → IfErr result (IsOpeningError S.Store conn.old conn.new) }
{
    if has_later_room(conn.schema()) {
        commit_second(conn)
    } else {
        Err(Error::SqliteFailure(ErrorCode::NameTaken))
    }
}

/// Reads the state for which the database stands, and makes a database of version 1 one of version 2; `Schema` if it is not one of
/// this project.
pub(crate) fn read_state<S: Alter, V: PolicyView + Drop>(
    alloc: Global,
    conn: &mut Connection<S>,
) -> Result<State<V>, DeskError>
    requires { (state S.Store conn.old).in_transaction ≡ false }
    ensures mode { (state S.Store conn.new).in_transaction ≡ false }
    ensures rest { HasCleanDisk (state S.Store conn.new) → OnOk result (IsAtRest (state S.Store conn.new)) }
    ensures live { HasCleanDisk (state S.Store conn.new) → OnOk result (IsTrue (state S.Store conn.new).is_open) }
    ensures keyed { HasCleanDisk (state S.Store conn.new) → OnOk result (IsKeyed (state S.Store conn.new).committed (codes "proposal")) }
    ensures sound { HasCleanDisk (state S.Store conn.new) → OnOk result (IsDatabase (state S.Store conn.new).committed) }
    ensures project { HasCleanDisk (state S.Store conn.new) → IfOk result (λ state'. (history : History) × IsProject (state S.Store conn.old).committed history
        × (standing state' ≡ standing_of history)) }
    ensures opened { HasCleanDisk (state S.Store conn.new) → OnOk result (LeavesOpened (state S.Store conn.old).committed (state S.Store conn.new).committed) }
    ensures unchanged { HasCleanDisk (state S.Store conn.new) → IsTrue (state S.Store conn.new).is_open → OnErr result ((state S.Store conn.new).committed ≡ (state S.Store conn.old).committed) }
    ensures crash { Survives (state S.Store conn.old) (state S.Store conn.new) (MayMigrate (state S.Store conn.old)) }
    ensures foreign { HasCleanDisk (state S.Store conn.new) → result ≡ Err error.Schema → ¬ IsOurs (state S.Store conn.old).committed }
    ensures errors { IfErr result IsOfOpening }
    ensures said { HasCleanDisk (state S.Store conn.new) → IfErr result (TellsOpening S.Store conn.old conn.new) }
    ensures memory { HasCleanDisk (state S.Store conn.new) → result ≡ Err error.Memory → TellsMemory S.Store conn.old conn.new }
    ensures proposals_once { IfOk result (λ state'. PendOnce state'.proposals) }
{
    match find_tables(conn) {
        Ok(Version::Second) => read_second(alloc, conn),
        Ok(Version::First) => read_and_migrate(alloc, conn),
        Err(e) => Err(e),
    }
}

/// Reads the state for which a database of version 1 stands, and then makes it one of version 2. (What is read and judged comes
/// first, so that nothing but the statements can fail behind it.)
fn read_and_migrate<S: Alter, V: PolicyView + Drop>(
    alloc: Global,
    conn: &mut Connection<S>,
) -> Result<State<V>, DeskError>
    requires autocommit { (state S.Store conn.old).in_transaction ≡ false }
    requires rest { HasCleanDisk (state S.Store conn.old) → IsAtRestWith false (state S.Store conn.old) }
    requires alone { HasCleanDisk (state S.Store conn.old) → has_later (state S.Store conn.old).committed.schema ≡ false }
    ensures mode { (state S.Store conn.new).in_transaction ≡ false }
    ensures rest { HasCleanDisk (state S.Store conn.new) → OnOk result (IsAtRest (state S.Store conn.new)) }
    ensures live { HasCleanDisk (state S.Store conn.new) → OnOk result (IsTrue (state S.Store conn.new).is_open) }
    ensures history { HasCleanDisk (state S.Store conn.new) → IfOk result (λ state'. (history : History) × IsSiteHistory history
        × HoldsFirst (state S.Store conn.old).committed history × (standing state' ≡ standing_of history)) }
    ensures keyed { HasCleanDisk (state S.Store conn.new) → OnOk result (IsKeyed (state S.Store conn.new).committed (codes "proposal")) }
    ensures migrated { HasCleanDisk (state S.Store conn.new) → OnOk result (Migrates (state S.Store conn.old).committed (state S.Store conn.new).committed) }
    ensures unchanged { HasCleanDisk (state S.Store conn.new) → IsTrue (state S.Store conn.new).is_open → OnErr result ((state S.Store conn.new).committed ≡ (state S.Store conn.old).committed) }
    ensures crash { Survives (state S.Store conn.old) (state S.Store conn.new) (MayMigrate (state S.Store conn.old)) }
    ensures foreign { HasCleanDisk (state S.Store conn.new) → result ≡ Err error.Schema → ¬ IsFirst (state S.Store conn.old).committed }
    ensures errors { IfErr result IsOfOpening }
    ensures said { HasCleanDisk (state S.Store conn.new) → IfErr result (TellsOpening S.Store conn.old conn.new) }
    ensures memory { HasCleanDisk (state S.Store conn.new) → result ≡ Err error.Memory → TellsMemory S.Store conn.old conn.new }
    ensures proposals_once { IfOk result (λ state'. PendOnce state'.proposals) }
{
    let current = match read_first(alloc, conn) {
        Ok(current) => current,
        Err(e) => return Err(e),
    };
    match migrate(conn) {
        Ok(()) => Ok(current),
        Err(e) => {
            drop(current);
            Err(not_stored(Task::Migrate, e))
        }
    }
}
