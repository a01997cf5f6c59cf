//! Making a desk's tables in a database, with the first revisions of a site, in one transaction.

ghost use Rattle.std.specs.Prelude.{◌≡◌, ◌⊎◌, ◌↔◌, [], false, is_some, map, IsTrue};
ghost use Rattle.std.specs.List.{filter_map, list_any};
ghost use Rattle.sqlite.specs.Table.{Table as Declared};
ghost use Rattle.sqlite.specs.Held.{state};
ghost use Rattle.sqlite.specs.State.{HasCleanDisk};
ghost use Rattle.desk_policy.specs.Site.{texts_of};
ghost use Rattle.desk_core.specs.History.{IsHistory};
ghost use Rattle.desk_core.specs.declared.entry.Entry.TheVariants.{Revised};
ghost use Rattle.sqlite.specs.Rows.{sequence};
ghost use Rattle.desk_store.specs.Create.{HasLaterRoom, HasRoom, IsCreated, IsOfMaking, LooksForRoom, has_one, AddsRows, Fills, IsInside, MakesLater, MakesRoom, Ran, RunsInside, StoresAll};
ghost use Rattle.desk_store.specs.Error.{FailsInside, Step};
ghost use Rattle.desk_store.specs.History.{approval_of, row_of};
ghost use Rattle.desk_schema.specs.Tables.{IsFree, create_approval, create_proposal};

use crate::error::{CreateError, StoreFault, Task};
use crate::first_revisions::first_state;
use crate::storing::add_revision;
use desk_core::{Head, State};
use desk_policy::{PolicyView, Site};
use desk_schema::{are_referred, has_later, has_table};
use sqlite::{Alter, Connection, Error, ErrorCode, Transaction};
use sqlite_schema::schema::Schema;
use std::alloc::Global;

/// Runs a statement without parameters.
pub(crate) fn run<S: Alter>(tx: &mut Transaction<'_, S>, text: &str) -> Result<(), Error>
    ensures same_reference { tx.new.conn.ghost_name ≡ tx.old.conn.ghost_name }
    ensures ran { RunsInside (state S.Store tx.old.conn.now) (state S.Store tx.new.conn.now) result (Ran text.now) }
    ensures said { FailsInside S.Store (λ s. s ≡ Step text.now []) tx.old.conn.now tx.new.conn.now result }
{
    tx.execute(text, &[])?;
    Ok(())
}

/// Makes the two tables that came with version 2.
pub(crate) fn make_later<S: Alter>(tx: &mut Transaction<'_, S>) -> Result<(), Error>
    ensures same_reference { tx.new.conn.ghost_name ≡ tx.old.conn.ghost_name }
    ensures made { RunsInside (state S.Store tx.old.conn.now) (state S.Store tx.new.conn.now) result MakesLater }
    ensures said { FailsInside S.Store (λ s. (s ≡ Step create_approval []) ⊎ (s ≡ Step create_proposal [])) tx.old.conn.now tx.new.conn.now result }
{
    run(
        tx,
        "CREATE TABLE approval(file TEXT NOT NULL, rev INTEGER NOT NULL,\n  approver TEXT NOT NULL, PRIMARY KEY(file, rev)) STRICT",
    )?;
    run(
        tx,
        "CREATE TABLE proposal(file TEXT NOT NULL PRIMARY KEY, base INTEGER NOT NULL,\n  author TEXT NOT NULL, body BLOB NOT NULL) STRICT",
    )
}

/// Makes the four tables, and writes the version.
fn make_tables<S: Alter>(tx: &mut Transaction<'_, S>) -> Result<(), Error>
    ensures same_reference { tx.new.conn.ghost_name ≡ tx.old.conn.ghost_name }
    ensures made { RunsInside (state S.Store tx.old.conn.now) (state S.Store tx.new.conn.now) result MakesRoom }
{
    run(tx, "CREATE TABLE meta(version INTEGER NOT NULL) STRICT")?;
    run(
        tx,
        "CREATE TABLE file_rev(file TEXT NOT NULL, rev INTEGER NOT NULL,\n  author TEXT NOT NULL, profile INTEGER NOT NULL, body BLOB NOT NULL,\n  PRIMARY KEY(file, rev)) STRICT",
    )?;
    make_later(tx)?;
    run(tx, "INSERT INTO meta(version) VALUES(2)")
}

/// Adds revisions.
fn add_revisions<S: Alter>(tx: &mut Transaction<'_, S>, heads: &[Head]) -> Result<(), Error>
    requires { HasCleanDisk (state S.Store tx.old.conn.now) → IsInside (state S.Store tx.old.conn.now) }
    ensures same_reference { tx.new.conn.ghost_name ≡ tx.old.conn.ghost_name }
    ensures added { RunsInside (state S.Store tx.old.conn.now) (state S.Store tx.new.conn.now) result (AddsRows (map row_of heads.now)) }
{
    for head in heads {
        add_revision(tx, head)?;
    }
    Ok(())
}

/// Makes the tables with these revisions.
fn fill<S: Alter>(tx: &mut Transaction<'_, S>, heads: &[Head]) -> Result<(), Error>
    ensures same_reference { tx.new.conn.ghost_name ≡ tx.old.conn.ghost_name }
    ensures filled { RunsInside (state S.Store tx.old.conn.now) (state S.Store tx.new.conn.now) result (Fills heads.now) }
{
    make_tables(tx)?;
    add_revisions(tx, heads)
}

/// Makes the tables with these revisions, in one transaction. Its commit is the last call of the store.
fn store_history<S: Alter>(conn: &mut Connection<S>, heads: &[Head]) -> Result<(), Error>
    requires autocommit { (state S.Store conn.old).in_transaction ≡ false }
    requires history { IsHistory (map Revised heads.now) }
    requires unapproved { filter_map approval_of heads.now ≡ [] }
    ensures stored { StoresAll (state S.Store conn.old) (state S.Store conn.new) (map Revised heads.now) result }
{
    let mut tx = conn.transaction();
    fill(&mut tx, heads)?;
    tx.commit()
}

/// Tells that a statement was refused; out of memory as such.
fn not_made(said: Error) -> CreateError
    ensures { IsOfMaking result }
{
    match said {
        Error::SqliteFailure(ErrorCode::OutOfMemory) => CreateError::Memory,
        _ => CreateError::Store(StoreFault {
            task: Task::MakeTables,
            error: said,
        }),
    }
}

/// Tests whether a schema has one of the four tables, or a table that refers to one.
fn has_one(schema: &Schema) -> bool
    ensures { result ≡ has_one schema.now }
{
    has_table(schema, b"meta".as_slice())
        || has_table(schema, b"file_rev".as_slice())
        || has_later(schema)
        || are_referred(schema)
}

/// Tests whether a name is free.
fn is_free(schema: &Schema, name: &[u8]) -> bool
    ensures { IsTrue result ↔ IsFree schema.now name.now }
{
    schema.table_named(name).is_none()
        && schema.view_named(name).is_none()
        && schema.index_named(name).is_none()
}

/// Tests whether a schema has `sqlite_sequence`.
fn has_sequence(schema: &Schema) -> bool
    ensures { result ≡ is_some (sequence schema.now) }
{
    match schema.table_named(b"sqlite_sequence".as_slice()) {
        Some(at) => schema.tables.as_slice().get(at).is_some(),
        None => false,
    }
}

/// Tests whether a table of a schema counts, as AUTOINCREMENT asks.
fn counts(schema: &Schema) -> bool
    ensures { result ≡ list_any (λ (t : Declared). t.is_counted) schema.now.tables }
{
    schema
        .tables
        .as_slice()
        .iter()
        .any(|table| table.is_counted)
}

/// Tests whether the two tables that came with version 2 can be made.
pub(crate) fn has_later_room(schema: &Schema) -> bool
    ensures { IsTrue result ↔ HasLaterRoom schema.now }
{
    is_free(schema, b"approval".as_slice())
        && is_free(schema, b"proposal".as_slice())
        && !(counts(schema) && !has_sequence(schema))
}

/// Tests whether the four tables can be made.
fn has_room(schema: &Schema) -> bool
    ensures { IsTrue result → HasRoom schema.now }
{
    is_free(schema, b"meta".as_slice())
        && is_free(schema, b"file_rev".as_slice())
        && has_later_room(schema)
        && !are_referred(schema)
}

/// Tests whether the database of a connection at rest has one of the four tables, or a table that refers to one.
fn sees_one<S: Alter>(conn: &Connection<S>) -> bool
    requires { (state S.Store conn.now).in_transaction ≡ false }
    ensures one { result ≡ has_one (state S.Store conn.now).now.schema }
    ensures settled { IsTrue (state S.Store conn.now).is_open → (state S.Store conn.now).now ≡ (state S.Store conn.now).committed }
{
    conn.is_autocommit() && has_one(conn.schema())
}

/// Looks whether the four tables can be made. (A view, an index or a trigger that has one of their names is refused as `sqlite`
/// refuses the statement; so is a schema in which a table counts and `sqlite_sequence` is not there.)
fn look_for_room<S: Alter>(conn: &mut Connection<S>) -> Result<(), CreateError>
    requires autocommit { (state S.Store conn.old).in_transaction ≡ false }
    ensures { LooksForRoom (state S.Store conn.old) (state S.Store conn.new) result }
{
    if let Err(e) = conn.prepare("SELECT 1") {
        return Err(not_made(e));
    }
    if sees_one(conn) {
        return Err(CreateError::Schema);
    }
    if has_room(conn.schema()) {
        Ok(())
    } else {
        Err(not_made(Error::SqliteFailure(ErrorCode::NameTaken)))
    }
}

/// Makes the tables with the first revisions of a site, and the state that they stand for.
pub(crate) fn create_state<S: Alter, V: PolicyView + Drop>(
    alloc: Global,
    conn: &mut Connection<S>,
    site: &Site,
) -> Result<State<V>, CreateError>
    requires autocommit { (state S.Store conn.old).in_transaction ≡ false }
    ensures { IsCreated (state S.Store conn.old) (state S.Store conn.new) (texts_of site.now) result }
{
    if let Err(e) = look_for_room(conn) {
        return Err(e);
    }
    let first: State<V> = match first_state(alloc, site) {
        Ok(first) => first,
        Err(e) => return Err(e),
    };
    match store_history(conn, first.heads()) {
        Ok(()) => Ok(first),
        Err(e) => Err(not_made(e)),
    }
}
