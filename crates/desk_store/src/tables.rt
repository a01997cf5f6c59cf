//! The statements that read the tables.

ghost use Rattle.std.specs.Prelude.{◌≡◌, ◌∷◌, [], Bool, false, IsTrue, List, OnOk, IfOk, codes, pos};
ghost use Rattle.sqlite.specs.Effect.{Database, IsDatabase};
ghost use Rattle.sqlite.specs.Given.{IsPlain};
ghost use Rattle.sqlite.specs.Listing.{understood};
ghost use Rattle.sqlite.specs.Order.{Row as Values};
ghost use Rattle.sqlite.specs.State.{HasCleanDisk};
ghost use Rattle.sqlite.specs.Held.{state};
ghost use Rattle.sqlite.specs.Values.{bound};
ghost use Rattle.sqlite.specs.declared.types.Value.TheVariants.{Int, Text as Words};
ghost use Rattle.desk_store.specs.Error.{FailsAsSaid, Query};
ghost use Rattle.desk_store.specs.PrivateGatheredRevisions.{GathersRows, GathersShown};
ghost use Rattle.desk_store.specs.Looks.{ChangesNothing, IsLook, ReadsRows, SeesTables, approver_in, approvers_in, numbers_in, revision_in, select_approver, select_approvers, select_nothing, select_numbers, select_revision};
ghost use Rattle.desk_store.specs.Tables.{IsAtRest, IsAtRestWith, rowids_of, rows_of, select_approvals, select_proposal_keys, select_proposals, select_revisions, select_version, select_version_keys};

use crate::gathered_revisions::Gathered;
use desk_schema::{Version, declared_version};
use sqlite::{Alter, Connection, Error, Row, Statement, params};
use sqlite_value::value::ValueRef;
use std::alloc::Global;

/// Reads the rows that a query shows. (It is prepared, so that it is compiled once.)
fn read<S: Alter>(
    conn: &mut Connection<S>,
    query: &str,
    params: &[ValueRef<'_>],
) -> Result<Vec<Row>, Error>
    ensures { (all : Bool) (of : Database → List Values) → (HasCleanDisk (state S.Store conn.old) → IsAtRestWith all (state S.Store conn.old))
        → IsLook all query.now (bound params.now) of → ReadsRows S.Store of (Query query.now (bound params.now)) conn.old conn.new result }
{
    match conn.prepare(query) {
        Ok(select) => select.query_all(conn, params),
        Err(e) => Err(e),
    }
}

/// Gathers the revisions in the rows of all revisions, in any order. (It is prepared, so that it is compiled once.)
pub(crate) fn gather_revisions<S: Alter>(
    alloc: Global,
    conn: &mut Connection<S>,
) -> Result<Gathered, Error>
    requires { HasCleanDisk (state S.Store conn.old) → IsAtRestWith false (state S.Store conn.old) }
    ensures { GathersRows S.Store (λ db. rows_of db (codes "file_rev")) (Query select_revisions []) conn.old conn.new result }
{
    match conn.prepare("SELECT * FROM file_rev") {
        Ok(select) => gather_shown(alloc, conn, &select),
        Err(e) => Err(e),
    }
}

/// Gathers the revisions in the rows that a query shows, one after another.
fn gather_shown<S: Alter>(
    alloc: Global,
    conn: &mut Connection<S>,
    select: &Statement,
) -> Result<Gathered, Error>
    ensures { (HasCleanDisk (state S.Store conn.old) → IsPlain (understood conn.old.schema select.now.text)) → GathersShown S.Store select.now.text conn.old conn.new result }
{
    let mut gathered = Gathered::new(alloc);
    let mut rows = conn.query_prepared(select, &[])?;
    'rows: for _ in 0..u64::MAX {
        let Some(row) = rows.next()? else {
            return Ok(gathered);
        };
        gathered.add(alloc, row);
    }
    gathered.fill();
    Ok(gathered)
}

/// Reads the numbers, authors and profiles of a file's revisions, in any order.
pub(crate) fn read_numbers<S: Alter>(
    conn: &mut Connection<S>,
    file: &str,
) -> Result<Vec<Row>, Error>
    requires { HasCleanDisk (state S.Store conn.old) → IsAtRest (state S.Store conn.old) }
    ensures { ReadsRows S.Store (numbers_in file.now) (Query select_numbers (Words file.now ∷ [])) conn.old conn.new result }
{
    read(
        conn,
        "SELECT rev, author, profile FROM file_rev WHERE file = ?1",
        params![file],
    )
}

/// Reads the rows of all approvals, in any order.
pub(crate) fn read_approvals<S: Alter>(conn: &mut Connection<S>) -> Result<Vec<Row>, Error>
    requires { HasCleanDisk (state S.Store conn.old) → IsAtRest (state S.Store conn.old) }
    ensures { ReadsRows S.Store (λ db. rows_of db (codes "approval")) (Query select_approvals []) conn.old conn.new result }
{
    read(conn, "SELECT * FROM approval", &[])
}

/// Reads the rows of all proposals, in any order.
pub(crate) fn read_proposals<S: Alter>(conn: &mut Connection<S>) -> Result<Vec<Row>, Error>
    requires { HasCleanDisk (state S.Store conn.old) → IsAtRest (state S.Store conn.old) }
    ensures { ReadsRows S.Store (λ db. rows_of db (codes "proposal")) (Query select_proposals []) conn.old conn.new result }
{
    read(conn, "SELECT * FROM proposal", &[])
}

/// Reads the author, the profile and the text of a file's revision with this number: one row, or none.
pub(crate) fn read_revision<S: Alter>(
    conn: &mut Connection<S>,
    file: &str,
    rev: u32,
) -> Result<Vec<Row>, Error>
    requires { HasCleanDisk (state S.Store conn.old) → IsAtRest (state S.Store conn.old) }
    ensures { ReadsRows S.Store (revision_in file.now rev) (Query select_revision (Words file.now ∷ Int (pos rev) ∷ [])) conn.old conn.new result }
{
    read(
        conn,
        "SELECT author, profile, body FROM file_rev WHERE file = ?1 AND rev = ?2",
        params![file, i64::from(rev)],
    )
}

/// Reads who approved a file's revision with this number: one row, or none.
pub(crate) fn read_approver<S: Alter>(
    conn: &mut Connection<S>,
    file: &str,
    rev: u32,
) -> Result<Vec<Row>, Error>
    requires { HasCleanDisk (state S.Store conn.old) → IsAtRest (state S.Store conn.old) }
    ensures { ReadsRows S.Store (approver_in file.now rev) (Query select_approver (Words file.now ∷ Int (pos rev) ∷ [])) conn.old conn.new result }
{
    read(
        conn,
        "SELECT approver FROM approval WHERE file = ?1 AND rev = ?2",
        params![file, i64::from(rev)],
    )
}

/// Reads the numbers of a file's approved revisions, and who approved them, in any order.
pub(crate) fn read_approvers<S: Alter>(
    conn: &mut Connection<S>,
    file: &str,
) -> Result<Vec<Row>, Error>
    requires { HasCleanDisk (state S.Store conn.old) → IsAtRest (state S.Store conn.old) }
    ensures { ReadsRows S.Store (approvers_in file.now) (Query select_approvers (Words file.now ∷ [])) conn.old conn.new result }
{
    read(
        conn,
        "SELECT rev, approver FROM approval WHERE file = ?1",
        params![file],
    )
}

/// Reads the rows of the database's versions.
pub(crate) fn read_versions<S: Alter>(conn: &mut Connection<S>) -> Result<Vec<Row>, Error>
    requires { HasCleanDisk (state S.Store conn.old) → IsAtRestWith false (state S.Store conn.old) }
    ensures { ReadsRows S.Store (λ db. rows_of db (codes "meta")) (Query select_version []) conn.old conn.new result }
{
    read(conn, "SELECT * FROM meta", &[])
}

/// Reads the rowids of the proposals.
pub(crate) fn read_proposal_keys<S: Alter>(conn: &mut Connection<S>) -> Result<Vec<Row>, Error>
    requires { HasCleanDisk (state S.Store conn.old) → IsAtRest (state S.Store conn.old) }
    ensures { ReadsRows S.Store (λ db. rowids_of db (codes "proposal")) (Query select_proposal_keys []) conn.old conn.new result }
{
    read(conn, "SELECT rowid FROM proposal", &[])
}

/// Reads the rowids of the database's versions.
pub(crate) fn read_version_keys<S: Alter>(conn: &mut Connection<S>) -> Result<Vec<Row>, Error>
    requires { HasCleanDisk (state S.Store conn.old) → IsAtRestWith false (state S.Store conn.old) }
    ensures { ReadsRows S.Store (λ db. rowids_of db (codes "meta")) (Query select_version_keys []) conn.old conn.new result }
{
    read(conn, "SELECT rowid FROM meta", &[])
}

/// Looks which tables the database has: all four, or those of version 1 alone, each of them alone in its tree; none if neither.
pub(crate) fn seen_tables<S: Alter>(conn: &mut Connection<S>) -> Result<Option<Version>, Error>
    requires autocommit { (state S.Store conn.old).in_transaction ≡ false }
    ensures look { ChangesNothing (state S.Store conn.old) (state S.Store conn.new) }
    ensures live { HasCleanDisk (state S.Store conn.new) → OnOk result (IsTrue (state S.Store conn.new).is_open) }
    ensures seen { HasCleanDisk (state S.Store conn.new) → IfOk result (SeesTables (state S.Store conn.old) (state S.Store conn.new)) }
    ensures said { FailsAsSaid S.Store (λ s. s ≡ Query select_nothing []) conn.old conn.new result }
{
    conn.prepare("SELECT 1")?;
    if !conn.is_autocommit() {
        return Ok(None);
    }
    Ok(declared_version(conn.schema()))
}
