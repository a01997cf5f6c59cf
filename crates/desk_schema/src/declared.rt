//! Whether a schema declares the desk's tables.

ghost use Rattle.std.specs.Prelude.{◌≡◌, ◌<◌, ◌==◌, ◌↔◌, ◌||◌, IsTrue, MatchOption, [], ◌∷◌, None, Some, codes, false, find, option_copied, ℕ};
ghost use Rattle.std.specs.List.{list_any};
ghost use Rattle.sqlite_schema.specs.Names as names;
ghost use Rattle.sqlite_schema.specs.declared.schema.Reference.{Reference as Referring};
ghost use Rattle.sqlite_value.specs.Keys.{plain};
ghost use Rattle.sqlite.specs.Table.{Table as Declared};
ghost use Rattle.desk_schema.specs.Tables as spec;
ghost use Rattle.desk_schema.specs.Tables.{Declares, DeclaresVersion, HasFirstTables, HasTables, approval_table, file_rev_table, meta_table, proposal_table, required, table_in};

use sqlite_items::Items;
use sqlite_schema::names::same_name;
use sqlite_schema::schema::{Column, Kind, Schema, Stamps, Table, View};
use sqlite_value::keys::{Collation, Order};
use sqlite_value::value::Value;

/// The version whose tables a database has.
#[derive(Clone, Copy)]
pub enum Version {
    /// `meta` and `file_rev`.
    First,
    /// `approval` and `proposal` beside them.
    Second,
}

fn is_required(column: &Column, name: &[u8], kind: Kind) -> bool
    ensures { IsTrue result ↔ (column.now ≡ required name.now kind) }
{
    column.name.as_slice() == name
        && column.kind == kind
        && column.is_strict
        && column.not_null
        && matches!(column.default, Value::Null)
        && column.collation == Collation::Binary
}

fn is_version(columns: &[Column]) -> bool
    ensures { IsTrue result ↔ (columns.now ≡ (meta_table 0).columns) }
{
    match columns {
        [version] => is_required(version, b"version", Kind::Integer),
        _ => false,
    }
}

fn are_places(places: &[usize], first: usize, second: usize) -> bool
    ensures { IsTrue result ↔ (places.now ≡ first ∷ second ∷ []) }
{
    match places {
        [a, b] => *a == first && *b == second,
        _ => false,
    }
}

fn are_revision_columns(columns: &[Column]) -> bool
    ensures { IsTrue result ↔ (columns.now ≡ (file_rev_table 0).columns) }
{
    match columns {
        [file, rev, author, profile, body] => {
            is_required(file, b"file", Kind::Text)
                && is_required(rev, b"rev", Kind::Integer)
                && is_required(author, b"author", Kind::Text)
                && is_required(profile, b"profile", Kind::Integer)
                && is_required(body, b"body", Kind::Blob)
        }
        _ => false,
    }
}

fn are_approval_columns(columns: &[Column]) -> bool
    ensures { IsTrue result ↔ (columns.now ≡ (approval_table 0).columns) }
{
    match columns {
        [file, rev, approver] => {
            is_required(file, b"file", Kind::Text)
                && is_required(rev, b"rev", Kind::Integer)
                && is_required(approver, b"approver", Kind::Text)
        }
        _ => false,
    }
}

fn are_proposal_columns(columns: &[Column]) -> bool
    ensures { IsTrue result ↔ (columns.now ≡ (proposal_table 0).columns) }
{
    match columns {
        [file, base, author, body] => {
            is_required(file, b"file", Kind::Text)
                && is_required(base, b"base", Kind::Integer)
                && is_required(author, b"author", Kind::Text)
                && is_required(body, b"body", Kind::Blob)
        }
        _ => false,
    }
}

/// Tests whether a table has no check, reference, computed default or count.
fn is_plain(table: &Table) -> bool
    ensures { IsTrue result ↔ ((table.now.key ≡ None) × (table.now.checks ≡ []) × (table.now.references ≡ []) × (table.now.computed ≡ []) × (table.now.is_counted ≡ false)) }
{
    table.key.is_none()
        && table.checks.roots.as_slice().is_empty()
        && table.references.as_slice().is_empty()
        && table.computed.as_slice().is_empty()
        && !table.is_counted
}

fn is_file_rev(table: &Table) -> bool
    ensures { IsTrue result ↔ (table.now ≡ file_rev_table table.now.tree) }
{
    table.name.as_slice() == b"file_rev".as_slice()
        && are_revision_columns(table.columns.as_slice())
        && is_plain(table)
        && are_places(table.primary.as_slice(), 1, 2)
        && is_one_key(table.uniques.as_slice())
        && is_one_order(table.orders.as_slice())
        && is_untimed(&table.stamps)
}

fn is_approval(table: &Table) -> bool
    ensures { IsTrue result ↔ (table.now ≡ approval_table table.now.tree) }
{
    table.name.as_slice() == b"approval".as_slice()
        && are_approval_columns(table.columns.as_slice())
        && is_plain(table)
        && are_places(table.primary.as_slice(), 1, 2)
        && is_one_key(table.uniques.as_slice())
        && is_one_order(table.orders.as_slice())
        && is_untimed(&table.stamps)
}

fn is_proposal(table: &Table) -> bool
    ensures { IsTrue result ↔ (table.now ≡ proposal_table table.now.tree) }
{
    table.name.as_slice() == b"proposal".as_slice()
        && are_proposal_columns(table.columns.as_slice())
        && is_plain(table)
        && is_place(table.primary.as_slice(), 1)
        && is_lone_key(table.uniques.as_slice())
        && is_one_order(table.orders.as_slice())
        && is_untimed(&table.stamps)
}

fn is_place(places: &[usize], only: usize) -> bool
    ensures { IsTrue result ↔ (places.now ≡ only ∷ []) }
{
    match places {
        [place] => *place == only,
        _ => false,
    }
}

fn is_lone_key(keys: &[Items<usize>]) -> bool
    ensures { IsTrue result ↔ (keys.now ≡ (1 ∷ []) ∷ []) }
{
    match keys {
        [key] => is_place(key.as_slice(), 1),
        _ => false,
    }
}

fn is_one_key(keys: &[Items<usize>]) -> bool
    ensures { IsTrue result ↔ (keys.now ≡ (1 ∷ 2 ∷ []) ∷ []) }
{
    match keys {
        [key] => are_places(key.as_slice(), 1, 2),
        _ => false,
    }
}

fn is_untimed(stamps: &Stamps) -> bool
    ensures { IsTrue result ↔ (stamps.now ≡ record { places = []; terms = []; formats = [] }) }
{
    stamps.places.as_slice().is_empty()
        && stamps.terms.roots.as_slice().is_empty()
        && stamps.formats.as_slice().is_empty()
}

fn is_one_order(orders: &[Order]) -> bool
    ensures { IsTrue result ↔ (orders.now ≡ plain ∷ []) }
{
    orders.len() == 1 && orders[0] == Order::PLAIN
}

fn is_meta(table: &Table) -> bool
    ensures { IsTrue result ↔ (table.now ≡ meta_table table.now.tree) }
{
    table.name.as_slice() == b"meta".as_slice()
        && is_version(table.columns.as_slice())
        && is_plain(table)
        && has_no_key(table)
        && is_untimed(&table.stamps)
}

/// Tests whether a table has no key.
fn has_no_key(table: &Table) -> bool
    ensures { IsTrue result ↔ ((table.now.primary ≡ []) × (table.now.uniques ≡ []) × (table.now.orders ≡ [])) }
{
    table.primary.as_slice().is_empty()
        && table.uniques.as_slice().is_empty()
        && table.orders.as_slice().is_empty()
}

/// Finds the table that a schema has under a name, without ASCII case.
fn table_in<'a>(schema: &'a Schema, name: &[u8]) -> Option<&'a Table>
    ensures { option_copied result ≡ table_in schema.now name.now }
{
    match schema.table_named(name) {
        Some(at) => schema.tables.as_slice().get(at),
        None => None,
    }
}

/// Tests whether the schema declares `meta` as ours.
pub fn declares_meta(schema: &Schema) -> bool
    ensures { IsTrue result ↔ ((tree : ℕ) × (table_in schema.now (codes "meta") ≡ Some (meta_table tree))) }
{
    match table_in(schema, b"meta".as_slice()) {
        Some(table) => is_meta(table),
        None => false,
    }
}

/// Tests whether the schema declares `file_rev` as ours.
pub fn declares_file_rev(schema: &Schema) -> bool
    ensures { IsTrue result ↔ ((tree : ℕ) × (table_in schema.now (codes "file_rev") ≡ Some (file_rev_table tree))) }
{
    match table_in(schema, b"file_rev".as_slice()) {
        Some(table) => is_file_rev(table),
        None => false,
    }
}

/// Tests whether the schema declares `approval` as ours.
pub fn declares_approval(schema: &Schema) -> bool
    ensures { IsTrue result ↔ ((tree : ℕ) × (table_in schema.now (codes "approval") ≡ Some (approval_table tree))) }
{
    match table_in(schema, b"approval".as_slice()) {
        Some(table) => is_approval(table),
        None => false,
    }
}

/// Tests whether the schema declares `proposal` as ours.
pub fn declares_proposal(schema: &Schema) -> bool
    ensures { IsTrue result ↔ ((tree : ℕ) × (table_in schema.now (codes "proposal") ≡ Some (proposal_table tree))) }
{
    match table_in(schema, b"proposal".as_slice()) {
        Some(table) => is_proposal(table),
        None => false,
    }
}

/// Finds the tree of `meta`, if the schema declares it as ours.
fn meta_tree(schema: &Schema) -> Option<u32>
    ensures { MatchOption result ((tree : ℕ) → table_in schema.now (codes "meta") ≡ Some (meta_table tree) → ⊥) (λ tree. table_in schema.now (codes "meta") ≡ Some (meta_table tree)) }
{
    match table_in(schema, b"meta".as_slice()) {
        Some(table) => tree_if(is_meta(table), table.tree),
        None => None,
    }
}

/// Finds the tree of `file_rev`, if the schema declares it as ours.
fn file_rev_tree(schema: &Schema) -> Option<u32>
    ensures { MatchOption result ((tree : ℕ) → table_in schema.now (codes "file_rev") ≡ Some (file_rev_table tree) → ⊥) (λ tree. table_in schema.now (codes "file_rev") ≡ Some (file_rev_table tree)) }
{
    match table_in(schema, b"file_rev".as_slice()) {
        Some(table) => tree_if(is_file_rev(table), table.tree),
        None => None,
    }
}

/// Finds the tree of `approval`, if the schema declares it as ours.
fn approval_tree(schema: &Schema) -> Option<u32>
    ensures { MatchOption result ((tree : ℕ) → table_in schema.now (codes "approval") ≡ Some (approval_table tree) → ⊥) (λ tree. table_in schema.now (codes "approval") ≡ Some (approval_table tree)) }
{
    match table_in(schema, b"approval".as_slice()) {
        Some(table) => tree_if(is_approval(table), table.tree),
        None => None,
    }
}

/// Finds the tree of `proposal`, if the schema declares it as ours.
fn proposal_tree(schema: &Schema) -> Option<u32>
    ensures { MatchOption result ((tree : ℕ) → table_in schema.now (codes "proposal") ≡ Some (proposal_table tree) → ⊥) (λ tree. table_in schema.now (codes "proposal") ≡ Some (proposal_table tree)) }
{
    match table_in(schema, b"proposal".as_slice()) {
        Some(table) => tree_if(is_proposal(table), table.tree),
        None => None,
    }
}

fn tree_if(is_ours: bool, tree: u32) -> Option<u32>
    ensures { MatchOption result (is_ours ≡ false) (λ own. IsTrue is_ours × (own ≡ tree)) }
{
    if is_ours { Some(tree) } else { None }
}

/// Finds the first table with a tree.
fn table_at(schema: &Schema, tree: u32) -> Option<&Table>
    ensures { option_copied result ≡ find (λ (t : Declared). t.tree == tree) schema.now.tables }
{
    schema.tables.as_slice().iter().find(|t| t.tree == tree)
}

/// Tests whether the first table with a tree is `meta`.
fn has_meta_at(schema: &Schema, tree: u32) -> bool
    ensures { IsTrue result ↔ (find (λ (t : Declared). t.tree == tree) schema.now.tables ≡ Some (meta_table tree)) }
{
    match table_at(schema, tree) {
        Some(table) => is_meta(table),
        None => false,
    }
}

/// Tests whether the first table with a tree is `file_rev`.
fn has_file_rev_at(schema: &Schema, tree: u32) -> bool
    ensures { IsTrue result ↔ (find (λ (t : Declared). t.tree == tree) schema.now.tables ≡ Some (file_rev_table tree)) }
{
    match table_at(schema, tree) {
        Some(table) => is_file_rev(table),
        None => false,
    }
}

/// Tests whether the first table with a tree is `approval`.
fn has_approval_at(schema: &Schema, tree: u32) -> bool
    ensures { IsTrue result ↔ (find (λ (t : Declared). t.tree == tree) schema.now.tables ≡ Some (approval_table tree)) }
{
    match table_at(schema, tree) {
        Some(table) => is_approval(table),
        None => false,
    }
}

/// Tests whether the first table with a tree is `proposal`.
fn has_proposal_at(schema: &Schema, tree: u32) -> bool
    ensures { IsTrue result ↔ (find (λ (t : Declared). t.tree == tree) schema.now.tables ≡ Some (proposal_table tree)) }
{
    match table_at(schema, tree) {
        Some(table) => is_proposal(table),
        None => false,
    }
}

/// Tests whether no table of another name has a tree.
fn is_own_tree(schema: &Schema, name: &[u8], tree: u32) -> bool
    ensures { result ≡ spec.is_own_tree schema.now name.now tree }
{
    schema.tables.as_slice().iter().all(|table| table.tree != tree
        || same_name(table.name.as_slice(), name))
}

/// Tests whether the schema has `meta` as ours, alone in its tree.
fn has_meta(schema: &Schema) -> bool
    ensures { IsTrue result ↔ ((tree : ℕ) × Declares schema.now (codes "meta") meta_table tree) }
{
    match meta_tree(schema) {
        Some(tree) => {
            tree < 65_536
                && has_meta_at(schema, tree)
                && is_own_tree(schema, b"meta".as_slice(), tree)
        }
        None => false,
    }
}

/// Tests whether the schema has `file_rev` as ours, alone in its tree.
fn has_file_rev(schema: &Schema) -> bool
    ensures { IsTrue result ↔ ((tree : ℕ) × Declares schema.now (codes "file_rev") file_rev_table tree) }
{
    match file_rev_tree(schema) {
        Some(tree) => {
            tree < 65_536
                && has_file_rev_at(schema, tree)
                && is_own_tree(schema, b"file_rev".as_slice(), tree)
        }
        None => false,
    }
}

/// Tests whether the schema has `approval` as ours, alone in its tree.
fn has_approval(schema: &Schema) -> bool
    ensures { IsTrue result ↔ ((tree : ℕ) × Declares schema.now (codes "approval") approval_table tree) }
{
    match approval_tree(schema) {
        Some(tree) => {
            tree < 65_536
                && has_approval_at(schema, tree)
                && is_own_tree(schema, b"approval".as_slice(), tree)
        }
        None => false,
    }
}

/// Tests whether the schema has `proposal` as ours, alone in its tree.
fn has_proposal(schema: &Schema) -> bool
    ensures { IsTrue result ↔ ((tree : ℕ) × Declares schema.now (codes "proposal") proposal_table tree) }
{
    match proposal_tree(schema) {
        Some(tree) => {
            tree < 65_536
                && has_proposal_at(schema, tree)
                && is_own_tree(schema, b"proposal".as_slice(), tree)
        }
        None => false,
    }
}

/// Tests whether a table refers to one of this name by a foreign key.
fn refers_to(table: &Table, name: &[u8]) -> bool
    ensures { result ≡ list_any (λ (ref : Referring). names.same_name ref.parent name.now) table.now.references }
{
    table
        .references
        .as_slice()
        .iter()
        .any(|reference| same_name(reference.parent.as_slice(), name))
}

/// Tests whether a table of a schema refers to one of this name by a foreign key.
fn is_referred(schema: &Schema, name: &[u8]) -> bool
    ensures { result ≡ spec.refers_to schema.now name.now }
{
    schema
        .tables
        .as_slice()
        .iter()
        .any(|table| refers_to(table, name))
}

/// Tests whether a table of a schema refers to one of the four by a foreign key.
pub fn are_referred(schema: &Schema) -> bool
    ensures { result ≡ spec.are_referred schema.now }
{
    is_referred(schema, b"meta".as_slice())
        || is_referred(schema, b"file_rev".as_slice())
        || is_referred(schema, b"approval".as_slice())
        || is_referred(schema, b"proposal".as_slice())
}

/// Tests whether an object is a table with this name that SQL here does not understand.
fn is_kept_table(view: &View, name: &[u8]) -> bool
    ensures { result ≡ spec.is_kept_table name.now view.now }
{
    match &view.foreign {
        Some(owner) => {
            !view.binds & same_name(view.name.as_slice(), name) & same_name(name, owner.as_slice())
        }
        None => false,
    }
}

/// Tests whether one of these objects is a table with this name that SQL here does not understand.
fn keeps_table(views: &[View], name: &[u8]) -> bool
    ensures { result ≡ list_any (spec.is_kept_table name.now) views.now }
{
    views.iter().any(|view| is_kept_table(view, name))
}

/// Tests whether a schema has a table with this name, be it one that SQL here does not understand.
pub fn has_table(schema: &Schema, name: &[u8]) -> bool
    ensures { result ≡ spec.has_table schema.now name.now }
{
    schema.table_named(name).is_some() || keeps_table(schema.views.as_slice(), name)
}

/// Tests whether a schema has a table with the name of one of the two that came with version 2.
pub fn has_later(schema: &Schema) -> bool
    ensures { result ≡ spec.has_later schema.now }
{
    has_table(schema, b"approval".as_slice()) || has_table(schema, b"proposal".as_slice())
}

/// Tests whether the schema has the tables of version 1, each of them alone in its tree, and no table refers to one of ours.
fn has_first_tables(schema: &Schema) -> bool
    ensures { IsTrue result ↔ HasFirstTables schema.now }
{
    has_meta(schema) && has_file_rev(schema) && !are_referred(schema)
}

/// Tests whether the schema has the four tables, each of them alone in its tree, and no table refers to one of them.
fn has_tables(schema: &Schema) -> bool
    ensures { IsTrue result ↔ HasTables schema.now }
{
    has_first_tables(schema) && has_approval(schema) && has_proposal(schema)
}

/// Finds the version whose tables the schema has.
pub fn declared_version(schema: &Schema) -> Option<Version>
    ensures { DeclaresVersion schema.now result }
{
    if has_tables(schema) {
        Some(Version::Second)
    } else if has_first_tables(schema) && !has_later(schema) {
        Some(Version::First)
    } else {
        None
    }
}
