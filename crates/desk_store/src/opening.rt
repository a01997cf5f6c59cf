//! The state that the rows of a database stand for.

ghost use Rattle.std.specs.Prelude.{◌≡◌, ◌↔◌, ◌∷◌, [], pos, Err, IfErr, IfOk, IsPermutation, IsTrue, List, OnOk, All, map};
ghost use Rattle.std.specs.List.{filter_map, list_all};
ghost use Rattle.sqlite.specs.Order.{Row as Values};
ghost use Rattle.sqlite.specs.declared.types.Value.TheVariants.{Int};
ghost use Rattle.desk_core.specs.Head.{CanBeKept, Revision, StandOnce, newest_in};
ghost use Rattle.desk_core.specs.History.{IsHistory, standing_of};
ghost use Rattle.desk_core.specs.Judging.{seven};
ghost use Rattle.desk_core.specs.Site.{IsConsistent, site_in};
ghost use Rattle.desk_core.specs.Standing.{CanBePending, PendOnce, standing_in};
ghost use Rattle.desk_core.specs.State.{standing};
ghost use Rattle.desk_core.specs.declared.entry.Entry.TheVariants.{Revised};
ghost use Rattle.desk_store.specs.Desk.{History, IsSiteHistory, IsStorable};
ghost use Rattle.desk_store.specs.History.{approval_of, row_of};
ghost use Rattle.desk_store.specs.NewestRevisions.{has_revision};
ghost use Rattle.desk_store.specs.Open.{IsOfRows, version_number, version_rows};
ghost use Rattle.desk_store.specs.PrivateGatheredRevisions.{IsGathered, WasGathered};
ghost use Rattle.desk_store.specs.StoredRows.{AreNewestOf, AreRowsOf};
ghost use Rattle.desk_store.specs.declared.error.DeskError.TheVariants as error;

use crate::error::DeskError;
use crate::gathered_revisions::Gathered;
use crate::newest_revisions::newest_heads;
use crate::pending_proposals::{approve, may_follow};
use crate::stored_rows::{approvals_in, number_in, proposals_in};
use desk_core::{Head, Proposal, State, consistent_sites_have_no_fault};
use desk_policy::PolicyView;
use desk_schema::Version;
use desk_text::ReadError;
use sqlite::Row;
use std::alloc::Global;

/// Tests whether each of the seven files has a revision.
fn has_the_seven(heads: &[Head]) -> bool
    ensures { result ≡ list_all (has_revision heads.now) seven }
{
    has_file(heads, "custodians")
        && has_file(heads, "filesystems")
        && has_file(heads, "hosts")
        && has_file(heads, "networks")
        && has_file(heads, "passwd")
        && has_file(heads, "group")
        && has_file(heads, "netgroup")
}

/// Tests whether a file has a revision.
fn has_file(heads: &[Head], file: &str) -> bool
    ensures { result ≡ has_revision heads.now file.now }
{
    heads.iter().any(|head| head.file.as_str() == file)
}

/// Returns the number of a version.
fn number_of(version: Version) -> u32
    ensures { result ≡ version_number version }
{
    match version {
        Version::First => 1,
        Version::Second => 2,
    }
}

/// Accepts the rows of `meta` if they are the one row of this version; else `Schema`.
pub(crate) fn accept_version(rows: &[Row], version: Version) -> Result<(), DeskError>
    ensures version { OnOk result (rows.now ≡ version_rows version) }
    ensures foreign { result ≡ Err error.Schema → rows.now ≡ version_rows version → ⊥ }
    ensures errors { IfErr result (λ e. e ≡ error.Schema) }
{
    if is_version(rows, number_of(version)) {
        Ok(())
    } else {
        Err(DeskError::Schema)
    }
}

/// Tests whether rows are one row, which is this number and nothing else.
fn is_version(rows: &[Row], number: u32) -> bool
    ensures { IsTrue result ↔ (rows.now ≡ (Int (pos number) ∷ []) ∷ []) }
{
    match rows {
        [row] => row.column_count() == 1 && number_in(row, 0) == Some(number),
        _ => false,
    }
}

/// Makes the state of the newest revisions and of proposals; `Schema` if the site that they write is not consistent.
fn state_of_newest<V: PolicyView + Drop>(
    alloc: Global,
    heads: Vec<Head>,
    proposals: Vec<Proposal>,
) -> Result<State<V>, DeskError>
    requires heads { All CanBeKept heads.items }
    requires proposals { All CanBePending proposals.items }
    ensures made { IfOk result (λ state. standing state ≡ standing_in heads.items proposals.items) }
    ensures kept { IfOk result (λ state. state.heads ≡ heads.items) }
    ensures pending { IfOk result (λ state. state.proposals ≡ proposals.items) }
    ensures consistent { IfOk result (λ state. IsConsistent (site_in (newest_in heads.items))) }
    ensures foreign { result ≡ Err error.Schema → IsConsistent (site_in (newest_in heads.items)) → ⊥ }
    ensures errors { IfErr result IsOfRows }
{
    consistent_sites_have_no_fault();
    match State::from_heads(alloc, heads, proposals) {
        Ok(state) => Ok(state),
        Err(ReadError::Fault(_)) => Err(DeskError::Schema),
        Err(ReadError::Memory) => Err(DeskError::Memory),
    }
}

/// Makes the state that the rows of a database stand for; `Schema` if they are not those of the history of a site.
pub(crate) fn state_of_rows<V: PolicyView + Drop>(
    alloc: Global,
    revisions: Gathered,
    approvals: &[Row],
    proposals: &[Row],
) -> Result<State<V>, DeskError>
    requires { WasGathered revisions }
    ensures history { (rows : List Values) → IsGathered rows revisions
        → IfOk result (λ state. (history : History) × IsSiteHistory history × AreRowsOf history rows approvals.now proposals.now × (standing state ≡ standing_of history)) }
    ensures once { IfOk result (λ state. StandOnce state.heads) }
    ensures proposals_once { IfOk result (λ state. PendOnce state.proposals) }
    ensures foreign { result ≡ Err error.Schema → (rows : List Values) → IsGathered rows revisions → (history : History) → IsSiteHistory history → AreRowsOf history rows approvals.now proposals.now → ⊥ }
    ensures errors { IfErr result IsOfRows }
{
    let heads = heads_in(alloc, revisions, approvals)?;
    if !has_the_seven(heads.as_slice()) {
        drop(heads);
        return Err(DeskError::Schema);
    }
    let proposals = match proposals_in(alloc, proposals) {
        Ok(proposals) => proposals,
        Err(e) => {
            drop(heads);
            return Err(e);
        }
    };
    if !may_follow(heads.as_slice(), proposals.as_slice()) {
        drop(proposals);
        drop(heads);
        return Err(DeskError::Schema);
    }
    state_of_newest(alloc, heads, proposals)
}

/// Makes the newest revisions that rows say, with who approved them; `Schema` if the rows are not those of a history.
fn heads_in(alloc: Global, revisions: Gathered, approvals: &[Row]) -> Result<Vec<Head>, DeskError>
    requires { WasGathered revisions }
    ensures newest { IfOk result (λ heads. (rows : List Values) → IsGathered rows revisions → (history : List Revision) × AreNewestOf rows approvals.now heads.items history) }
    ensures once { IfOk result (λ heads. StandOnce heads.items) }
    ensures kept { IfOk result (λ heads. All CanBeKept heads.items) }
    ensures foreign { result ≡ Err error.Schema → (rows : List Values) → IsGathered rows revisions → (history : List Revision) → All IsStorable history → IsHistory (map Revised history)
        → IsPermutation (map row_of history) rows → IsPermutation (filter_map approval_of history) approvals.now → ⊥ }
    ensures errors { IfErr result IsOfRows }
{
    let mut revisions = revisions.into_heads()?;
    let approvals = approvals_in(alloc, approvals)?;
    approve(&mut revisions, approvals)?;
    newest_heads(alloc, revisions)
}
