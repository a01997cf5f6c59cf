//! The revisions of a database, gathered as their rows are read one after another. Each is judged as it is read; an older one of its
//! file then loses its text, so that a long history takes little more room than its newest texts.

ghost use Rattle.std.specs.Prelude.{◌≡◌, ◌++◌, ◌<◌, ◌∷◌, [], Contains, Err, IfErr, IfOk, IsTrue, List, OnOk, Some};
ghost use Rattle.sqlite.specs.Order.{Row as Values};
ghost use Rattle.desk_core.specs.Head.{Revision};
ghost use Rattle.desk_store.specs.PrivateGatheredRevisions.{AreKept, AreOf, IsForeign, IsFull, IsGathered, IsGatheredAs, IsOlderAt, with_bare};
ghost use Rattle.desk_store.specs.Open.{IsOfRows};
ghost use Rattle.desk_store.specs.declared.error.DeskError.TheVariants as error;

use crate::error::DeskError;
use crate::stored_rows::revision_in;
use desk_core::Head;
use desk_text::Text;
use sqlite::Row;
use std::alloc::{AllocError, Global};
use std::collections::BTreeMap;

/// Why no more rows are gathered.
#[derive(Clone, Copy)]
enum Ungathered {
    /// A row is not that of a revision that a database of this project may hold.
    Foreign,
    /// There is no memory.
    Memory,
}

/// The revisions in the rows that were read so far.
#[derive(Drop)]
pub(crate) struct Gathered {
    /// A revision for each row, in the order of the rows. One that is older than another of its file has lost its text.
    heads: Vec<Head>,
    /// The place of the newest revision of each file.
    newest: BTreeMap<String, usize>,
    /// Why the rows behind one are passed over, if they are.
    fault: Option<Ungathered>,
}

impl Gathered {
    /// Gathers no row yet.
    pub(crate) fn new(alloc: Global) -> Gathered
        ensures { IsGathered [] result }
    {
        Gathered {
            heads: Vec::new(alloc),
            newest: BTreeMap::new(alloc),
            fault: None,
        }
    }

    /// Gathers the revision in another row. (After a fault, rows are read to the end all the same: what SQLite says of them comes first.)
    #[tactic(auto, using(crate::proofs::Kept::stays_so, crate::proofs::Kept::no_fault))]
    pub(crate) fn add(&mut self, alloc: Global, row: &Row)
        ensures { (rows : List Values) → IsGathered rows self.old → IsGathered (rows ++ row.now ∷ []) self.new }
    {
        if self.fault.is_some() {
            return;
        }
        self.fault = gather_row(alloc, &mut self.heads, &mut self.newest, row);
    }

    /// Notes that there is no room for another row.
    pub(crate) fn fill(&mut self)
        ensures full { IsFull self.new }
        ensures gathered { (rows : List Values) → IsGathered rows self.new }
    {
        self.fault = Some(Ungathered::Memory);
    }

    /// Gives the revisions; `Schema` if a row is not that of one that a database of this project may hold.
    pub(crate) fn into_heads(self) -> Result<Vec<Head>, DeskError>
        ensures heads { IfOk result (λ heads. (rows : List Values) → IsGathered rows self → AreOf rows heads.items) }
        ensures foreign { result ≡ Err error.Schema → (rows : List Values) → IsGathered rows self → (row : Values) × Contains rows row × IsForeign row }
        ensures errors { IfErr result IsOfRows }
    {
        match self.fault {
            None => Ok(self.heads),
            Some(Ungathered::Foreign) => Err(DeskError::Schema),
            Some(Ungathered::Memory) => Err(DeskError::Memory),
        }
    }
}

/// Gathers the revision in a row behind others; or tells why not.
fn gather_row(
    alloc: Global,
    heads: &mut Vec<Head>,
    newest: &mut BTreeMap<String, usize>,
    row: &Row,
) -> Option<Ungathered>
    ensures { (rows : List Values) → AreOf rows heads.old.items → IsGatheredAs (rows ++ row.now ∷ []) heads.new.items result }
{
    match revision_in(alloc, row) {
        Ok(revision) => match add_revision(alloc, heads, newest, revision) {
            Ok(()) => None,
            Err(_) => Some(Ungathered::Memory),
        },
        Err(DeskError::Schema) => Some(Ungathered::Foreign),
        Err(_) => Some(Ungathered::Memory),
    }
}

/// Adds a revision. If there is another of its file, the older one of both loses its text.
fn add_revision(
    alloc: Global,
    heads: &mut Vec<Head>,
    newest: &mut BTreeMap<String, usize>,
    revision: Head,
) -> Result<(), AllocError>
    ensures { OnOk result ((revisions : List Revision) → AreKept revisions heads.old.items → AreKept (revisions ++ revision ∷ []) heads.new.items) }
{
    let file = String::from_str(alloc, revision.file.as_str())?;
    let place = heads.len();
    let known = place_of(newest, file.as_str());
    push_whole(heads, revision)?;
    if lighten_older(alloc, heads, known, place) {
        newest.insert(file, place)?;
    }
    Ok(())
}

/// Adds a revision with its text.
fn push_whole(heads: &mut Vec<Head>, revision: Head) -> Result<(), AllocError>
    ensures { OnOk result ((revisions : List Revision) → AreKept revisions heads.old.items → AreKept (revisions ++ revision ∷ []) heads.new.items) }
{
    heads.push(revision)?;
    Ok(())
}

/// Finds the place of a file's newest revision, if it has one.
fn place_of(newest: &BTreeMap<String, usize>, file: &str) -> Option<usize> {
    match newest.get(file) {
        Some(place) => Some(*place),
        None => None,
    }
}

/// Takes the text of the older of two revisions of a file away, the newest that is known and another. Tells whether the other is not the
/// older one.
fn lighten_older(alloc: Global, heads: &mut Vec<Head>, known: Option<usize>, other: usize) -> bool
    ensures { (revisions : List Revision) → AreKept revisions heads.old.items → AreKept revisions heads.new.items }
{
    let Some(known) = known else {
        return true;
    };
    if lighten(alloc, heads, other, known) {
        return false;
    }
    lighten(alloc, heads, known, other);
    true
}

/// Takes the text of the revision at a place away if that at the other is a later one of its file. Tells whether it did.
fn lighten(alloc: Global, heads: &mut Vec<Head>, place: usize, other: usize) -> bool
    ensures { (revisions : List Revision) → AreKept revisions heads.old.items → AreKept revisions heads.new.items }
{
    if is_older(heads.as_slice(), place, other) {
        take_text(alloc, heads, place);
        return true;
    }
    false
}

/// Tests whether the revision at a place is older than that at the other, and both are of one file.
fn is_older(heads: &[Head], place: usize, other: usize) -> bool
    ensures { IsTrue result → IsOlderAt heads.now place other }
{
    match (heads.get(place), heads.get(other)) {
        (Some(one), Some(later)) => one.file.as_str() == later.file.as_str() && one.rev < later.rev,
        _ => false,
    }
}

/// Takes the text of the revision at a place away, if there is one.
fn take_text(alloc: Global, heads: &mut Vec<Head>, place: usize)
    ensures { heads.new.items ≡ with_bare heads.old.items place }
{
    if let Some(head) = heads.get_mut(place) {
        head.body = Text::from_string(String::new(alloc));
    }
}
