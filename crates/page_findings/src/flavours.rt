//! The security flavours of the lines that grant something.

ghost use Rattle.std.specs.Prelude.{◌≡◌, IfOk, OnOk, count_by, map};
ghost use Rattle.std.specs.List.{dedup, list_any};
ghost use Rattle.page_findings.specs.Flavours as spec;
ghost use Rattle.page_findings.specs.Flavours.{AreFlavoursInUse, each_once, same_number, use_value};
ghost use Rattle.page_findings.specs.Lines.{flavours_of, is_read_write, line_value};
ghost use Rattle.page_findings.specs.PrivateFlavours.{with_distinct};

use crate::lines::SiteLine;
use desk_exports::Flavour;
use desk_tables::FsId;
use desk_text::Sequence;
use std::alloc::{AllocError, Global};

/// Flavours, most preferred first, and the lines with just these: how many there are, how many of them let clients write, and of which
/// file systems they are.
#[derive(Drop)]
pub struct FlavourUse<'a> {
    pub flavours: &'a [Flavour],
    pub lines: usize,
    pub read_write: usize,
    pub filesystems: Sequence<FsId>,
}

impl FlavourUse<'_> {
    /// Returns what tells its place among the others.
    fn order(&self) -> [usize; 5]
        ensures { result ≡ spec.order_of (use_value self.now) }
    {
        [
            usize::MAX - self.lines,
            rank_at(self.flavours, 0),
            rank_at(self.flavours, 1),
            rank_at(self.flavours, 2),
            rank_at(self.flavours, 3),
        ]
    }
}

/// Lists the flavours of the lines that grant something, those of most lines first, and of as many lines in byte order of their words.
/// A line has each of four flavours at most once, so there are at most 64 such lists, and the lines are gone through for each.
pub fn flavours_in_use<'a>(
    alloc: Global,
    lines: &[SiteLine<'a>],
) -> Result<Vec<FlavourUse<'a>>, AllocError>
    ensures { IfOk result (λ uses. AreFlavoursInUse (map line_value lines.now) (map use_value uses.items)) }
{
    let mut granting = Vec::from_slice(alloc, lines)?;
    granting.retain(|line| line.grants());
    let mut uses = uses_among(alloc, granting.as_slice())?;
    uses.sort_unstable_by_key(FlavourUse::order);
    Ok(uses)
}

/// Lists the flavours of lines, each list once.
fn uses_among<'a>(alloc: Global, lines: &[SiteLine<'a>]) -> Result<Vec<FlavourUse<'a>>, AllocError>
    ensures { IfOk result (λ uses. map use_value uses.items ≡ spec.uses_among (map line_value lines.now)) }
{
    let lists = lists_among(alloc, lines)?;
    let mut uses = Vec::new(alloc);
    for flavours in &lists {
        uses.push(use_of(alloc, lines, flavours)?)?;
    }
    Ok(uses)
}

/// Lists the flavours of lines, each list once, at its first place.
#[tactic(auto, using(crate::proofs::Distinct::distinct_more))]
fn lists_among<'a>(alloc: Global, lines: &[SiteLine<'a>]) -> Result<Vec<&'a [Flavour]>, AllocError>
    ensures { IfOk result (λ lists. map (λ list. list.now) lists.items ≡ each_once (map flavours_of (map line_value lines.now))) }
{
    let mut lists = Vec::new(alloc);
    for line in lines {
        push_distinct(&mut lists, line.flavours())?;
    }
    Ok(lists)
}

/// Adds a list, if it is not there yet.
fn push_distinct<'a>(
    lists: &mut Vec<&'a [Flavour]>,
    flavours: &'a [Flavour],
) -> Result<(), AllocError>
    ensures { OnOk result (map (λ list. list.now) lists.new.items ≡ with_distinct (map (λ list. list.now) lists.old.items) flavours.now) }
{
    if !is_among(lists.as_slice(), flavours) {
        lists.push(flavours)?;
    }
    Ok(())
}

/// Tests whether a list is one of these.
fn is_among(lists: &[&[Flavour]], flavours: &[Flavour]) -> bool
    ensures { result ≡ list_any (λ other. spec.same_flavours other flavours.now) (map (λ list. list.now) lists.now) }
{
    lists.iter().any(|other| are_same(other, flavours))
}

/// Tests whether two lists have the same flavours in the same order.
fn are_same(flavours: &[Flavour], others: &[Flavour]) -> bool
    ensures { result ≡ spec.same_flavours flavours.now others.now }
{
    flavours == others
}

/// Gathers what is told of those of the lines that have these flavours.
fn use_of<'a>(
    alloc: Global,
    lines: &[SiteLine<'a>],
    flavours: &'a [Flavour],
) -> Result<FlavourUse<'a>, AllocError>
    ensures { IfOk result (λ one. use_value one ≡ spec.use_of (map line_value lines.now) flavours.now) }
{
    let mut own = Vec::from_slice(alloc, lines)?;
    own.retain(|line| are_same(line.flavours(), flavours));
    let filesystems = filesystems_of(alloc, own.as_slice())?;
    Ok(FlavourUse {
        flavours,
        lines: own.len(),
        read_write: count_read_write(own.as_slice()),
        filesystems: Sequence::from_vec(filesystems),
    })
}

/// Counts the lines that let clients write.
fn count_read_write(lines: &[SiteLine<'_>]) -> usize
    ensures { result ≡ count_by is_read_write (map line_value lines.now) }
{
    lines.iter().filter(|line| line.is_read_write()).count()
}

/// Lists the file systems of lines, in their order; of neighbours that are the same, one.
fn filesystems_of(alloc: Global, lines: &[SiteLine<'_>]) -> Result<Vec<FsId>, AllocError>
    ensures { IfOk result (λ filesystems.
        map (λ fs. fs.0) filesystems.items ≡ dedup same_number (map (λ line. line.fs) (map line_value lines.now))) }
{
    let mut filesystems = Vec::new(alloc);
    for line in lines {
        filesystems.push(line.fs)?;
    }
    filesystems.dedup_by(|fs, last| fs.0 == last.0);
    Ok(filesystems)
}

/// Returns the rank of the flavour at this place, by its word, from 1, or 0 if there is none.
fn rank_at(flavours: &[Flavour], place: usize) -> usize
    ensures { result ≡ spec.rank_at flavours.now place }
{
    match flavours.get(place) {
        Some(Flavour::Krb5) => 1,
        Some(Flavour::Krb5i) => 2,
        Some(Flavour::Krb5p) => 3,
        Some(Flavour::Sys) => 4,
        None => 0,
    }
}
