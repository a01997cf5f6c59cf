//! What `check` finds in the folder of a site's files.

ghost use Rattle.std.specs.Prelude.{◌≡◌, ◌<◌, ◌^◌, IfOk, IfSome, OnOk, filter, is_some, map};
ghost use Rattle.desk_text.specs.Lines.{IsReadable};
ghost use Rattle.desk_policy.specs.UnlistedCustodians.{has_unlisted};
ghost use Rattle.desk_findings.specs.CheckFaults.{Adds, AreReadable};
ghost use Rattle.desk_findings.specs.CheckOdd.{odd_at};
ghost use Rattle.desk_findings.specs.CheckSite.{GathersHeads, GathersListed, GathersSite, GathersUnlisted, GathersWithCustodians, TellCustodians, TellFileSystems, TellUnlisted, first_custodian, listed_before, odd_of_unlisted};
ghost use Rattle.desk_findings.specs.Finding.{HaveSlices};

use crate::check_faults::{Source, push_table_faults, push_tables};
use crate::check_odd::{Among, Odd, push_in_order};
use crate::check_text::{Gathered, WholeSources, gather};
use crate::finding::{Finding, Matter};
use desk_policy::{SiteRule, unlisted_line};
use desk_tables::{Custodians, FileSystems, Mount, TableRule};
use desk_text::{ReadError, Sequence};
use std::alloc::{AllocError, Global};

/// The texts of a site's files.
#[derive(Clone, Copy)]
pub struct SiteSources<'a> {
    pub custodians: Source<'a>,
    pub filesystems: Source<'a>,
    pub whole: WholeSources<'a>,
}

/// Finds the faults of the custodians and of the file systems, and those of the tables after them; if there are none, what
/// is found in the exports text, with opinions if they are asked for. Each is at a slice of the line that it shows, or of a whole
/// file.
pub fn gather_site<'a>(
    alloc: Global,
    sources: SiteSources<'a>,
    opinions: bool,
) -> Result<Gathered<'a>, AllocError>
    requires custodians { IsReadable sources.custodians.text.now }
    requires filesystems { IsReadable sources.filesystems.text.now }
    requires tables { AreReadable sources.whole.tables }
    requires exports { IsReadable sources.whole.exports.text.now }
    ensures found { IfOk result (GathersSite opinions sources.entry) }
    ensures slices { IfOk result (λ gathered. HaveSlices gathered.findings) }
{
    match Custodians::read(alloc, sources.custodians.text) {
        Ok(custodians) => gather_with_custodians(alloc, sources, &custodians, opinions),
        Err(ReadError::Fault(_)) => gather_heads(alloc, sources),
        Err(ReadError::Memory) => Err(AllocError),
    }
}

/// Does the same with these custodians.
fn gather_with_custodians<'a>(
    alloc: Global,
    sources: SiteSources<'a>,
    custodians: &Custodians,
    opinions: bool,
) -> Result<Gathered<'a>, AllocError>
    requires custodians { IsReadable sources.custodians.text.now }
    requires filesystems { IsReadable sources.filesystems.text.now }
    requires tables { AreReadable sources.whole.tables }
    requires exports { IsReadable sources.whole.exports.text.now }
    ensures { IfOk result (GathersWithCustodians opinions sources.entry custodians.now) }
{
    match FileSystems::read(alloc, sources.filesystems.text) {
        Ok(filesystems) => gather_listed(alloc, sources, custodians, filesystems, opinions),
        Err(ReadError::Fault(_)) => gather_heads(alloc, sources),
        Err(ReadError::Memory) => Err(AllocError),
    }
}

/// Does the same with these file systems too, whose custodians have to be listed.
fn gather_listed<'a>(
    alloc: Global,
    sources: SiteSources<'a>,
    custodians: &Custodians,
    filesystems: FileSystems,
    opinions: bool,
) -> Result<Gathered<'a>, AllocError>
    requires filesystems { IsReadable sources.filesystems.text.now }
    requires tables { AreReadable sources.whole.tables }
    requires exports { IsReadable sources.whole.exports.text.now }
    ensures { IfOk result (GathersListed opinions sources.entry custodians.now filesystems) }
{
    match unlisted_line(custodians, &filesystems) {
        None => gather(alloc, sources.whole, filesystems, opinions),
        Some(_) => {
            let found = gather_unlisted(alloc, sources, custodians, filesystems.as_slice());
            drop(filesystems);
            found
        }
    }
}

/// Finds the faults of the custodians, of the file systems and of the tables after them.
fn gather_heads<'a>(alloc: Global, sources: SiteSources<'a>) -> Result<Gathered<'a>, AllocError>
    requires custodians { IsReadable sources.custodians.text.now }
    requires filesystems { IsReadable sources.filesystems.text.now }
    requires tables { AreReadable sources.whole.tables }
    ensures { IfOk result (GathersHeads sources.entry) }
{
    let mut findings = Sequence::new(alloc);
    push_custodians(alloc, sources.custodians, &mut findings)?;
    push_filesystems(alloc, sources.filesystems, &mut findings)?;
    push_tables(alloc, sources.whole.tables, &mut findings)?;
    Ok(Gathered {
        findings,
        read_exports: false,
    })
}

/// Adds the faults of the custodians.
pub fn push_custodians<'a>(
    alloc: Global,
    source: Source<'a>,
    found: &mut Sequence<Finding<'a>>,
) -> Result<(), AllocError>
    requires { IsReadable source.text.now }
    ensures { OnOk result (Adds (TellCustodians source.entry) found.old found.new) }
{
    let faults = Custodians::faults(alloc, source.text)?;
    push_table_faults(alloc, source, faults.as_slice(), found)
}

/// Adds the faults of the file systems.
pub fn push_filesystems<'a>(
    alloc: Global,
    source: Source<'a>,
    found: &mut Sequence<Finding<'a>>,
) -> Result<(), AllocError>
    requires { IsReadable source.text.now }
    ensures { OnOk result (Adds (TellFileSystems source.entry) found.old found.new) }
{
    let faults = FileSystems::faults(alloc, source.text)?;
    push_table_faults(alloc, source, faults.as_slice(), found)
}

/// Finds the custodians of file systems who are not listed, and the faults of the tables after these.
fn gather_unlisted<'a>(
    alloc: Global,
    sources: SiteSources<'a>,
    custodians: &Custodians,
    mounts: &[Mount],
) -> Result<Gathered<'a>, AllocError>
    requires filesystems { IsReadable sources.filesystems.text.now }
    requires tables { AreReadable sources.whole.tables }
    ensures { IfOk result (GathersUnlisted sources.entry custodians.now mounts.now) }
{
    let mut findings = Sequence::new(alloc);
    push_unlisted(
        alloc,
        sources.filesystems,
        custodians,
        mounts,
        &mut findings,
    )?;
    push_tables(alloc, sources.whole.tables, &mut findings)?;
    Ok(Gathered {
        findings,
        read_exports: false,
    })
}

/// Adds the lines of file systems that name a custodian who is not listed.
fn push_unlisted<'a>(
    alloc: Global,
    source: Source<'a>,
    custodians: &Custodians,
    mounts: &[Mount],
    found: &mut Sequence<Finding<'a>>,
) -> Result<(), AllocError>
    requires { IsReadable source.text.now }
    ensures { OnOk result (Adds (TellUnlisted source.entry custodians.now mounts.now) found.old found.new) }
{
    let odds = unlisted(alloc, custodians, mounts)?;
    push_in_order(alloc, source, odds, found)?;
    Ok(())
}

/// Lists the lines of file systems that name a custodian who is not listed, each with the first such name.
fn unlisted<'r>(
    alloc: Global,
    custodians: &Custodians,
    mounts: &[Mount],
) -> Result<Vec<Odd<'r>>, AllocError>
    ensures { IfOk result (λ odds. map odd_at odds.items ≡ map (odd_of_unlisted custodians.now) (filter (has_unlisted custodians.now) mounts.now)) }
{
    let mut odds = Vec::new(alloc);
    for mount in mounts {
        if let Some(place) = unlisted_place(custodians, mount) {
            odds.push(Odd {
                line: mount.line,
                matter: Matter::Fault(SiteRule::Table(TableRule::Custodian), None),
                among: Among::Words,
                index: first_custodian(mount) + place,
                directory: None,
            })?;
        }
    }
    Ok(odds)
}

/// Finds the first custodian of a mount point who is not listed.
fn unlisted_place(custodians: &Custodians, mount: &Mount) -> Option<usize>
    ensures found { is_some result ≡ has_unlisted custodians.now mount.now }
    ensures place { IfSome result (λ place. place ≡ listed_before custodians.now mount.now) }
    ensures fits { IfSome result (λ place. place < 2 ^ 63) }
{
    for (place, name) in mount.custodians.as_slice().iter().enumerate() {
        if custodians.digest_of(name.as_str()).is_none() {
            return Some(place);
        }
    }
    None
}

/// Returns the index of a line's first custodian among its words: they stand behind the mount point, and behind the mark of a
/// guarded one.
fn first_custodian(mount: &Mount) -> usize
    ensures { result ≡ first_custodian mount.now }
{
    if mount.guarded { 2 } else { 1 }
}
