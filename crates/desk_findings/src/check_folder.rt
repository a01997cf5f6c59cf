//! What `check` finds in the folder of a site's files, of which some may be missing.

ghost use Rattle.std.specs.Prelude.{IfOk};
ghost use Rattle.desk_text.specs.Lines.{IsReadable};
ghost use Rattle.desk_findings.specs.CheckFaults.{AreReadable};
ghost use Rattle.desk_findings.specs.CheckFolder.{AreReadableSystems, GathersFolder, GathersKept, GathersListed, IsReadableIfThere, systems_of};
ghost use Rattle.desk_findings.specs.Finding.{HaveSlices};

use crate::check_faults::{Source, push_tables};
use crate::check_site::{SiteSources, gather_site, push_custodians, push_filesystems};
use crate::check_text::{Gathered, WholeSources, gather};
use desk_tables::{Custodians, FileSystems};
use desk_text::{ReadError, Sequence};
use std::alloc::{AllocError, Global};

/// The file systems of a folder: their text, or those of mount points that nobody keeps.
#[derive(Drop)]
pub enum Systems<'a> {
    Listed(Source<'a>),
    Mounted(FileSystems),
}

/// Finds what is wrong in a folder whose custodians may be missing: then nobody asks whether those of the file systems are listed.
/// The faults of the custodians, of the file systems and of the tables come first; if there are none, what is found in the exports
/// text, with opinions if they are asked for.
pub fn gather_folder<'a>(
    alloc: Global,
    custodians: Option<Source<'a>>,
    systems: Systems<'a>,
    whole: WholeSources<'a>,
    opinions: bool,
) -> Result<Gathered<'a>, AllocError>
    requires custodians { IsReadableIfThere custodians }
    requires systems { AreReadableSystems systems }
    requires tables { AreReadable whole.tables }
    requires exports { IsReadable whole.exports.text.now }
    ensures found { IfOk result (GathersFolder opinions custodians.entry (systems_of systems.entry) whole.entry) }
    ensures slices { IfOk result (λ gathered. HaveSlices gathered.findings) }
{
    match systems {
        Systems::Listed(filesystems) => match custodians {
            Some(custodians) => gather_site(
                alloc,
                SiteSources {
                    custodians,
                    filesystems,
                    whole,
                },
                opinions,
            ),
            None => gather_listed(alloc, filesystems, whole, opinions),
        },
        Systems::Mounted(filesystems) => match custodians {
            Some(custodians) => gather_kept(alloc, custodians, filesystems, whole, opinions),
            None => gather(alloc, whole, filesystems, opinions),
        },
    }
}

/// Finds the faults of the custodians and of the tables; if the custodians have none, what is found with these file systems.
fn gather_kept<'a>(
    alloc: Global,
    custodians: Source<'a>,
    filesystems: FileSystems,
    whole: WholeSources<'a>,
    opinions: bool,
) -> Result<Gathered<'a>, AllocError>
    requires custodians { IsReadable custodians.text.now }
    requires tables { AreReadable whole.tables }
    requires exports { IsReadable whole.exports.text.now }
    ensures { IfOk result (GathersKept opinions custodians.entry filesystems whole.entry) }
{
    match Custodians::read(alloc, custodians.text) {
        Ok(kept) => {
            drop(kept);
            gather(alloc, whole, filesystems, opinions)
        }
        Err(ReadError::Fault(_)) => {
            drop(filesystems);
            let mut findings = Sequence::new(alloc);
            push_custodians(alloc, custodians, &mut findings)?;
            push_tables(alloc, whole.tables, &mut findings)?;
            Ok(Gathered {
                findings,
                read_exports: false,
            })
        }
        Err(ReadError::Memory) => {
            drop(filesystems);
            Err(AllocError)
        }
    }
}

/// Finds the faults of the file systems and of the tables; if the file systems have none, what is found with them.
fn gather_listed<'a>(
    alloc: Global,
    filesystems: Source<'a>,
    whole: WholeSources<'a>,
    opinions: bool,
) -> Result<Gathered<'a>, AllocError>
    requires filesystems { IsReadable filesystems.text.now }
    requires tables { AreReadable whole.tables }
    requires exports { IsReadable whole.exports.text.now }
    ensures { IfOk result (GathersListed opinions filesystems.entry whole.entry) }
{
    match FileSystems::read(alloc, filesystems.text) {
        Ok(table) => gather(alloc, whole, table, opinions),
        Err(ReadError::Fault(_)) => {
            let mut findings = Sequence::new(alloc);
            push_filesystems(alloc, filesystems, &mut findings)?;
            push_tables(alloc, whole.tables, &mut findings)?;
            Ok(Gathered {
                findings,
                read_exports: false,
            })
        }
        Err(ReadError::Memory) => Err(AllocError),
    }
}
