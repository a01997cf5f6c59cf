//! The finding of one fault of a site: of a line of an exports file, or of a contradiction.

ghost use Rattle.std.specs.Prelude.{◌≡◌, ◌∷◌, [], Decides, IfOk, OnOk, map};
ghost use Rattle.desk_text.specs.Lines.{IsReadable};
ghost use Rattle.desk_tables.specs.FileSystemsText.{read_filesystems};
ghost use Rattle.desk_findings.specs.CheckFaults.{Adds};
ghost use Rattle.desk_findings.specs.CheckOdd.{TellInOrder};
ghost use Rattle.desk_findings.specs.Finding.{HaveSlices};
ghost use Rattle.desk_findings.specs.OneSiteFault as spec;
ghost use Rattle.desk_findings.specs.Told.{told};

use crate::check_faults::Source;
use crate::check_odd::{Among, Odd, push_in_order};
use crate::check_site::SiteSources;
use crate::check_text::{read_sources, tables_with};
use crate::finding::{Finding, Matter};
use crate::one_fault::push_one_with;
use desk_exports::{Profile, Rule, Scope};
use desk_policy::{SiteTables, exports_place};
use desk_tables::FileSystems;
use desk_text::{Addr, LineFault, ReadError, Sequence, is_readable};
use std::alloc::{AllocError, Global};

/// Tests whether each text can be read.
pub fn are_readable(sources: SiteSources<'_>) -> bool
    ensures { Decides result (spec.AreReadableTexts sources.entry) }
{
    let tables = sources.whole.tables;
    is_readable(sources.custodians.text)
        && is_readable(sources.filesystems.text)
        && is_readable(tables.hosts.text)
        && is_readable(tables.networks.text)
        && is_readable(tables.passwd.text)
        && is_readable(tables.group.text)
        && is_readable(tables.netgroup.text)
        && is_readable(sources.whole.exports.text)
}

/// Finds the finding of this contradiction of an exports file, at the first word of its line.
pub fn find_contradiction<'a>(
    alloc: Global,
    source: Source<'a>,
    line: u32,
    other: u32,
    address: Addr,
) -> Result<Sequence<Finding<'a>>, AllocError>
    requires { IsReadable source.text.now }
    ensures found { IfOk result (λ found. TellInOrder source.entry (spec.odd_of_clash line other address ∷ []) (map told found)) }
    ensures slices { IfOk result HaveSlices }
{
    let mut odds = Vec::new(alloc);
    odds.push(Odd {
        line,
        matter: Matter::Contradiction(other, address),
        among: Among::Words,
        index: 0,
        directory: None,
    })?;
    let mut found = Sequence::new(alloc);
    push_in_order(alloc, source, odds, &mut found)?;
    Ok(found)
}

/// Finds the finding of a faulty line of an exports file, which is read by this profile; none if a table or the file systems
/// cannot be read. Of the exports the sources have just that file.
pub fn find_line_fault<'a>(
    alloc: Global,
    profile: Profile,
    sources: SiteSources<'a>,
    fault: LineFault<Rule>,
) -> Result<Sequence<Finding<'a>>, AllocError>
    requires { spec.AreReadableTexts sources }
    ensures found { IfOk result (λ found. spec.TellLine profile sources.entry fault (map told found)) }
    ensures slices { IfOk result HaveSlices }
{
    let mut found = Sequence::new(alloc);
    push_of_line(alloc, profile, sources, fault, &mut found)?;
    Ok(found)
}

/// Adds the finding of a line of an exports file, if the tables can be read.
fn push_of_line<'a>(
    alloc: Global,
    profile: Profile,
    sources: SiteSources<'a>,
    fault: LineFault<Rule>,
    found: &mut Sequence<Finding<'a>>,
) -> Result<(), AllocError>
    requires { spec.AreReadableTexts sources }
    ensures { OnOk result (Adds (spec.TellLine profile sources.entry fault) found.old found.new) }
{
    match read_sources(alloc, sources.whole.tables) {
        Ok(tables) => push_with_tables(alloc, profile, sources, &tables, fault, found),
        Err(ReadError::Fault(_)) => Ok(()),
        Err(ReadError::Memory) => Err(AllocError),
    }
}

/// Adds it with these tables, if the file systems can be read.
fn push_with_tables<'a>(
    alloc: Global,
    profile: Profile,
    sources: SiteSources<'a>,
    tables: &SiteTables,
    fault: LineFault<Rule>,
    found: &mut Sequence<Finding<'a>>,
) -> Result<(), AllocError>
    requires { spec.AreReadableTexts sources }
    ensures { OnOk result (Adds (spec.TellLineIn (read_filesystems sources.entry.filesystems.text.now) profile sources.entry.whole.exports fault tables.now) found.old found.new) }
{
    match ReadError::split(FileSystems::read(alloc, sources.filesystems.text))? {
        Ok(table) => push_of_file(
            alloc,
            profile,
            sources.whole.exports,
            &table,
            tables,
            fault,
            found,
        ),
        Err(_) => Ok(()),
    }
}

/// Adds it as that of the exports file of its file system, or else of a whole exports text.
fn push_of_file<'a>(
    alloc: Global,
    profile: Profile,
    source: Source<'a>,
    filesystems: &FileSystems,
    site_tables: &SiteTables,
    fault: LineFault<Rule>,
    found: &mut Sequence<Finding<'a>>,
) -> Result<(), AllocError>
    requires { IsReadable source.text.now }
    ensures { OnOk result (Adds (spec.TellLineWith profile source.entry fault filesystems.now site_tables.now) found.old found.new) }
{
    let tables = tables_with(profile, site_tables, filesystems);
    let scope = scope_of(source.path, filesystems);
    push_one_with(alloc, source, &tables, scope, fault, found)
}

/// Returns the scope in which a file's lines are read: that of the file system whose exports file has this name, or else all.
fn scope_of(name: &str, filesystems: &FileSystems) -> Scope
    ensures { result ≡ spec.scope_of name.now filesystems.now }
{
    match exports_place(filesystems, name) {
        Some(fs) => Scope::File(fs),
        None => Scope::Whole,
    }
}
