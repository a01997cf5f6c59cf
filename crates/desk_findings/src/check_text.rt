//! What `check` finds in an exports text and its tables.

ghost use Rattle.std.specs.Prelude.{◌≡◌, IfOk, IsErr, Ok, OnOk, ℕ};
ghost use Rattle.desk_text.specs.Lines.{IsReadable};
ghost use Rattle.desk_text.specs.Reading.{Reads};
ghost use Rattle.desk_text.specs.declared.reading.ReadError.TheVariants.{Memory};
ghost use Rattle.desk_exports.specs.Files.{EntriesAscend, whole_answer};
ghost use Rattle.desk_exports.specs.declared.profile.Profile.TheVariants.{Two};
ghost use Rattle.desk_exports.specs.Tables.{table_rows};
ghost use Rattle.desk_policy.specs.Parsing.{rows_with};
ghost use Rattle.desk_policy.specs.Policy.{content_of};
ghost use Rattle.desk_idle.specs.Laws.{WriteDirectories};
ghost use Rattle.desk_findings.specs.CheckFaults.{Adds, AreReadable};
ghost use Rattle.desk_findings.specs.CheckText.{Gathers, GathersExports, GathersFaults, GathersOdd, GathersTables, TellInconsistencies, TellNetgroupWarnings, tables_of};
ghost use Rattle.desk_findings.specs.Finding.{HaveSlices};

use crate::check_faults::{Source, push_line_faults, push_tables};
use crate::check_odd::{Among, contradictions_in, odds_of, push_in_order, push_odds};
use crate::finding::Finding;
use crate::odd_words::add_odd_words;
use desk_exports::{Boxed, Entry, Profile, Rule, Scope, Tables, find_faults, read_whole};
use desk_idle::read_lines_write_directories;
use desk_policy::{
    PerTable, Policy, SiteFault, SiteTables, Warning, ascending_entries_ascend_in_each_file,
    netgroup_warnings, whole_warnings,
};
use desk_remarks::find_remarks;
use desk_tables::{FileSystems, FsId};
use desk_text::{LineFault, ReadError, Sequence};
use std::alloc::{AllocError, Global};

/// An exports text, and the texts of the tables with which it is read.
#[derive(Clone, Copy)]
pub struct WholeSources<'a> {
    pub tables: PerTable<Source<'a>>,
    pub exports: Source<'a>,
}

/// What is found in texts.
#[derive(Drop)]
pub struct Gathered<'a> {
    pub findings: Sequence<Finding<'a>>,
    /// Whether the exports text was looked at, since no table has a fault.
    pub read_exports: bool,
}

/// Finds the faults of the tables; if there are none, those of the exports text, by profile 2, with these tables and file
/// systems; and if it has none either, its contradictions and the warnings, with opinions if they are asked for. Each is at a slice
/// of the line that it shows, or of a whole file.
pub fn gather<'a>(
    alloc: Global,
    sources: WholeSources<'a>,
    filesystems: FileSystems,
    opinions: bool,
) -> Result<Gathered<'a>, AllocError>
    requires tables { AreReadable sources.tables }
    requires exports { IsReadable sources.exports.text.now }
    ensures found { IfOk result (Gathers opinions sources.entry filesystems) }
    ensures slices { IfOk result (λ gathered. HaveSlices gathered.findings) }
{
    match read_sources(alloc, sources.tables) {
        Ok(site_tables) => gather_exports(alloc, sources, filesystems, &site_tables, opinions),
        Err(error) => {
            drop(filesystems);
            gather_if_fault(alloc, sources.tables, error)
        }
    }
}

/// Reads the tables that these texts write, or the fault of the first faulty one.
pub fn read_sources(
    alloc: Global,
    sources: PerTable<Source<'_>>,
) -> Result<SiteTables, ReadError<SiteFault>>
    requires { AreReadable sources }
    ensures { Reads result (tables_of sources.entry) }
{
    let texts = PerTable {
        hosts: sources.hosts.text,
        networks: sources.networks.text,
        passwd: sources.passwd.text,
        group: sources.group.text,
        netgroup: sources.netgroup.text,
    };
    SiteTables::read(alloc, texts)
}

/// Finds the faults of the tables, unless memory ran out.
fn gather_if_fault<'a>(
    alloc: Global,
    tables: PerTable<Source<'a>>,
    error: ReadError<SiteFault>,
) -> Result<Gathered<'a>, AllocError>
    requires { AreReadable tables }
    ensures found { IfOk result (GathersTables tables.entry) }
    ensures memory { error ≡ Memory → IsErr result }
{
    match error {
        ReadError::Fault(fault) => {
            drop(fault);
            gather_tables(alloc, tables)
        }
        ReadError::Memory => Err(AllocError),
    }
}

/// Finds the faults of the tables alone.
fn gather_tables<'a>(
    alloc: Global,
    tables: PerTable<Source<'a>>,
) -> Result<Gathered<'a>, AllocError>
    requires { AreReadable tables }
    ensures { IfOk result (GathersTables tables.entry) }
{
    let mut findings = Sequence::new(alloc);
    push_tables(alloc, tables, &mut findings)?;
    Ok(Gathered {
        findings,
        read_exports: false,
    })
}

/// Finds the faults of the exports text, or else its contradictions and the warnings.
fn gather_exports<'a>(
    alloc: Global,
    sources: WholeSources<'a>,
    filesystems: FileSystems,
    site_tables: &SiteTables,
    opinions: bool,
) -> Result<Gathered<'a>, AllocError>
    requires tables { AreReadable sources.tables }
    requires exports { IsReadable sources.exports.text.now }
    ensures { IfOk result (GathersExports opinions sources.entry filesystems site_tables.now) }
{
    match read_entries(alloc, sources.exports.text, &filesystems, site_tables) {
        Ok(entries) => gather_odd(alloc, sources, filesystems, site_tables, entries, opinions),
        Err(ReadError::Fault(_)) => {
            let found = gather_line_faults(alloc, sources.exports, &filesystems, site_tables);
            drop(filesystems);
            found
        }
        Err(ReadError::Memory) => {
            drop(filesystems);
            Err(AllocError)
        }
    }
}

/// Reads the entries of the exports text, by profile 2.
fn read_entries(
    alloc: Global,
    text: &str,
    filesystems: &FileSystems,
    site_tables: &SiteTables,
) -> Result<Sequence<(FsId, Boxed<Entry>)>, ReadError<LineFault<Rule>>>
    requires { IsReadable text.now }
    ensures read { Reads result (whole_answer (rows_with Two filesystems.now site_tables.now) text.now) }
    ensures ascending { IfOk result EntriesAscend }
{
    let tables = tables_for_new(site_tables, filesystems);
    read_whole(alloc, text, &tables)
}

/// Lends the tables with which a new exports text is read: by profile 2.
pub fn tables_for_new<'t>(site_tables: &'t SiteTables, filesystems: &'t FileSystems) -> Tables<'t>
    ensures { table_rows result ≡ rows_with Two filesystems.now site_tables.now }
{
    tables_with(Profile::Two, site_tables, filesystems)
}

/// Lends the tables with which an exports text is read by this profile.
pub fn tables_with<'t>(
    profile: Profile,
    site_tables: &'t SiteTables,
    filesystems: &'t FileSystems,
) -> Tables<'t>
    ensures { table_rows result ≡ rows_with profile filesystems.now site_tables.now }
{
    Tables {
        profile,
        networks: &site_tables.networks,
        users: &site_tables.users,
        groups: &site_tables.groups,
        filesystems,
    }
}

/// Finds the faults of the exports text, by profile 2.
fn gather_line_faults<'a>(
    alloc: Global,
    exports: Source<'a>,
    filesystems: &FileSystems,
    site_tables: &SiteTables,
) -> Result<Gathered<'a>, AllocError>
    requires { IsReadable exports.text.now }
    ensures { IfOk result (GathersFaults exports.entry filesystems.now site_tables.now) }
{
    let tables = tables_for_new(site_tables, filesystems);
    let faults = find_faults(alloc, exports.text, &tables, Scope::Whole)?;
    let mut findings = Sequence::new(alloc);
    push_line_faults(alloc, exports, faults.as_slice(), &mut findings)?;
    Ok(Gathered {
        findings,
        read_exports: true,
    })
}

/// Finds the warnings of the netgroup file, and the contradictions, the warnings and the remarks of the exports text of these
/// entries.
fn gather_odd<'a>(
    alloc: Global,
    sources: WholeSources<'a>,
    filesystems: FileSystems,
    site_tables: &SiteTables,
    entries: Sequence<(FsId, Boxed<Entry>)>,
    opinions: bool,
) -> Result<Gathered<'a>, AllocError>
    requires tables { AreReadable sources.tables }
    requires exports { IsReadable sources.exports.text.now }
    requires read { whole_answer (rows_with Two filesystems site_tables.now) sources.exports.text.now ≡ Ok entries }
    requires ascending { EntriesAscend entries }
    ensures { IfOk result (GathersOdd opinions sources.entry filesystems site_tables.now entries) }
{
    read_lines_write_directories();
    let warnings = whole_warnings(
        alloc,
        &site_tables.netgroups,
        &site_tables.hosts,
        entries.as_slice(),
    )?;
    let policy = policy_of(alloc, filesystems, site_tables, entries)?;
    let mut findings = Sequence::new(alloc);
    push_netgroup_warnings(alloc, sources.tables.netgroup, site_tables, &mut findings)?;
    push_inconsistencies(
        alloc,
        sources.exports,
        policy,
        warnings.as_slice(),
        opinions,
        &mut findings,
    )?;
    drop(warnings);
    Ok(Gathered {
        findings,
        read_exports: true,
    })
}

/// Makes the policy of these entries.
fn policy_of(
    alloc: Global,
    filesystems: FileSystems,
    site_tables: &SiteTables,
    entries: Sequence<(FsId, Boxed<Entry>)>,
) -> Result<Policy, AllocError>
    requires { EntriesAscend entries }
    ensures { IfOk result (λ policy. policy ≡ content_of site_tables.now.netgroups site_tables.now.hosts filesystems entries) }
{
    ascending_entries_ascend_in_each_file();
    Policy::of_entries(
        alloc,
        &site_tables.netgroups,
        &site_tables.hosts,
        filesystems,
        entries,
    )
}

/// Adds the warnings of the netgroup file.
fn push_netgroup_warnings<'a>(
    alloc: Global,
    source: Source<'a>,
    site_tables: &SiteTables,
    findings: &mut Sequence<Finding<'a>>,
) -> Result<(), AllocError>
    requires { IsReadable source.text.now }
    ensures { OnOk result (Adds (TellNetgroupWarnings source.entry site_tables.now) findings.old findings.new) }
{
    let warnings = netgroup_warnings(alloc, &site_tables.netgroups, &site_tables.hosts)?;
    push_odds(
        alloc,
        source,
        Among::Members,
        &[],
        warnings.as_slice(),
        &[],
        findings,
    )?;
    drop(warnings);
    Ok(())
}

/// Adds the contradictions, the warnings and the remarks of the exports text, and the words that mountd(8) may read otherwise.
fn push_inconsistencies<'a>(
    alloc: Global,
    source: Source<'a>,
    policy: Policy,
    warnings: &[Warning],
    opinions: bool,
    findings: &mut Sequence<Finding<'a>>,
) -> Result<(), AllocError>
    requires text { IsReadable source.text.now }
    requires lines { (fs : ℕ) → WriteDirectories policy fs }
    ensures { OnOk result (Adds (TellInconsistencies opinions source.entry policy warnings.now) findings.old findings.new) }
{
    let clashes = contradictions_in(alloc, policy.rows_by_filesystem())?;
    let remarks = find_remarks(alloc, policy, warnings, opinions)?;
    let mut odds = odds_of(
        alloc,
        Among::Clients,
        clashes.as_slice(),
        warnings,
        remarks.as_slice(),
    )?;
    add_odd_words(alloc, source.text, opinions, &mut odds)?;
    push_in_order(alloc, source, odds, findings)?;
    drop(remarks);
    Ok(())
}
