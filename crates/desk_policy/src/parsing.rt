//! The policy that the texts of a site write.
//!
//! The files are read in this order: custodians, filesystems, hosts, networks, passwd, group, netgroup, and then the
//! exports files by mount point. The first faulty one is refused, with its first faulty line.

ghost use Rattle.std.specs.Prelude.{◌≡◌, ◌<◌, ◌≤◌, [], ◌++◌, IfOk, None, Ok, OnOk, Result, codes, length, map};
ghost use Rattle.std.specs.List.{flat_map};
ghost use Rattle.desk_text.specs.Lines.{IsReadable};
ghost use Rattle.desk_text.specs.Path.{path_text};
ghost use Rattle.desk_text.specs.Reading.{Reads, ReadsAs};
ghost use Rattle.desk_tables.specs.FileSystemsText as filesystems;
ghost use Rattle.desk_tables.specs.Rules as tables;
ghost use Rattle.desk_netgroup.specs.declared.faults.GroupFault.{GroupFault};
ghost use Rattle.desk_exports.specs.Files.{EntriesAscend, FileAscends, whole_answer};
ghost use Rattle.desk_exports.specs.declared.rules.Rule.{Rule};
ghost use Rattle.desk_text.specs.declared.reading.LineFault.{LineFault};
ghost use Rattle.desk_policy.specs.Parsing as spec;
ghost use Rattle.desk_policy.specs.Replacing.{ReadsLines};
ghost use Rattle.desk_policy.specs.PrivateKnownNames.{AreKnown};
ghost use Rattle.desk_policy.specs.PrivateParsing.{PushesFile, PushesFiles, ReadsAfter};
ghost use Rattle.desk_policy.specs.Row.{row_of};
ghost use Rattle.desk_policy.specs.PerTable.{EachTable, map_tables};
ghost use Rattle.desk_policy.specs.Policy.{IsContent};
ghost use Rattle.desk_policy.specs.Site.{HaveReadableLengths, texts_of};
ghost use Rattle.desk_policy.specs.SiteContents.{ReadsSite};
ghost use Rattle.desk_policy.specs.SiteFault.{group_fault, line_fault, table_fault};
ghost use Rattle.desk_policy.specs.SiteFile.{file_name};
ghost use Rattle.desk_policy.specs.Warning.{entry_warnings};

use crate::known_names::KnownNames;
use crate::per_table::PerTable;
use crate::policy::Policy;
use crate::row::Row;
use crate::site::Site;
use crate::site_fault::{SiteFault, SiteRule};
use crate::site_file::{SiteFile, exports_file_name};
use crate::unlisted_custodians::unlisted_line;
use crate::warning::{Warning, push_entry, push_netgroup, whole_warnings};
use desk_exports::{Boxed, Entry, Profile, Rule, Tables, read_file, read_whole};
use desk_netgroup::{GroupFault, Netgroups};
use desk_origins::{Origin, copied};
use desk_tables::{
    Custodians, FileSystems, FsId, Groups, Hosts, Mount, Networks, TableFault, TableRule, Users,
};
use desk_text::{LineFault, Path, ReadError, Sequence, Text};
use std::alloc::{AllocError, Global};

/// The tables of a site that are read after its file systems: hosts(5), networks(5), passwd(5), group(5) and netgroup(5).
pub struct SiteTables {
    pub hosts: Hosts,
    pub networks: Networks,
    pub users: Users,
    pub groups: Groups,
    pub netgroups: Netgroups,
}

// It is written out, so that the crates above do not prove again how each part is dropped.
impl Drop for SiteTables {
    fn drop(self) {
        let SiteTables {
            hosts: _,
            networks: _,
            users: _,
            groups: _,
            netgroups: _,
        } = self;
    }
}

impl SiteTables {
    /// Makes tables without a row.
    pub fn new(alloc: Global) -> SiteTables
        ensures { result ≡ spec.no_tables }
    {
        SiteTables {
            hosts: Hosts::new(alloc),
            networks: Networks::new(alloc),
            users: Users::new(alloc),
            groups: Groups::new(alloc),
            netgroups: Netgroups::new(alloc),
        }
    }

    /// Reads the tables that these texts write, or the fault of the first faulty one, in the order of the fields. Each text
    /// has at most 4,294,967,294 bytes.
    pub fn read(alloc: Global, texts: PerTable<&str>) -> Result<SiteTables, ReadError<SiteFault>>
        requires { EachTable (λ text. IsReadable text.now) texts }
        ensures { Reads result (spec.read_tables (map_tables (λ text. text.now) texts.entry)) }
    {
        let mut tables = SiteTables::new(alloc);
        match tables.fill(alloc, texts) {
            Ok(()) => Ok(tables),
            Err(error) => Err(error),
        }
    }

    /// Puts the rows that these texts write in the place of those of the tables, which are lent, so that no table is owned
    /// where a text may be faulty.
    fn fill(&mut self, alloc: Global, texts: PerTable<&str>) -> Result<(), ReadError<SiteFault>>
        requires { EachTable (λ text. IsReadable text.now) texts }
        ensures { ReadsAs (λ done. self.new) result (spec.read_tables (map_tables (λ text. text.now) texts.entry)) }
    {
        let hosts = Hosts::read(alloc, texts.hosts);
        put(in_table(alloc, SiteFile::Hosts, hosts), &mut self.hosts)?;
        let networks = Networks::read(alloc, texts.networks);
        put(
            in_table(alloc, SiteFile::Networks, networks),
            &mut self.networks,
        )?;
        let users = Users::read(alloc, texts.passwd);
        put(in_table(alloc, SiteFile::Passwd, users), &mut self.users)?;
        let groups = Groups::read(alloc, texts.group);
        put(in_table(alloc, SiteFile::Group, groups), &mut self.groups)?;
        let netgroups = Netgroups::read(alloc, texts.netgroup);
        put(in_netgroup(alloc, netgroups), &mut self.netgroups)?;
        Ok(())
    }
}

/// Puts what was read in the place of a former value.
fn put<T: Drop>(
    answer: Result<T, ReadError<SiteFault>>,
    slot: &mut T,
) -> Result<(), ReadError<SiteFault>>
    ensures { (read : Result T SiteFault) → Reads answer read → ReadsAs (λ done. slot.new) result read }
{
    match answer {
        Ok(value) => {
            *slot = value;
            Ok(())
        }
        Err(error) => Err(error),
    }
}

/// What the texts of a site write: its custodians, the tables that its exports files are read with, and its policy.
#[derive(Drop)]
pub struct SiteContents {
    pub custodians: Custodians,
    pub tables: SiteTables,
    pub policy: Policy,
}

/// Reads the policy that the texts of a site write, or the fault of the first faulty file. Whether its lines contradict each
/// other is not looked at. Each text has at most 4,294,967,294 bytes.
pub fn parse(alloc: Global, site: &Site) -> Result<Policy, ReadError<SiteFault>>
    requires { HaveReadableLengths (texts_of site.now) }
    ensures { Reads result (spec.read_site (texts_of site.now)) }
{
    match read_contents(alloc, site) {
        Ok(SiteContents { policy, .. }) => Ok(policy),
        Err(error) => Err(error),
    }
}

/// Reads what the texts of a site write, as `parse` does, with the custodians and the tables.
pub fn read_contents(alloc: Global, site: &Site) -> Result<SiteContents, ReadError<SiteFault>>
    requires { HaveReadableLengths (texts_of site.now) }
    ensures { ReadsSite result (texts_of site.now) }
{
    let custodians = Custodians::read(alloc, site.files.custodians.as_str());
    let custodians = in_table(alloc, SiteFile::Custodians, custodians)?;
    let filesystems = read_filesystems(alloc, site.files.filesystems.as_str(), &custodians);
    let filesystems = in_table(alloc, SiteFile::Filesystems, filesystems)?;
    let (tables, policy) = read_after_filesystems(alloc, site, filesystems)?;
    Ok(SiteContents {
        custodians,
        tables,
        policy,
    })
}

/// Reads the file systems, whose custodians have to be listed. That is asked once no line breaks another rule.
fn read_filesystems(
    alloc: Global,
    text: &str,
    custodians: &Custodians,
) -> Result<FileSystems, ReadError<TableFault>>
    requires { IsReadable text.now }
    ensures read { Reads result (spec.if_listed custodians.now (filesystems.read_filesystems text.now)) }
    ensures few { IfOk result (λ table. length table ≤ 256) }
{
    let filesystems = FileSystems::read(alloc, text)?;
    match unlisted_line(custodians, &filesystems) {
        None => Ok(filesystems),
        Some(line) => Err(ReadError::Fault(LineFault {
            line,
            rule: TableRule::Custodian,
        })),
    }
}

/// Reads the files after the file systems: the tables, and the policy with them.
fn read_after_filesystems(
    alloc: Global,
    site: &Site,
    filesystems: FileSystems,
) -> Result<(SiteTables, Policy), ReadError<SiteFault>>
    requires lengths { HaveReadableLengths (texts_of site.now) }
    requires few { length filesystems ≤ 256 }
    ensures { ReadsAfter result (texts_of site.now) filesystems }
{
    let site_tables = read_site_tables(alloc, site)?;
    match read_policy(alloc, site, filesystems, &site_tables) {
        Ok(policy) => Ok((site_tables, policy)),
        Err(error) => {
            drop(site_tables);
            Err(error)
        }
    }
}

/// Reads the policy that the exports files write, with these file systems and tables.
fn read_policy(
    alloc: Global,
    site: &Site,
    filesystems: FileSystems,
    site_tables: &SiteTables,
) -> Result<Policy, ReadError<SiteFault>>
    requires lengths { HaveReadableLengths (texts_of site.now) }
    requires few { length filesystems ≤ 256 }
    ensures { Reads result (spec.read_policy (texts_of site.now) filesystems site_tables.now) }
{
    let mut rows = Vec::new(alloc);
    let mut warnings = Sequence::new(alloc);
    match push_policy(
        alloc,
        site,
        &filesystems,
        site_tables,
        &mut rows,
        &mut warnings,
    ) {
        Ok(()) => Ok(Policy::of_parts(alloc, filesystems, rows, warnings)),
        Err(error) => Err(error),
    }
}

/// Adds the warnings of the netgroup file, and then the lines and the warnings of the exports files, to lists that are empty.
fn push_policy(
    alloc: Global,
    site: &Site,
    filesystems: &FileSystems,
    site_tables: &SiteTables,
    rows: &mut Vec<Sequence<Row>>,
    warnings: &mut Sequence<Warning>,
) -> Result<(), ReadError<SiteFault>>
    requires lengths { HaveReadableLengths (texts_of site.now) }
    requires few { length filesystems.now ≤ 256 }
    requires rows { rows.old.items ≡ [] }
    requires warnings { warnings.old ≡ [] }
    ensures read { ReadsAs (λ done. record { table = filesystems.now; rows = rows.new.items; warnings = warnings.new; origins = [] }) result
        (spec.read_policy (texts_of site.now) filesystems.now site_tables.now) }
    ensures content { OnOk result (IsContent (record { table = filesystems.now; rows = rows.new.items; warnings = warnings.new; origins = [] })) }
{
    push_netgroup(alloc, &site_tables.netgroups, &site_tables.hosts, warnings)?;
    let mut known = KnownNames::new(alloc);
    push_files(
        alloc,
        site,
        filesystems,
        site_tables,
        &mut known,
        rows,
        warnings,
    )
}

/// Reads the tables after the file systems.
fn read_site_tables(alloc: Global, site: &Site) -> Result<SiteTables, ReadError<SiteFault>>
    requires { HaveReadableLengths (texts_of site.now) }
    ensures { Reads result (spec.read_site_tables (texts_of site.now)) }
{
    SiteTables::read(alloc, site.files.tables.lend())
}

/// Reads the exports file of each file system, and adds its lines and its warnings.
fn push_files(
    alloc: Global,
    site: &Site,
    filesystems: &FileSystems,
    site_tables: &SiteTables,
    known: &mut KnownNames,
    rows: &mut Vec<Sequence<Row>>,
    warnings: &mut Sequence<Warning>,
) -> Result<(), ReadError<SiteFault>>
    requires lengths { HaveReadableLengths (texts_of site.now) }
    requires few { length filesystems.now ≤ 256 }
    requires known { AreKnown site_tables.now.netgroups site_tables.now.hosts known.old }
    ensures { PushesFiles result (spec.read_files (texts_of site.now) filesystems.now site_tables.now 0 filesystems.now) (length filesystems.now)
        rows.old.items rows.new.items warnings.old warnings.new }
{
    for (place, mount) in filesystems.as_slice().iter().enumerate() {
        push_file(
            alloc,
            site,
            filesystems,
            site_tables,
            FsId(place as u32),
            &mount.path,
            known,
            rows,
            warnings,
        )?;
    }
    Ok(())
}

/// Reads the exports file of a file system, and adds its lines and its warnings.
fn push_file(
    alloc: Global,
    site: &Site,
    filesystems: &FileSystems,
    site_tables: &SiteTables,
    fs: FsId,
    mount: &Path,
    known: &mut KnownNames,
    rows: &mut Vec<Sequence<Row>>,
    warnings: &mut Sequence<Warning>,
) -> Result<(), ReadError<SiteFault>>
    requires lengths { HaveReadableLengths (texts_of site.now) }
    requires known { AreKnown site_tables.now.netgroups site_tables.now.hosts known.old }
    ensures pushes { PushesFile result (spec.read_exports (texts_of site.now) filesystems.now site_tables.now fs.0 mount.now)
        rows.old.items rows.new.items warnings.old warnings.new }
    ensures known { OnOk result (AreKnown site_tables.now.netgroups site_tables.now.hosts known.new) }
{
    let name = exports_file_name(alloc, mount.text())?;
    let entries = site_entries(alloc, site, filesystems, site_tables, fs, mount);
    let entries = in_exports(alloc, name.as_str(), entries)?;
    push_entries(
        alloc,
        site_tables,
        name.as_str(),
        entries.as_slice(),
        warnings,
    )?;
    rows.push(lines_in_force(alloc, site_tables, known, entries)?)?;
    Ok(())
}

/// Reads one exports file by itself, by this profile, with the tables of its site: its lines, in the order of their numbers,
/// or its fault. Warnings are not made. The text has at most 4,294,967,294 bytes.
pub fn read_lines(
    alloc: Global,
    profile: Profile,
    text: &str,
    filesystems: &FileSystems,
    site_tables: &SiteTables,
    fs: FsId,
) -> Result<Sequence<Row>, ReadError<SiteFault>>
    requires length { IsReadable text.now }
    requires fs { fs.0 < length filesystems.now }
    ensures { ReadsLines result (record { profile = profile; body = text.now }) filesystems.now site_tables.now fs.0 }
{
    let mount = &filesystems.as_slice()[fs.0 as usize];
    let name = exports_file_name(alloc, mount.path.text())?;
    let entries = file_entries(alloc, profile, text, filesystems, site_tables, fs);
    let entries = in_exports(alloc, name.as_str(), entries)?;
    let mut known = KnownNames::new(alloc);
    Ok(lines_in_force(alloc, site_tables, &mut known, entries)?)
}

/// Reads the entries of the exports file that a site has for this mount point, by the profile of its text.
fn site_entries(
    alloc: Global,
    site: &Site,
    filesystems: &FileSystems,
    site_tables: &SiteTables,
    fs: FsId,
    mount: &Path,
) -> Result<Sequence<Boxed<Entry>>, ReadError<LineFault<Rule>>>
    requires { HaveReadableLengths (texts_of site.now) }
    ensures read { Reads result (spec.entries_in ((texts_of site.now).exports (path_text mount.now)) filesystems.now site_tables.now fs) }
    ensures ascending { IfOk result FileAscends }
{
    let printed = mount.text();
    let profile = site.exports_profile(printed);
    let text = site.exports_text(printed);
    file_entries(alloc, profile, text, filesystems, site_tables, fs)
}

/// Reads the entries of the exports file of a file system, by this profile.
fn file_entries(
    alloc: Global,
    profile: Profile,
    text: &str,
    filesystems: &FileSystems,
    site_tables: &SiteTables,
    fs: FsId,
) -> Result<Sequence<Boxed<Entry>>, ReadError<LineFault<Rule>>>
    requires { IsReadable text.now }
    ensures read { Reads result (spec.entries_in (record { profile = profile; body = text.now }) filesystems.now site_tables.now fs) }
    ensures ascending { IfOk result FileAscends }
{
    let tables = Tables {
        profile,
        networks: &site_tables.networks,
        users: &site_tables.users,
        groups: &site_tables.groups,
        filesystems,
    };
    read_file(alloc, text, &tables, fs)
}

/// Adds the warnings of the entries of the exports file of this name.
fn push_entries(
    alloc: Global,
    site_tables: &SiteTables,
    name: &str,
    entries: &[Boxed<Entry>],
    warnings: &mut Sequence<Warning>,
) -> Result<(), AllocError>
    ensures { OnOk result (warnings.new
        ≡ warnings.old ++ flat_map (entry_warnings site_tables.now.netgroups site_tables.now.hosts name.now) entries.now) }
{
    for entry in entries {
        push_entry(
            alloc,
            &site_tables.netgroups,
            &site_tables.hosts,
            name,
            entry,
            warnings,
        )?;
    }
    Ok(())
}

/// Makes the lines in force of the entries of an exports file.
fn lines_in_force(
    alloc: Global,
    site_tables: &SiteTables,
    known: &mut KnownNames,
    entries: Sequence<Boxed<Entry>>,
) -> Result<Sequence<Row>, AllocError>
    requires { AreKnown site_tables.now.netgroups site_tables.now.hosts known.old }
    ensures rows { IfOk result (λ rows. rows ≡ map (row_of site_tables.now.netgroups site_tables.now.hosts) entries) }
    ensures known { OnOk result (AreKnown site_tables.now.netgroups site_tables.now.hosts known.new) }
{
    let mut rows = Sequence::from_vec(Vec::with_capacity(alloc, entries.len())?);
    for entry in entries.into_vec() {
        rows.push(Row::by_known(
            alloc,
            &site_tables.netgroups,
            &site_tables.hosts,
            known,
            entry,
        )?)?;
    }
    Ok(rows)
}

/// Names the file of a table's fault.
fn in_table<T>(
    alloc: Global,
    file: SiteFile,
    answer: Result<T, ReadError<TableFault>>,
) -> Result<T, ReadError<SiteFault>>
    ensures read { (read : Result T tables.TableFault) → Reads answer read → Reads result (spec.in_file (table_fault (file_name file)) read) }
    ensures kept { IfOk result (λ value. answer ≡ Ok value) }
{
    match ReadError::split(answer)? {
        Ok(value) => Ok(value),
        Err(fault) => Err(ReadError::Fault(fault_in(
            alloc,
            file.name(),
            fault.line,
            SiteRule::Table(fault.rule),
            None,
        )?)),
    }
}

/// Names the netgroup file in its fault.
fn in_netgroup<T>(
    alloc: Global,
    answer: Result<T, ReadError<GroupFault>>,
) -> Result<T, ReadError<SiteFault>>
    ensures { (read : Result T GroupFault) → Reads answer read → Reads result (spec.in_file group_fault read) }
{
    match ReadError::split(answer)? {
        Ok(value) => Ok(value),
        Err(fault) => Err(ReadError::Fault(fault_in(
            alloc,
            SiteFile::Netgroup.name(),
            fault.line,
            SiteRule::Group(fault.rule),
            fault.other,
        )?)),
    }
}

/// Names the exports file of a fault.
fn in_exports<T>(
    alloc: Global,
    file: &str,
    answer: Result<T, ReadError<LineFault<Rule>>>,
) -> Result<T, ReadError<SiteFault>>
    ensures read { (read : Result T (LineFault Rule)) → Reads answer read → Reads result (spec.in_file (line_fault file.now) read) }
    ensures kept { IfOk result (λ value. answer ≡ Ok value) }
{
    match ReadError::split(answer)? {
        Ok(value) => Ok(value),
        Err(fault) => Err(ReadError::Fault(fault_in(
            alloc,
            file,
            fault.line,
            SiteRule::Line(fault.rule),
            None,
        )?)),
    }
}

/// Makes the fault of a line of a file.
fn fault_in(
    alloc: Global,
    file: &str,
    line: u32,
    rule: SiteRule,
    other: Option<u32>,
) -> Result<SiteFault, AllocError>
    ensures { IfOk result (λ fault. fault ≡ record { file = file.now; line = line; rule = rule; other = other; address = None }) }
{
    Ok(SiteFault {
        file: Text::copy(alloc, file)?,
        line,
        rule,
        other,
        address: None,
    })
}

/// Reads the policy that a whole exports text writes, by this profile, with these file systems and no other table. Its faults
/// and warnings are of the file `exports`.
pub fn parse_whole(
    alloc: Global,
    profile: Profile,
    text: &str,
    filesystems: FileSystems,
) -> Result<Policy, ReadError<SiteFault>>
    requires { IsReadable text.now }
    ensures { Reads result (spec.read_whole_policy profile filesystems text.now) }
{
    let site_tables = SiteTables::new(alloc);
    parse_whole_with(alloc, profile, text, filesystems, &site_tables)
}

/// Reads the policy that a whole exports text writes, by this profile, with these file systems and tables. Its faults and
/// warnings are of the file `exports`: the netgroup file's own warnings are not among them.
pub fn parse_whole_with(
    alloc: Global,
    profile: Profile,
    text: &str,
    filesystems: FileSystems,
    site_tables: &SiteTables,
) -> Result<Policy, ReadError<SiteFault>>
    requires { IsReadable text.now }
    ensures { Reads result (spec.read_whole_with profile site_tables.now filesystems text.now) }
{
    let entries = whole_entries(alloc, profile, text, &filesystems, site_tables)?;
    let warnings = whole_warnings(
        alloc,
        &site_tables.netgroups,
        &site_tables.hosts,
        entries.as_slice(),
    )?;
    let policy = Policy::of_entries(
        alloc,
        &site_tables.netgroups,
        &site_tables.hosts,
        filesystems,
        entries,
    )?;
    Ok(policy.with_warnings(warnings))
}

/// Reads the policy that a whole exports text writes, as `parse_whole_with` does, but none of its warnings. There may be one
/// for each word of the text, so this is for callers that show none. If several texts were read as one, its lines are of these.
pub fn parse_whole_without_warnings(
    alloc: Global,
    profile: Profile,
    text: &str,
    origins: &[Origin],
    filesystems: FileSystems,
    site_tables: &SiteTables,
) -> Result<Policy, ReadError<SiteFault>>
    requires { IsReadable text.now }
    ensures { Reads result (spec.without_warnings (spec.read_of origins.now (spec.read_whole_with profile site_tables.now filesystems text.now))) }
{
    let own = copied(alloc, origins)?;
    let entries = whole_entries(alloc, profile, text, &filesystems, site_tables)?;
    let policy = Policy::of_entries(
        alloc,
        &site_tables.netgroups,
        &site_tables.hosts,
        filesystems,
        entries,
    )?;
    Ok(policy.with_origins(own))
}

/// Reads the entries of a whole exports text, or its fault in the file `exports`.
fn whole_entries(
    alloc: Global,
    profile: Profile,
    text: &str,
    filesystems: &FileSystems,
    site_tables: &SiteTables,
) -> Result<Sequence<(FsId, Boxed<Entry>)>, ReadError<SiteFault>>
    requires { IsReadable text.now }
    ensures read { Reads result (spec.in_file (line_fault (codes "exports")) (whole_answer (spec.rows_with profile filesystems.now site_tables.now) text.now)) }
    ensures ascending { IfOk result EntriesAscend }
{
    let tables = Tables {
        profile,
        networks: &site_tables.networks,
        users: &site_tables.users,
        groups: &site_tables.groups,
        filesystems,
    };
    in_exports(alloc, "exports", read_whole(alloc, text, &tables))
}
