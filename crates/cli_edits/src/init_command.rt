//! The command `init`: a new database of a site's files.

ghost use Rattle.std.specs.Prelude.{◌≡◌, ◌≤◌, ◌++◌, ℕ, Err, false, IfOk, List, Ok, OnOk, if◌then◌else◌, length, map, string_bytes, unwrap_or};
ghost use Rattle.std.specs.BTreeMap.{get_by_text};
ghost use Rattle.std.specs.List.{flat_map};
ghost use Rattle.std.specs.Str.{bytes_eq};
ghost use Rattle.sqlite.specs.Held.{state};
ghost use Rattle.desk_text.specs.Lines.{IsReadable};
ghost use Rattle.desk_tables.specs.FileSystemsText.{read_filesystems};
ghost use Rattle.desk_policy.specs.Site.{no_exports, texts_of};
ghost use Rattle.desk_core.specs.declared.edit.Refusal.TheVariants.{Fault as SiteRefusal, TooLarge as TooLargeRefusal};
ghost use Rattle.desk_service.specs.declared.refused.Refused.TheVariants as refused;
ghost use Rattle.cli_output.specs.Printed.{PrintsText};
ghost use Rattle.cli_words.specs.Words.{rows_in};
ghost use Rattle.cli_files.specs.SiteFolder.{AreShortFiles, site_list};
ghost use Rattle.cli_desk.specs.RefusalLines.{IsRefused, filed_line};
ghost use Rattle.cli_edits.specs.InitCommand.{AnswersInit, AnswersInitSite, AnswersInitTexts, AnswersInitWith, AreParts, ComesTo, Creates, IsReadyText, IsRefusedFor, IsSiteWith, SplitsExports, Stores, fault_line, new_exports, ready_text, split_line, warning_line};

use crate::server_note::counted;
use clap::ArgMatches;
use cli_database_files::new_files::{NewFiles, is_blank};
use cli_database_files::obstacles::{Obstacle, find_obstacle_to_make};
use cli_desk::View;
use cli_desk::refusal_lines::{filed_line, refused};
use cli_desk::refusal_notes::{
    not_opened_at, not_writable, obstructed, refused_by_store, refused_by_table, too_large_note,
};
use cli_files::site_folder::{SiteFiles, mounts_path, paths_of, read_texts, sources_of};
use cli_output::failure::Failure;
use cli_output::printed::Printed;
use cli_words::words::required;
use desk_check::{tell_site_fault, tell_split_fault};
use desk_core::{LONGEST_REVISION, Refusal};
use desk_exports::{Profile, Rule};
use desk_findings::{SiteSources, Source, WholeSources};
use desk_policy::{
    ExportsText, PerSite, PerTable, Site, SiteFault, SiteFile, Warning, mount_of, parse,
};
use desk_service::Refused;
use desk_split::{SplitFault, split};
use desk_store::{CreateError, Desk};
use desk_tables::{FileSystems, Mount};
use desk_text::{LineFault, ReadError, Text};
use sqlite::{Alter, Connection, Error, Wary};
use std::alloc::{AllocError, Global};
use std::collections::BTreeMap;
use std::io;
use std::io::BufRead;

/// Answers `init DB DIR`. If the folder has no file of file systems, their first revision lists the mount points of its file `mounts`,
/// which `site` keeps.
pub fn run_init<I: BufRead>(
    rt: &HostRuntime,
    words: &ArgMatches<'_>,
    input: &mut I,
) -> Result<Printed, Failure>
    ensures { AnswersInit (rows_in words.now) (I.remaining input.old) result }
{
    let db = required(words, "DB")?;
    let dir = required(words, "DIR")?;
    let paths = paths_of(rt.alloc(), dir)?;
    let mounts = mounts_path(rt.alloc(), dir)?;
    let texts = read_texts(rt, "DIR", &paths, mounts.as_str(), input)?;
    split_texts(rt, db, &paths, &texts)
}

/// Splits the exports text, and makes a database of the texts; or prints the fault for which it is not split.
fn split_texts(
    rt: &HostRuntime,
    db: &str,
    paths: &SiteFiles,
    texts: &SiteFiles,
) -> Result<Printed, Failure>
    requires { AreShortFiles texts.now }
    ensures { AnswersInitTexts (site_list texts.now) result }
{
    match split_exports(rt.alloc(), texts) {
        Ok(exports) => build_site(rt, db, paths, texts, exports),
        Err(ReadError::Fault(fault)) => not_split(rt.alloc(), sources_of(paths, texts), fault),
        Err(ReadError::Memory) => Err(Failure::Memory),
    }
}

/// Prints the fault for which the exports text is not split.
fn not_split(
    alloc: Global,
    sources: SiteSources<'_>,
    fault: LineFault<Rule>,
) -> Result<Printed, Failure>
    requires filesystems { IsReadable sources.filesystems.text.now }
    requires exports { IsReadable sources.whole.exports.text.now }
    ensures { PrintsText 3 (split_line fault) result }
{
    let note = tell_split_fault(
        alloc,
        sources.whole.exports,
        sources.filesystems,
        SplitFault::Exports(fault),
    )?;
    let text = fault_line(alloc, fault.line, fault.rule.number(), fault.rule.name())?;
    Ok(Printed {
        status: 3,
        text,
        note,
    })
}

/// Writes the line of a fault in the exports text.
fn fault_line(alloc: Global, line: u32, number: u32, name: &str) -> Result<String, AllocError>
    ensures { IfOk result (λ text. string_bytes text ≡ fault_line line number name.now) }
{
    format!(in alloc; "fault exports line {line} rule {number} {name}\n")
}

/// Splits the exports text into that of each file system; into none, if the file systems have a fault.
fn split_exports(
    alloc: Global,
    texts: &SiteFiles,
) -> Result<BTreeMap<String, ExportsText>, ReadError<LineFault<Rule>>>
    requires { AreShortFiles texts.now }
    ensures { SplitsExports (read_filesystems (string_bytes texts.now.filesystems)) (string_bytes texts.now.exports) result }
{
    match ReadError::split(FileSystems::read(alloc, texts.filesystems.as_str()))? {
        Ok(table) => split_for(alloc, texts.exports.as_str(), &table),
        Err(_) => Ok(BTreeMap::new(alloc)),
    }
}

/// Splits the exports text among these file systems.
fn split_for(
    alloc: Global,
    text: &str,
    table: &FileSystems,
) -> Result<BTreeMap<String, ExportsText>, ReadError<LineFault<Rule>>>
    requires { length text.now ≤ 16777216 }
    ensures { SplitsExports (Ok table.now) text.now result }
{
    let parts = split(alloc, text, table)?;
    let exports = by_mount(alloc, table.as_slice(), parts.as_slice())?;
    Ok(exports)
}

/// Puts the text of each file system under its printed mount point, from the last one to the first.
fn by_mount(
    alloc: Global,
    mounts: &[Mount],
    parts: &[String],
) -> Result<BTreeMap<String, ExportsText>, AllocError>
    requires { length parts.now ≡ length mounts.now }
    ensures { IfOk result (AreParts mounts.now (map string_bytes parts.now)) }
{
    let mut exports = BTreeMap::new(alloc);
    let mut left = mounts.len();
    while left > 0 {
        left -= 1;
        let mount = mounts[left].path.text();
        put_part(alloc, &mut exports, mount, parts[left].as_str())?;
    }
    Ok(exports)
}

/// Puts a text under a mount point.
fn put_part(
    alloc: Global,
    exports: &mut BTreeMap<String, ExportsText>,
    mount: &str,
    text: &str,
) -> Result<(), AllocError>
    ensures { OnOk result ((name : List ℕ) → unwrap_or (get_by_text exports.new name) no_exports
        ≡ (if bytes_eq mount.now name then new_exports text.now else unwrap_or (get_by_text exports.old name) no_exports)) }
{
    let mount = String::from_str(alloc, mount)?;
    let body = Text::copy(alloc, text)?;
    let text = ExportsText {
        profile: Profile::Two,
        body,
    };
    exports.insert(mount, text)?;
    Ok(())
}

/// Builds the site of the seven files and these exports texts, and makes a database of it.
fn build_site(
    rt: &HostRuntime,
    db: &str,
    paths: &SiteFiles,
    texts: &SiteFiles,
    exports: BTreeMap<String, ExportsText>,
) -> Result<Printed, Failure>
    ensures { AnswersInitWith (site_list texts.now) exports result }
{
    let site = site_of(rt.alloc(), texts, exports)?;
    let mut note = String::new(rt.alloc());
    match make_files(rt, db, &site, &mut note) {
        Ok(ready) => Ok(Printed {
            status: 0,
            text: ready,
            note,
        }),
        Err(refused) => refuse(rt, db, sources_of(paths, texts), &site, refused),
    }
}

/// Returns the site of the seven files and these exports texts.
fn site_of(
    alloc: Global,
    texts: &SiteFiles,
    exports: BTreeMap<String, ExportsText>,
) -> Result<Site, AllocError>
    ensures { IfOk result (λ site. IsSiteWith (site_list texts.now) exports (texts_of site)) }
{
    let tables = PerTable {
        hosts: texts.hosts.as_str(),
        networks: texts.networks.as_str(),
        passwd: texts.passwd.as_str(),
        group: texts.group.as_str(),
        netgroup: texts.netgroup.as_str(),
    };
    let files = PerSite {
        custodians: texts.custodians.as_str(),
        filesystems: texts.filesystems.as_str(),
        tables,
    };
    Ok(Site {
        files: PerSite::copy(alloc, files)?,
        exports,
    })
}

/// Writes the warnings of a site, each in a line, and `ready`. A site that is refused has none: one with a fault, or with a
/// text that is too long. A text that is too long is not parsed, since that could take long.
fn ready_text(alloc: Global, site: &Site) -> Result<String, AllocError>
    ensures { IfOk result (λ text. IsReadyText (texts_of site.now) (string_bytes text)) }
{
    if !site.has_lengths_within(LONGEST_REVISION) {
        return warned_text(alloc, &[]);
    }
    match parse(alloc, site) {
        Ok(policy) => warned_text(alloc, policy.warnings()),
        Err(ReadError::Fault(_)) => warned_text(alloc, &[]),
        Err(ReadError::Memory) => Err(AllocError),
    }
}

/// Writes a line for each warning, and `ready`.
fn warned_text(alloc: Global, warnings: &[Warning]) -> Result<String, AllocError>
    ensures { IfOk result (λ text. string_bytes text ≡ ready_text warnings.now) }
{
    let mut text = String::new(alloc);
    push_warnings(warnings, &mut text)?;
    text.push_str("ready\n")?;
    Ok(text)
}

/// Writes a line for each warning.
fn push_warnings(warnings: &[Warning], text: &mut String) -> Result<(), AllocError>
    ensures { OnOk result (string_bytes text.new ≡ string_bytes text.old ++ flat_map warning_line warnings.now) }
{
    for warning in warnings {
        push_warning(warning, text)?;
    }
    Ok(())
}

/// Writes the line of a warning.
fn push_warning(warning: &Warning, text: &mut String) -> Result<(), AllocError>
    ensures { OnOk result (string_bytes text.new ≡ string_bytes text.old ++ warning_line warning.now) }
{
    let file = warning.file.as_str();
    let line = warning.line;
    let name = warning.kind.name();
    let word = warning.word.as_str();
    write!(text, "warning {file} line {line} {name} {word}\n")
}

/// Why a site is not stored.
#[derive(Drop)]
pub enum NotMade {
    /// The file cannot be made, or not be written.
    File(io::Error),
    /// Something stands in the way of the files.
    Obstacle(Obstacle),
    /// SQLite does not open it.
    Unopened(Error),
    Create(CreateError),
    Memory,
}

/// Makes the files of a new database, if nothing known stands in the way, and stores a site. Returns what is printed of it; the note
/// is what is said beside it.
fn make_files(rt: &HostRuntime, db: &str, site: &Site, note: &mut String) -> Result<String, NotMade>
    ensures { ComesTo (texts_of site.now) result }
{
    match find_obstacle_to_make(rt, db) {
        Ok(None) => {}
        Ok(Some(obstacle)) => return Err(NotMade::Obstacle(obstacle)),
        Err(error) => return Err(NotMade::File(error)),
    }
    match NewFiles::make(rt, db) {
        Ok(new) => open_made(rt, site, &new, note),
        Err(error) => Err(NotMade::File(error)),
    }
}

/// Opens the files that were made, and stores a site. They are removed if SQLite does not open them.
fn open_made(
    rt: &HostRuntime,
    site: &Site,
    new: &NewFiles,
    note: &mut String,
) -> Result<String, NotMade>
    ensures { ComesTo (texts_of site.now) result }
{
    match Connection::open_from(rt, new.path.as_str(), false, Wary) {
        Ok(conn) => {
            let (stored, conn) = remove_if_refused(rt, conn, site, new, note);
            drop(conn);
            stored
        }
        Err((error, left)) => {
            drop(left);
            new.remove_unopened(rt);
            Err(NotMade::Unopened(error))
        }
    }
}

/// Stores a site in the database of a connection, which is handed back. The files that were made for a site that is refused
/// are removed.
fn remove_if_refused<S: Alter + Drop>(
    rt: &HostRuntime,
    conn: Connection<S>,
    site: &Site,
    new: &NewFiles,
    note: &mut String,
) -> (Result<String, NotMade>, Connection<S>)
    requires { (state S.Store conn).in_transaction ≡ false }
    ensures { Stores S.Store conn result.1 (texts_of site.now) result.0 }
{
    let was_blank = is_blank(&conn);
    let (stored, conn) = with_ready_text(rt.alloc(), conn, site, note);
    if stored.is_err() {
        // Before the lock goes with the connection: after that, another process may write the files.
        new.remove_refused(rt, was_blank);
    }
    (stored, conn)
}

/// Writes what is printed of a site, and stores it in the database of a connection, which is handed back.
fn with_ready_text<S: Alter + Drop>(
    alloc: Global,
    conn: Connection<S>,
    site: &Site,
    note: &mut String,
) -> (Result<String, NotMade>, Connection<S>)
    requires { (state S.Store conn).in_transaction ≡ false }
    ensures { Stores S.Store conn result.1 (texts_of site.now) result.0 }
{
    // It takes memory, so it comes first.
    let Ok(ready) = ready_text(alloc, site) else {
        return (Err(NotMade::Memory), conn);
    };
    let (created, conn) = create_desk(alloc, conn, site, note);
    match created {
        Ok(()) => (Ok(ready), conn),
        Err(error) => (Err(NotMade::Create(error)), conn),
    }
}

/// Makes a desk of a site in the database of a connection, which is handed back. The note counts the lines of the policy in force at
/// which mountd(8) may decide otherwise.
fn create_desk<S: Alter + Drop>(
    alloc: Global,
    conn: Connection<S>,
    site: &Site,
    note: &mut String,
) -> (Result<(), CreateError>, Connection<S>)
    requires { (state S.Store conn).in_transaction ≡ false }
    ensures { Creates (state S.Store conn) (state S.Store result.1) (texts_of site.now) result.0 }
{
    let created: Result<Desk<S, View>, _> = Desk::create(alloc, conn, site);
    match created {
        Ok(desk) => {
            *note = counted(alloc, desk.view());
            (Ok(()), desk.into_connection())
        }
        Err((error, conn)) => (Err(error), conn),
    }
}

/// Prints why a site is not stored.
fn refuse(
    rt: &HostRuntime,
    db: &str,
    sources: SiteSources<'_>,
    site: &Site,
    refused: NotMade,
) -> Result<Printed, Failure>
    requires { IsRefusedFor (texts_of site.now) refused }
    ensures { AnswersInitSite (texts_of site.now) result }
{
    let alloc = rt.alloc();
    match refused {
        NotMade::File(error) => not_writable(alloc, db, &error),
        NotMade::Obstacle(obstacle) => obstructed(alloc, db, obstacle),
        NotMade::Unopened(error) => not_opened_at(rt, db, error),
        NotMade::Memory => Err(Failure::Memory),
        NotMade::Create(CreateError::Store(fault)) => refused_by_store(alloc, db, fault),
        NotMade::Create(CreateError::Schema) => refused_by_table(alloc, db),
        NotMade::Create(CreateError::Memory) => Err(Failure::Memory),
        NotMade::Create(CreateError::Fault(fault)) => faulty(alloc, sources, site, fault),
        NotMade::Create(CreateError::TooLarge(file)) => too_large(alloc, sources, file),
    }
}

/// Prints that the text of a file is too long for a new database.
fn too_large(alloc: Global, sources: SiteSources<'_>, file: Text) -> Result<Printed, Failure>
    ensures { PrintsText 1 (filed_line TooLargeRefusal file) result }
{
    let note = match mount_of(file.as_str()) {
        Some(mount) => lines_too_large_note(alloc, sources.whole.exports.path, mount)?,
        None => too_large_note(alloc, "DIR", path_of(sources, file.as_str()))?,
    };
    let text = filed_line(alloc, &Refusal::TooLarge, file.as_str())?;
    Ok(Printed {
        status: 1,
        text,
        note,
    })
}

/// Says that the lines of a file system are too long for a revision.
fn lines_too_large_note(alloc: Global, path: &str, mount: &str) -> Result<String, AllocError> {
    format!(in alloc; "exportdesk: DIR {path:?}: the lines of {mount:?} are over 65536 bytes\n")
}

/// Lends the path of the file of this name, or the exports file's if it is not one of the seven.
fn path_of<'a>(sources: SiteSources<'a>, name: &str) -> &'a str {
    match SiteFile::of(name) {
        Some(SiteFile::Custodians) => sources.custodians.path,
        Some(SiteFile::Filesystems) => sources.filesystems.path,
        Some(SiteFile::Hosts) => sources.whole.tables.hosts.path,
        Some(SiteFile::Networks) => sources.whole.tables.networks.path,
        Some(SiteFile::Passwd) => sources.whole.tables.passwd.path,
        Some(SiteFile::Group) => sources.whole.tables.group.path,
        Some(SiteFile::Netgroup) => sources.whole.tables.netgroup.path,
        None => sources.whole.exports.path,
    }
}

/// Lends the sources with the exports file of this name, if there is one, in the place of the whole exports text.
fn with_exports<'a>(sources: SiteSources<'a>, site: &'a Site, name: &'a str) -> SiteSources<'a> {
    let text = match mount_of(name) {
        Some(mount) => site.exports_text(mount),
        None => "",
    };
    SiteSources {
        custodians: sources.custodians,
        filesystems: sources.filesystems,
        whole: WholeSources {
            tables: sources.whole.tables,
            exports: Source {
                path: name,
                text,
                origins: &[],
            },
        },
    }
}

/// Prints the fault of a site.
fn faulty(
    alloc: Global,
    sources: SiteSources<'_>,
    site: &Site,
    fault: SiteFault,
) -> Result<Printed, Failure>
    ensures { IsRefused (refused.Edit (SiteRefusal fault)) result }
{
    let name = fault.file.as_str();
    let note = tell_site_fault(
        alloc,
        Profile::Two,
        with_exports(sources, site, name),
        &fault,
    )?;
    refused(alloc, Refused::Edit(Refusal::Fault(fault)), note)
}
