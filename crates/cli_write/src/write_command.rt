//! The command `write`: the newest texts of a database, as the files that `init` reads.

ghost use Rattle.std.specs.Prelude.{◌≡◌, find, map};
ghost use Rattle.std.specs.Option.{option_copied};
ghost use Rattle.std.specs.String.{string_bytes};
ghost use Rattle.sqlite.specs.Files.{over_files};
ghost use Rattle.desk_core.specs.Head.{newest_in};
ghost use Rattle.desk_core.specs.declared.edit.Refusal.TheVariants.{Fault as SiteRefusal};
ghost use Rattle.desk_service.specs.declared.refused.Refused.TheVariants as refused;
ghost use Rattle.cli_words.specs.Words.{rows_in};
ghost use Rattle.cli_files.specs.SiteFolder.{site_list, site_paths};
ghost use Rattle.cli_desk.specs.Desks.{IsCopied};
ghost use Rattle.cli_desk.specs.RefusalLines.{IsRefused};
ghost use Rattle.cli_write.specs.Replacing.{name_in, path_in, text_in};
ghost use Rattle.cli_write.specs.TextsBack.{texts_back};
ghost use Rattle.cli_write.specs.WriteCommand.{AnswersWrite, PrintsWritten, RefusesTooLong, WritesDatabase, WritesNamed, WritesReadable, WritesStored, WritesTexts, is_too_long, site_names};

use crate::replacing::{NewText, replace_files};
use crate::texts_back::texts_back;
use clap::ArgMatches;
use cli_desk::View;
use cli_desk::desks::{CopiedDesk, open_copied_desk};
use cli_desk::refusal_lines::{filed_line, refused};
use cli_desk::site_notes::fault_note;
use cli_files::input::LONGEST_INPUT;
use cli_files::site_folder::{SiteFiles, paths_of};
use cli_output::failure::Failure;
use cli_output::printed::Printed;
use cli_words::words::required;
use desk_core::Refusal;
use desk_exports::Profile;
use desk_policy::{SiteFault, SiteFile};
use desk_service::{Answer, ListedFiles, Looked, Question, Refused, answer, read_by_second};
use desk_text::ReadError;
use std::alloc::{AllocError, Global};

/// Answers `write DB DIR`.
pub fn run_write(rt: &HostRuntime, words: &ArgMatches<'_>) -> Result<Printed, Failure>
    ensures { AnswersWrite (rows_in words.now) result }
{
    let db = required(words, "DB")?;
    let dir = required(words, "DIR")?;
    write_database(rt, db, dir)
}

/// Writes the newest texts of a database into a folder, if `init` can read them all.
fn write_database(rt: &HostRuntime, db: &str, dir: &str) -> Result<Printed, Failure>
    ensures { WritesDatabase db.now dir.now result }
{
    match open_copied_desk(rt, db) {
        Ok(desk) => {
            let printed = write_desk(rt, dir, &desk);
            drop(desk);
            printed
        }
        Err(answer) => answer,
    }
}

/// Writes the newest texts of a desk on a copy into a folder, if `init` can read them all.
fn write_desk(rt: &HostRuntime, dir: &str, desk: &CopiedDesk) -> Result<Printed, Failure>
    requires { IsCopied over_files desk.now }
    ensures { WritesStored dir.now result }
{
    let found = answer(rt.alloc(), desk, Question::Files, Looked::Nothing)?;
    match found {
        Answer::Files(listed) => {
            let printed = write_newest(rt, dir, &listed);
            drop(listed);
            printed
        }
        // The question is about files.
        _ => unreachable!(),
    }
}

/// Writes the newest texts of files into a folder, if `init` can read them all.
fn write_newest(rt: &HostRuntime, dir: &str, listed: &ListedFiles<'_>) -> Result<Printed, Failure>
    ensures { let newest = newest_in listed.now.heads.now in
        WritesReadable dir.now newest (texts_back listed.now.filesystems.now newest) result }
{
    match read_by_second::<View>(rt.alloc(), listed.heads) {
        Ok(()) => write_back(rt, dir, listed),
        Err(ReadError::Fault(fault)) => refuse_faulty(rt.alloc(), listed, fault),
        Err(ReadError::Memory) => Err(Failure::Memory),
    }
}

/// Refuses the fault that `init` would find.
fn refuse_faulty(
    alloc: Global,
    listed: &ListedFiles<'_>,
    fault: SiteFault,
) -> Result<Printed, Failure>
    ensures { IsRefused (refused.Edit (SiteRefusal fault)) result }
{
    let note = second_fault_note(alloc, listed, &fault)?;
    refused(alloc, Refused::Edit(Refusal::Fault(fault)), note)
}

/// Says the fault that `init` would find, as `check` does, and what to do about it.
fn second_fault_note(
    alloc: Global,
    listed: &ListedFiles<'_>,
    fault: &SiteFault,
) -> Result<String, AllocError> {
    let finding = fault_note(alloc, Profile::Two, listed, None, fault)?;
    let name = fault.file.as_str();
    format!(in alloc;
        "{finding}exportdesk: NAME {name:?}: its newest revision is of profile 1, and init reads by profile 2: put a text without this fault first\n"
    )
}

/// Writes the newest texts of files into a folder, if none is too long for `init`.
fn write_back(rt: &HostRuntime, dir: &str, listed: &ListedFiles<'_>) -> Result<Printed, Failure>
    ensures { WritesTexts dir.now (texts_back listed.now.filesystems.now (newest_in listed.now.heads.now)) result }
{
    let texts = texts_back(rt.alloc(), listed)?;
    write_texts(rt, dir, &texts)
}

/// Writes texts into a folder, each as the file of its name, if none is too long for `init`.
fn write_texts(rt: &HostRuntime, dir: &str, texts: &SiteFiles) -> Result<Printed, Failure>
    ensures { WritesTexts dir.now (site_list texts.now) result }
{
    let paths = paths_of(rt.alloc(), dir)?;
    let files = new_texts(&paths, texts);
    write_files(rt, &files)
}

/// Puts each text beside the name and the path of its file.
fn new_texts<'a>(paths: &'a SiteFiles, texts: &'a SiteFiles) -> [NewText<'a>; 8]
    ensures names { map name_in result ≡ site_names }
    ensures paths { map path_in result ≡ site_list paths.now }
    ensures texts { map text_in result ≡ site_list texts.now }
{
    [
        new_text(
            SiteFile::Custodians.name(),
            &paths.custodians,
            &texts.custodians,
        ),
        new_text(
            SiteFile::Filesystems.name(),
            &paths.filesystems,
            &texts.filesystems,
        ),
        new_text(SiteFile::Hosts.name(), &paths.hosts, &texts.hosts),
        new_text(SiteFile::Networks.name(), &paths.networks, &texts.networks),
        new_text(SiteFile::Passwd.name(), &paths.passwd, &texts.passwd),
        new_text(SiteFile::Group.name(), &paths.group, &texts.group),
        new_text(SiteFile::Netgroup.name(), &paths.netgroup, &texts.netgroup),
        new_text("exports", &paths.exports, &texts.exports),
    ]
}

/// Puts a text beside the name and the path of its file.
fn new_text<'a>(name: &'a str, path: &'a String, text: &'a String) -> NewText<'a>
    ensures name { result.name.now ≡ name.now }
    ensures path { result.path.now ≡ string_bytes path.now }
    ensures text { result.text.now ≡ string_bytes text.now }
{
    NewText {
        name,
        path: path.as_str(),
        text: text.as_str(),
    }
}

/// Writes files, if none is too long for `init`.
fn write_files(rt: &HostRuntime, files: &[NewText<'_>]) -> Result<Printed, Failure>
    ensures { WritesNamed (map name_in files.now) (map path_in files.now) (map text_in files.now) result }
{
    match find_too_long(files) {
        Some(file) => refuse_too_long(rt.alloc(), file),
        None => write_all(rt, files),
    }
}

/// Writes files, and prints which got another text.
fn write_all(rt: &HostRuntime, files: &[NewText<'_>]) -> Result<Printed, Failure>
    ensures { PrintsWritten (map name_in files.now) (map path_in files.now) result }
{
    let text = replace_files(rt, files)?;
    let note = String::new(rt.alloc());
    Ok(Printed {
        status: 0,
        text,
        note,
    })
}

/// Finds the first file whose text is too long to be read.
fn find_too_long<'a, 'b>(files: &'a [NewText<'b>]) -> Option<&'a NewText<'b>>
    ensures { option_copied result ≡ find (λ file. is_too_long file.text.now) files.now }
{
    files.iter().find(|file| file.text.len() > LONGEST_INPUT)
}

/// Refuses the text of a file, since it is too long to be read.
fn refuse_too_long(alloc: Global, file: &NewText<'_>) -> Result<Printed, Failure>
    ensures { RefusesTooLong file.now.name.now result }
{
    let path = file.path;
    let note = format!(in alloc;
        "exportdesk: DIR {path:?}: it would be over 16777216 bytes, which init does not read\n"
    )?;
    let text = filed_line(alloc, &Refusal::TooLarge, file.name)?;
    Ok(Printed {
        status: 1,
        text,
        note,
    })
}
