//! The file systems of which a command is asked: those of MOUNT, of the file of `--mounts`, or of a folder.

ghost use Rattle.std.specs.Prelude.{◌≡◌, IfOk, Some, codes};
ghost use Rattle.std.specs.String.{string_bytes};
ghost use Rattle.clap.specs.Words.{all_of, first_of};
ghost use Rattle.desk_text.specs.Lines.{IsReadable};
ghost use Rattle.desk_tables.specs.FileSystemsText.{read_filesystems};
ghost use Rattle.cli_files.specs.Files.{Leaves};
ghost use Rattle.cli_files.specs.FolderSystems.{LeavesBehind, systems_paths};
ghost use Rattle.cli_words.specs.Words.{rows_in};
ghost use Rattle.cli_sources.specs.Systems as spec;
ghost use Rattle.cli_sources.specs.Systems.{AnswersText, LeavesSystems, PrintsSystemsFault, ReadsByWords, ReadsFolder, ReadsMountsFile, ReadsSystems, TellsSystemsFault, files_of};

use crate::line_ends::end_line;
use crate::subject::{SiteFolder, Subject};
use crate::table_files::inputs;
use clap::ArgMatches;
use cli_files::files::read_text;
use cli_files::folder_systems::{FolderSystems, SystemsFiles};
use cli_files::mounts_file::mounts_of;
use cli_output::failure::Failure;
use cli_output::printed::Printed;
use cli_words::values::read_mounts;
use cli_words::words::{all_given, given};
use desk_check::{split_fault_json, tell_split_fault};
use desk_findings::Source;
use desk_split::SplitFault;
use desk_tables::{FileSystems, TableFault};
use desk_text::ReadError;
use std::alloc::{AllocError, Global};
use std::io::BufRead;

/// Makes the file systems of which a command is asked, or prints the fault of their text, in a line or as JSON. MOUNT is parsed before
/// any file is read, and the file of `--mounts` is read before the others, of which so many are standard input.
pub fn read_systems<I: BufRead>(
    rt: &HostRuntime,
    json: bool,
    words: &ArgMatches<'_>,
    subject: &Subject<'_>,
    others: usize,
    input: &mut I,
) -> Result<Result<FileSystems, Printed>, Failure>
    ensures systems { ReadsSystems json subject.now (rows_in words.now) others (I.remaining input.old) result }
    ensures left { LeavesSystems subject.now (rows_in words.now) (I.remaining input.old) (I.remaining input.new) }
{
    match subject {
        Subject::File(_) => match read_by_words(rt, words, others, input) {
            Ok(filesystems) => Ok(Ok(filesystems)),
            Err(failure) => Err(failure),
        },
        Subject::Site(folder) => read_folder(rt, json, folder, input),
    }
}

/// Makes the file systems of MOUNT, or of the file of `--mounts`.
fn read_by_words<I: BufRead>(
    rt: &HostRuntime,
    words: &ArgMatches<'_>,
    others: usize,
    input: &mut I,
) -> Result<FileSystems, Failure>
    ensures systems { let rows = rows_in words.now in ReadsByWords (all_of (codes "MOUNT") rows) (first_of (codes "mounts") rows) others (I.remaining input.old) result }
    ensures left { Leaves (first_of (codes "mounts") (rows_in words.now)) (I.remaining input.old) (I.remaining input.new) }
{
    match all_given(words, "MOUNT") {
        Some(mounts) => match given(words, "mounts") {
            Some(_) => Err(Failure::BesideMounts),
            None => read_mounts(rt.alloc(), mounts),
        },
        None => match given(words, "mounts") {
            Some(file) => read_mounts_file(rt, file, others, input),
            None => Err(Failure::of_missing("MOUNT")),
        },
    }
}

/// Makes the file systems of a file of mount points. Only one file may be standard input.
fn read_mounts_file<I: BufRead>(
    rt: &HostRuntime,
    file: &str,
    others: usize,
    input: &mut I,
) -> Result<FileSystems, Failure>
    ensures systems { ReadsMountsFile file.now others (I.remaining input.old) result }
    ensures left { Leaves (Some file.now) (I.remaining input.old) (I.remaining input.new) }
{
    if is_input_again(file, others) {
        return Err(Failure::InputTwice);
    }
    let text = read_text(rt, "--mounts", file, input)?;
    mounts_of(rt.alloc(), "--mounts", file, text.as_str())
}

/// Tests whether a file is standard input, and one of the others is too.
fn is_input_again(file: &str, others: usize) -> bool
    ensures { result ≡ spec.is_input_again file.now others }
{
    inputs(file) == 1 && others > 0
}

/// Makes the file systems of a folder.
fn read_folder<I: BufRead>(
    rt: &HostRuntime,
    json: bool,
    folder: &SiteFolder,
    input: &mut I,
) -> Result<Result<FileSystems, Printed>, Failure>
    ensures systems { ReadsFolder json folder.now result }
    ensures left { LeavesBehind (files_of folder.now) (I.remaining input.old) (I.remaining input.new) }
{
    match cli_files::folder_systems::read_systems(rt, "--site", systems_files(folder), input) {
        Ok(FolderSystems::Mounted(filesystems)) => Ok(Ok(filesystems)),
        Ok(FolderSystems::Listed(text)) => {
            let source = Source {
                path: folder.paths.filesystems.as_str(),
                text: text.as_str(),
                origins: &[],
            };
            Ok(read_listed(rt.alloc(), json, source)?)
        }
        Err(failure) => Err(failure),
    }
}

/// Lends the paths of the two files of a folder that list its file systems.
pub fn systems_files(folder: &SiteFolder) -> SystemsFiles<'_>
    ensures { systems_paths result ≡ files_of folder.now }
{
    SystemsFiles {
        filesystems: folder.paths.filesystems.as_str(),
        mounts: folder.mounts.as_str(),
    }
}

/// Reads the file systems of a text, or prints its fault.
fn read_listed(
    alloc: Global,
    json: bool,
    source: Source<'_>,
) -> Result<Result<FileSystems, Printed>, AllocError>
    requires { IsReadable source.text.now }
    ensures { IfOk result (AnswersText json source.entry (read_filesystems source.entry.text.now)) }
{
    match ReadError::split(FileSystems::read(alloc, source.text))? {
        Ok(filesystems) => Ok(Ok(filesystems)),
        Err(fault) => Ok(Err(print_fault(alloc, json, source, fault)?)),
    }
}

/// Prints the fault of a text of file systems, and on standard error the finding that `check` makes of it.
fn print_fault(
    alloc: Global,
    json: bool,
    source: Source<'_>,
    fault: TableFault,
) -> Result<Printed, AllocError>
    requires { IsReadable source.text.now }
    ensures { IfOk result (PrintsSystemsFault json source.entry fault) }
{
    let split_fault = SplitFault::FileSystems(fault);
    let note = tell_split_fault(alloc, source, source, split_fault)?;
    let text = told_fault(alloc, json, source, fault)?;
    Ok(Printed {
        status: 3,
        text,
        note,
    })
}

/// Writes the fault of a text of file systems in a line, or as JSON: the list of that finding alone.
fn told_fault(
    alloc: Global,
    json: bool,
    source: Source<'_>,
    fault: TableFault,
) -> Result<String, AllocError>
    requires { IsReadable source.text.now }
    ensures { IfOk result (λ text. TellsSystemsFault json source.entry fault (string_bytes text)) }
{
    let fault = SplitFault::FileSystems(fault);
    if json {
        Ok(split_fault_json(alloc, source, source, fault)?)
    } else {
        Ok(end_line(fault.text(alloc)?)?)
    }
}
