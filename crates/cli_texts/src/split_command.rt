//! The command `split`: an exports text split among the file systems that another text lists.

ghost use Rattle.std.specs.Prelude.{◌≡◌, IfOk, map};
ghost use Rattle.std.specs.Result.{result_map_both};
ghost use Rattle.desk_text.specs.Lines.{IsReadable};
ghost use Rattle.cli_files.specs.Files.{ReadsFiles, name_input_twice};
ghost use Rattle.cli_words.specs.Words.{rows_in};
ghost use Rattle.cli_texts.specs.SplitCommand.{AnswersSplit, AnswersTexts, AreBothShort, PrintsSplitFault, split_files, split_list, split_texts};
ghost use Rattle.cli_sources.specs.TableFiles.{given_path, no_origins, origins_in, paths_in, texts_in};

use crate::printing::print_alone;
use crate::split_text::split_text;
use clap::ArgMatches;
use cli_files::files::read_if_given;
use cli_output::failure::Failure;
use cli_output::printed::Printed;
use cli_sources::line_ends::end_line;
use cli_sources::table_files::inputs;
use cli_words::words::required;
use desk_check::tell_split_fault;
use desk_findings::Source;
use desk_split::SplitFault;
use desk_text::ReadError;
use std::alloc::{AllocError, Global};
use std::io::BufRead;

/// The texts of the two files.
#[derive(Drop)]
pub struct SplitTexts {
    pub file: String,
    pub filesystems: String,
}

/// The same, with the paths of the files.
#[derive(Clone, Copy)]
pub struct SplitSources<'a> {
    pub file: Source<'a>,
    pub filesystems: Source<'a>,
}

/// Answers `split FILE FILESYSTEMS`.
pub fn run_split<I: BufRead>(
    rt: &HostRuntime,
    words: &ArgMatches<'_>,
    input: &mut I,
) -> Result<Printed, Failure>
    ensures { AnswersSplit (rows_in words.now) (I.remaining input.old) result }
{
    let file = required(words, "FILE")?;
    let filesystems = required(words, "FILESYSTEMS")?;
    let texts = read_split_texts(rt, file, filesystems, input)?;
    let sources = split_sources(file, filesystems, &texts);
    answer_texts(rt.alloc(), sources)
}

/// Reads FILE, and then FILESYSTEMS. At most one of them may be standard input.
fn read_split_texts<I: BufRead>(
    rt: &HostRuntime,
    file: &str,
    filesystems: &str,
    input: &mut I,
) -> Result<SplitTexts, Failure>
    ensures texts { ReadsFiles (split_files file.now filesystems.now) (I.remaining input.old) (result_map_both split_texts (λ failure. failure) result) }
    ensures short { IfOk result AreBothShort }
{
    if name_input_twice(file, filesystems) {
        return Err(Failure::InputTwice);
    }
    let file = read_if_given(rt, "FILE", Some(file), input)?;
    let filesystems = read_if_given(rt, "FILESYSTEMS", Some(filesystems), input)?;
    Ok(SplitTexts { file, filesystems })
}

/// Tests whether both files are to be standard input.
fn name_input_twice(file: &str, filesystems: &str) -> bool
    ensures { result ≡ name_input_twice (split_files file.now filesystems.now) }
{
    1 < inputs(file) + inputs(filesystems)
}

/// Lends the texts with the paths of their files.
fn split_sources<'a>(file: &'a str, filesystems: &'a str, texts: &'a SplitTexts) -> SplitSources<'a>
    requires { AreBothShort texts.now }
    ensures paths { paths_in (split_list result) ≡ map given_path (split_files file.entry.now filesystems.entry.now) }
    ensures texts { texts_in (split_list result) ≡ split_texts texts.now }
    ensures plain { origins_in (split_list result) ≡ map no_origins (split_files file.entry.now filesystems.entry.now) }
    ensures file { IsReadable result.file.text.now }
    ensures filesystems { IsReadable result.filesystems.text.now }
{
    SplitSources {
        file: Source {
            path: file,
            text: texts.file.as_str(),
            origins: &[],
        },
        filesystems: Source {
            path: filesystems,
            text: texts.filesystems.as_str(),
            origins: &[],
        },
    }
}

/// Answers by the two texts.
fn answer_texts(alloc: Global, sources: SplitSources<'_>) -> Result<Printed, Failure>
    requires file { IsReadable sources.file.text.now }
    requires filesystems { IsReadable sources.filesystems.text.now }
    ensures { AnswersTexts sources.entry result }
{
    match split_text(alloc, sources.file.text, sources.filesystems.text) {
        Ok(text) => Ok(print_alone(alloc, 0, text)),
        Err(ReadError::Fault(fault)) => Ok(print_fault(alloc, sources, fault)?),
        Err(ReadError::Memory) => Err(Failure::Memory),
    }
}

/// Prints a fault of one of these texts, and on standard error the finding that `check` makes of it.
fn print_fault(
    alloc: Global,
    sources: SplitSources<'_>,
    fault: SplitFault,
) -> Result<Printed, AllocError>
    requires file { IsReadable sources.file.text.now }
    requires filesystems { IsReadable sources.filesystems.text.now }
    ensures { IfOk result (PrintsSplitFault sources.entry fault) }
{
    let note = tell_split_fault(alloc, sources.file, sources.filesystems, fault)?;
    let text = end_line(fault.text(alloc)?)?;
    Ok(Printed {
        status: 3,
        text,
        note,
    })
}
