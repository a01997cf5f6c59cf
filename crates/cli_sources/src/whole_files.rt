//! The files of an exports text and of its tables.

ghost use Rattle.std.specs.Prelude.{◌≡◌, ◌+◌, ◌≤◌, ℕ, IfOk, List, Ok, Option, length};
ghost use Rattle.std.specs.String.{string_bytes};
ghost use Rattle.desk_text.specs.Lines.{IsReadable};
ghost use Rattle.desk_findings.specs.CheckFaults.{AreReadable};
ghost use Rattle.cli_files.specs.Files.{name_input_twice};
ghost use Rattle.cli_words.specs.Words.{rows_in};
ghost use Rattle.cli_sources.specs.TableFiles.{given_path, input_count, named};
ghost use Rattle.cli_sources.specs.WholeFiles as spec;
ghost use Rattle.cli_sources.specs.WholeFiles.{AreReadWhole, AreShort, ReadsTexts, files_of};

use crate::exports_files::{MoreFiles, more_files, more_inputs, read_exports};
use crate::subject::Subject;
use crate::table_files::{
    TextFile, file_inputs, read_tables, table_files, table_inputs, table_sources,
};
use clap::ArgMatches;
use cli_output::failure::Failure;
use desk_findings::{Source, WholeSources};
use desk_joined::Joined;
use desk_policy::PerTable;
use std::io::BufRead;

/// The files of exports texts that are read as one, and of the tables with which they are read.
#[derive(Clone, Copy)]
pub struct WholeFiles<'a> {
    pub tables: PerTable<TextFile<'a>>,
    pub exports: TextFile<'a>,
    pub more: MoreFiles<'a>,
}

/// An exports text, which may be several that are read as one, and the texts of the tables with which it is read.
#[derive(Drop)]
pub struct WholeTexts {
    pub tables: PerTable<String>,
    pub exports: Joined,
}

/// Finds the files of what a command is asked of; a failure calls the file of its first word by `argument`.
pub fn whole_files<'w: 'a, 'a>(
    words: &'a ArgMatches<'w>,
    subject: &'a Subject<'w>,
    argument: &'static str,
) -> WholeFiles<'a>
    ensures { files_of result ≡ spec.whole_files subject.entry.now argument.entry.now (rows_in words.entry.now) }
{
    WholeFiles {
        tables: table_files(words, subject.folder()),
        exports: exports_file(subject, argument),
        more: more_files(words, subject),
    }
}

/// Finds the file of the exports text.
fn exports_file<'w: 'a, 'a>(subject: &'a Subject<'w>, argument: &'static str) -> TextFile<'a>
    ensures { named result ≡ spec.exports_file subject.entry.now argument.entry.now }
{
    match subject {
        Subject::File(file) => TextFile {
            argument,
            path: Some(*file),
            optional: false,
        },
        Subject::Site(folder) => TextFile {
            argument: "--site",
            path: Some(folder.paths.exports.as_str()),
            optional: false,
        },
    }
}

/// Counts the files that are standard input.
pub fn whole_inputs(files: WholeFiles<'_>) -> usize
    ensures within { result ≤ length files.entry.more.and.now + 7 }
    ensures counted { result ≡ input_count (files_of files.entry) }
{
    let first = table_inputs(files.tables) + file_inputs(files.exports);
    first as usize + more_inputs(files.more)
}

/// Reads the files of the tables, and then those of the exports texts. At most one of them may be standard input.
pub fn read_whole_texts<I: BufRead>(
    rt: &HostRuntime,
    files: WholeFiles<'_>,
    input: &mut I,
) -> Result<WholeTexts, Failure>
    ensures texts { ReadsTexts (files_of files.entry) (I.remaining input.old) result }
    ensures short { IfOk result AreShort }
{
    if names_input_twice(files) {
        return Err(Failure::InputTwice);
    }
    let tables = read_tables(rt, files.tables, input)?;
    let exports = read_exports(rt, files.exports, files.more, input)?;
    Ok(WholeTexts { tables, exports })
}

/// Tests whether more than one of these files is to be standard input.
fn names_input_twice(files: WholeFiles<'_>) -> bool
    ensures { result ≡ name_input_twice (files_of files.entry) }
{
    1 < whole_inputs(files)
}

/// Lends the texts with the paths of their files. Exports texts that are read as one are told by the path of the first.
pub fn whole_sources<'a>(files: WholeFiles<'a>, texts: &'a WholeTexts) -> WholeSources<'a>
    requires { AreShort texts.now }
    ensures are { (known : Option (List ℕ)) → ReadsTexts (files_of files.entry) known (Ok texts.now) → AreReadWhole (files_of files.entry) known result }
    ensures tables { AreReadable result.tables }
    ensures exports { IsReadable result.exports.text.now }
{
    WholeSources {
        tables: table_sources(files.tables, &texts.tables),
        exports: exports_source(files.exports, &texts.exports),
    }
}

/// Lends an exports text, with the path of the first file, and where the lines of each begin, if several are read as one.
pub fn exports_source<'a>(file: TextFile<'a>, whole: &'a Joined) -> Source<'a>
    ensures path { result.path.now ≡ given_path (named file.entry) }
    ensures text { result.text.now ≡ string_bytes whole.entry.now.text }
    ensures origins { result.origins.now ≡ whole.entry.now.origins }
{
    Source {
        path: file.path.unwrap_or(""),
        text: whole.text.as_str(),
        origins: whole.origins.as_slice(),
    }
}
