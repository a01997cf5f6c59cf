//! The files of two texts and of the tables beside them.

ghost use Rattle.std.specs.Prelude.{◌≡◌, ℕ, IfOk, List, Ok, Option};
ghost use Rattle.desk_text.specs.Lines.{IsReadable};
ghost use Rattle.desk_findings.specs.CheckFaults.{AreReadable};
ghost use Rattle.cli_files.specs.Files.{name_input_twice};
ghost use Rattle.cli_sources.specs.TableFiles.{input_count};
ghost use Rattle.cli_sources.specs.TwoFiles.{AreAllShort, AreReadTwo, ReadsTwoTexts, files_of_two, whole_first, whole_second};

use crate::exports_files::read_exports;
use crate::table_files::{TextFile, file_inputs, read_file, read_tables, source_of, table_sources};
use crate::whole_files::{WholeFiles, exports_source, whole_inputs};
use cli_output::failure::Failure;
use desk_findings::{Source, WholeSources};
use desk_joined::Joined;
use desk_policy::PerTable;
use std::io::BufRead;

/// The files of an exports text and its tables, and of a second text.
#[derive(Clone, Copy)]
pub struct TwoFiles<'a> {
    pub whole: WholeFiles<'a>,
    pub second: TextFile<'a>,
}

/// Two texts, and the texts of the tables beside them.
#[derive(Drop)]
pub struct TwoTexts {
    pub tables: PerTable<String>,
    /// The first exports text, which may be several that are read as one.
    pub first: Joined,
    pub second: String,
}

/// The same, with the paths of their files.
#[derive(Clone, Copy)]
pub struct TwoSources<'a> {
    pub tables: PerTable<Source<'a>>,
    pub first: Source<'a>,
    pub second: Source<'a>,
}

impl<'a> TwoSources<'a> {
    /// Returns the first text, as an exports text with the tables.
    pub fn whole_first(self) -> WholeSources<'a>
        ensures { result ≡ whole_first self.entry }
    {
        WholeSources {
            tables: self.tables,
            exports: self.first,
        }
    }

    /// Returns the second text, as an exports text with the tables.
    pub fn whole_second(self) -> WholeSources<'a>
        ensures { result ≡ whole_second self.entry }
    {
        WholeSources {
            tables: self.tables,
            exports: self.second,
        }
    }
}

/// Counts the files that are standard input.
pub fn two_inputs(files: TwoFiles<'_>) -> usize
    ensures { result ≡ input_count (files_of_two files.entry) }
{
    whole_inputs(files.whole) + file_inputs(files.second) as usize
}

/// Reads the files of the tables, those of the first exports texts, and then the second. At most one of them may be standard input.
pub fn read_two_texts<I: BufRead>(
    rt: &HostRuntime,
    files: TwoFiles<'_>,
    input: &mut I,
) -> Result<TwoTexts, Failure>
    ensures texts { ReadsTwoTexts (files_of_two files.entry) (I.remaining input.old) result }
    ensures short { IfOk result AreAllShort }
{
    if names_input_twice(files) {
        return Err(Failure::InputTwice);
    }
    let tables = read_tables(rt, files.whole.tables, input)?;
    let first = read_exports(rt, files.whole.exports, files.whole.more, input)?;
    let second = read_file(rt, files.second, input)?;
    Ok(TwoTexts {
        tables,
        first,
        second,
    })
}

/// Tests whether more than one of these files is to be standard input.
fn names_input_twice(files: TwoFiles<'_>) -> bool
    ensures { result ≡ name_input_twice (files_of_two files.entry) }
{
    1 < two_inputs(files)
}

/// Lends the texts with the paths of their files.
pub fn two_sources<'a>(files: TwoFiles<'a>, texts: &'a TwoTexts) -> TwoSources<'a>
    requires { AreAllShort texts.now }
    ensures are { (known : Option (List ℕ)) → ReadsTwoTexts (files_of_two files.entry) known (Ok texts.now) → AreReadTwo (files_of_two files.entry) known result }
    ensures tables { AreReadable result.tables }
    ensures first { IsReadable result.first.text.now }
    ensures second { IsReadable result.second.text.now }
{
    TwoSources {
        tables: table_sources(files.whole.tables, &texts.tables),
        first: exports_source(files.whole.exports, &texts.first),
        second: source_of(files.second, texts.second.as_str()),
    }
}
