//! The command `compare`: what changes from one exports text to another, of every directory and for every client.

ghost use Rattle.std.specs.Prelude.{◌≡◌, IfOk, Ok};
ghost use Rattle.std.specs.String.{string_bytes};
ghost use Rattle.desk_text.specs.Lines.{IsReadable};
ghost use Rattle.desk_findings.specs.CheckFaults.{AreReadable};
ghost use Rattle.desk_findings.specs.CheckText.{tables_of};
ghost use Rattle.cli_words.specs.Words.{rows_in};
ghost use Rattle.cli_texts.specs.CompareCommand.{AnswersCompare, AnswersTexts, PrintsChanges, TellsChanges, TellsList, TellsReport};
ghost use Rattle.cli_texts.specs.FaultyTexts.{AnswersOrFault};
ghost use Rattle.cli_texts.specs.WholeTables.{GivesOrFault, policy_of};

use crate::View;
use crate::faulty_texts::answer_error;
use crate::whole_tables::view_of;
use clap::ArgMatches;
use cli_output::failure::Failure;
use cli_output::printed::Printed;
use cli_output::shown_lines::shown_lines;
use cli_sources::subject::{Places, subject_of};
use cli_sources::two_files::TwoSources;
use cli_sources::two_question::{TwoNames, TwoQuestion, answer_two};
use cli_verdict::{changes_status, object_line};
use cli_words::words::is_set;
use desk_findings::{WholeSources, read_sources};
use desk_impact::{impact_report, list_changes};
use desk_json::changes_object;
use desk_policy::{PolicyView, SiteFault, SiteTables};
use desk_server_notes::news_note;
use desk_tables::FileSystems;
use desk_text::ReadError;
use std::alloc::{AllocError, Global};
use std::io::BufRead;

/// The names of the words: `compare OLD NEW MOUNT...`, or with `--site` just NEW.
const PLACES: Places = Places {
    first: "OLD",
    last: "NEW",
    beside: "OLD or MOUNT",
};

/// The two texts.
const NAMES: TwoNames = TwoNames {
    first: "OLD",
    second: "NEW",
};

/// Answers `compare OLD NEW MOUNT...`, or `compare --site DIR NEW`, with its options. MOUNT is parsed before any file is read.
pub fn run_compare<I: BufRead>(
    rt: &HostRuntime,
    words: &ArgMatches<'_>,
    input: &mut I,
) -> Result<Printed, Failure>
    ensures { AnswersCompare (rows_in words.now) (I.remaining input.old) result }
{
    let subject = subject_of(rt.alloc(), words, PLACES)?;
    let question = CompareQuestion {
        all: is_set(words, "all"),
        json: is_set(words, "json"),
    };
    answer_two(rt, question.json, words, &subject, NAMES, &question, input)
}

/// What changes, with the changes that matter to no client, if they are asked, and as JSON, if that is asked.
#[derive(Clone, Copy)]
struct CompareQuestion {
    all: bool,
    json: bool,
}

impl TwoQuestion for CompareQuestion {
    ghost Answers = { λ question. AnswersTexts question.all question.json };

    fn answer(
        &self,
        alloc: Global,
        filesystems: &FileSystems,
        sources: TwoSources<'_>,
    ) -> Result<Printed, Failure> {
        match read_sources(alloc, sources.tables) {
            Ok(tables) => compare(alloc, *self, filesystems, &tables, sources),
            Err(error) => answer_error(alloc, self.json, sources.whole_first(), filesystems, error),
        }
    }
}

/// Answers by the texts of the files, of which these tables were read.
fn compare(
    alloc: Global,
    question: CompareQuestion,
    filesystems: &FileSystems,
    tables: &SiteTables,
    sources: TwoSources<'_>,
) -> Result<Printed, Failure>
    requires tables { AreReadable sources.tables }
    requires first { IsReadable sources.first.text.now }
    requires second { IsReadable sources.second.text.now }
    requires known { tables_of sources.tables ≡ Ok tables.now }
    ensures { AnswersTexts question.all question.json filesystems.now sources.entry result }
{
    match view_of(alloc, sources.whole_first(), tables, filesystems) {
        Ok(before) => compare_with(
            alloc,
            &before,
            question,
            filesystems,
            tables,
            sources.whole_second(),
        ),
        Err(error) => answer_error(
            alloc,
            question.json,
            sources.whole_first(),
            filesystems,
            error,
        ),
    }
}

/// Answers by a policy and the text of NEW, of which these tables were read.
fn compare_with(
    alloc: Global,
    before: &View,
    question: CompareQuestion,
    filesystems: &FileSystems,
    tables: &SiteTables,
    sources: WholeSources<'_>,
) -> Result<Printed, Failure>
    requires tables { AreReadable sources.tables }
    requires exports { IsReadable sources.exports.text.now }
    requires known { tables_of sources.tables ≡ Ok tables.now }
    ensures { AnswersOrFault question.json (PrintsChanges before.now (policy_of sources.entry filesystems.now) question.all question.json) sources.entry filesystems.now result }
{
    match print_changes(alloc, before, question, filesystems, tables, sources) {
        Ok(printed) => Ok(printed),
        Err(error) => answer_error(alloc, question.json, sources, filesystems, error),
    }
}

/// Prints what changes from a policy to that of NEW. Standard error says what mountd(8) grants more than before.
fn print_changes(
    alloc: Global,
    before: &View,
    question: CompareQuestion,
    filesystems: &FileSystems,
    tables: &SiteTables,
    sources: WholeSources<'_>,
) -> Result<Printed, ReadError<SiteFault>>
    requires exports { IsReadable sources.exports.text.now }
    requires known { tables_of sources.tables ≡ Ok tables.now }
    ensures { let read = policy_of sources.entry filesystems.now in GivesOrFault (PrintsChanges before.now read question.all question.json) read result }
{
    let after = view_of(alloc, sources, tables, filesystems)?;
    let note = news_note(alloc, before, &after)?;
    let (status, text) = told_changes(alloc, before, &after, question)?;
    Ok(Printed { status, text, note })
}

/// Tells what changes from a policy to another, with the exit status.
fn told_changes(
    alloc: Global,
    before: &View,
    after: &View,
    question: CompareQuestion,
) -> Result<(u8, String), AllocError>
    ensures { IfOk result (λ told. TellsChanges question.json before.now after.now question.all told.0 (string_bytes told.1)) }
{
    if question.json {
        told_list(alloc, before, after, question.all)
    } else {
        told_report(alloc, before, after, question.all)
    }
}

/// Tells it by a report, as it is shown.
fn told_report(
    alloc: Global,
    before: &View,
    after: &View,
    all: bool,
) -> Result<(u8, String), AllocError>
    ensures { IfOk result (λ told. TellsReport before.now after.now all told.0 (string_bytes told.1)) }
{
    let report = impact_report(alloc, before, after, all)?;
    let text = shown_lines(alloc, report.text.as_str())?;
    Ok((if report.mattering == 0 { 0 } else { 1 }, text))
}

/// Tells it by a list, as one object.
fn told_list(
    alloc: Global,
    before: &View,
    after: &View,
    all: bool,
) -> Result<(u8, String), AllocError>
    ensures { IfOk result (λ told. TellsList before.now after.now all told.0 (string_bytes told.1)) }
{
    let found = list_changes(alloc, before, after)?;
    let object = changes_object(
        alloc,
        before.policy(),
        after.policy(),
        all,
        found.as_slice(),
    )?;
    let text = object_line(alloc, object.as_str())?;
    Ok((changes_status(found.as_slice()), text))
}
