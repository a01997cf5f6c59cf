//! The command `test`: whether an exports text keeps what another text expects of it, for every directory and every client.

ghost use Rattle.desk_text.specs.Lines.{IsReadable};
ghost use Rattle.desk_findings.specs.CheckFaults.{AreReadable};
ghost use Rattle.cli_words.specs.Words.{rows_in};
ghost use Rattle.cli_texts.specs.TestCommand.{AnswersTest, AnswersTestBy, AnswersTexts, PrintsExpected};
ghost use Rattle.cli_sources.specs.TwoFiles.{whole_first};
ghost use Rattle.cli_texts.specs.WholeTables.{GivesOrFault, policy_of};

use crate::faulty_texts::answer_error;
use crate::whole_tables::view_of;
use clap::ArgMatches;
use cli_expectations::expectations_file::{ExpectationsFile, ReportForm, form_by};
use cli_expectations::tested_policy::print_tested;
use cli_output::failure::Failure;
use cli_output::printed::Printed;
use cli_sources::subject::{Places, subject_of};
use cli_sources::two_files::TwoSources;
use cli_sources::two_question::{TwoNames, TwoQuestion, answer_two};
use cli_words::words::is_set;
use desk_findings::read_sources;
use desk_policy::SiteFault;
use desk_tables::FileSystems;
use desk_text::ReadError;
use std::alloc::Global;
use std::io::BufRead;

/// The names of the words: `test FILE EXPECTATIONS MOUNT...`, or with `--site` just EXPECTATIONS.
const PLACES: Places = Places {
    first: "FILE",
    last: "EXPECTATIONS",
    beside: "FILE or MOUNT",
};

/// The two texts.
const NAMES: TwoNames = TwoNames {
    first: "FILE",
    second: "EXPECTATIONS",
};

/// Answers `test FILE EXPECTATIONS MOUNT...`, or `test --site DIR EXPECTATIONS`, with its options. Whether its forms can be given together
/// comes first; then MOUNT is parsed, before any file is read.
pub fn run_test<I: BufRead>(
    rt: &HostRuntime,
    words: &ArgMatches<'_>,
    input: &mut I,
) -> Result<Printed, Failure>
    ensures { AnswersTest (rows_in words.now) (I.remaining input.old) result }
{
    let form = form_by(is_set(words, "json"), is_set(words, "sarif"))?;
    test_in_form(rt, words, form, input)
}

/// Answers in the form that the words ask for.
fn test_in_form<I: BufRead>(
    rt: &HostRuntime,
    words: &ArgMatches<'_>,
    form: ReportForm,
    input: &mut I,
) -> Result<Printed, Failure>
    ensures { AnswersTestBy (rows_in words.now) (I.remaining input.old) form result }
{
    let subject = subject_of(rt.alloc(), words, PLACES)?;
    answer_two(
        rt,
        false,
        words,
        &subject,
        NAMES,
        &TestQuestion { form },
        input,
    )
}

/// Which expectations are broken, in this form.
#[derive(Clone, Copy)]
struct TestQuestion {
    form: ReportForm,
}

impl TwoQuestion for TestQuestion {
    ghost Answers = { λ question. AnswersTexts question.form };

    fn answer(
        &self,
        alloc: Global,
        filesystems: &FileSystems,
        sources: TwoSources<'_>,
    ) -> Result<Printed, Failure> {
        match test_texts(alloc, self.form, filesystems, sources) {
            Ok(printed) => Ok(printed),
            Err(error) => answer_error(alloc, false, sources.whole_first(), filesystems, error),
        }
    }
}

/// Prints which expectations are broken by these texts.
fn test_texts(
    alloc: Global,
    form: ReportForm,
    filesystems: &FileSystems,
    sources: TwoSources<'_>,
) -> Result<Printed, ReadError<SiteFault>>
    requires tables { AreReadable sources.tables }
    requires first { IsReadable sources.first.text.now }
    requires second { IsReadable sources.second.text.now }
    ensures { GivesOrFault (PrintsExpected filesystems.now form sources.entry) (policy_of (whole_first sources.entry) filesystems.now) result }
{
    let tables = read_sources(alloc, sources.tables)?;
    let view = view_of(alloc, sources.whole_first(), &tables, filesystems)?;
    let file = ExpectationsFile {
        path: sources.second.path,
        text: sources.second.text,
        form,
        exports: Some(sources.first.path),
    };
    Ok(print_tested(alloc, &tables, &view, file)?)
}
