//! The command `terms`: whom each directory of an exports text is for, and on what terms.

ghost use Rattle.desk_text.specs.Lines.{IsReadable};
ghost use Rattle.desk_findings.specs.CheckFaults.{AreReadable};
ghost use Rattle.cli_words.specs.Words.{rows_in};
ghost use Rattle.cli_texts.specs.TermsCommand.{AnswersTerms, AnswersTexts, PrintsTerms};
ghost use Rattle.cli_texts.specs.WholeTables.{GivesOrFault, policy_of};

use crate::faulty_texts::answer_error;
use crate::printing::print_alone;
use crate::whole_tables::view_of;
use clap::ArgMatches;
use cli_output::failure::Failure;
use cli_output::printed::Printed;
use cli_sources::subject::{Places, subject_of};
use cli_sources::whole_question::{WholeQuestion, answer_whole};
use desk_findings::{WholeSources, read_sources};
use desk_policy::{PolicyView, SiteFault, all_terms};
use desk_tables::FileSystems;
use desk_text::ReadError;
use std::alloc::Global;
use std::io::BufRead;

/// The names of the words: `terms FILE MOUNT...`, or with `--site` none.
const PLACES: Places = Places {
    first: "FILE",
    last: "FILE",
    beside: "FILE",
};

/// Answers `terms FILE MOUNT...`, or `terms --site DIR`, with its options. The mount points are parsed, and then the files are read.
pub fn run_terms<I: BufRead>(
    rt: &HostRuntime,
    words: &ArgMatches<'_>,
    input: &mut I,
) -> Result<Printed, Failure>
    ensures { AnswersTerms (rows_in words.now) (I.remaining input.old) result }
{
    let subject = subject_of(rt.alloc(), words, PLACES)?;
    answer_whole(rt, false, words, &subject, &TermsQuestion, input)
}

/// All exports with their terms.
#[derive(Clone, Copy)]
struct TermsQuestion;

impl WholeQuestion for TermsQuestion {
    ghost Answers = { λ _. AnswersTexts };

    fn answer(
        &self,
        alloc: Global,
        filesystems: &FileSystems,
        sources: WholeSources<'_>,
    ) -> Result<Printed, Failure> {
        match print_terms(alloc, filesystems, sources) {
            Ok(printed) => Ok(printed),
            Err(error) => answer_error(alloc, false, sources, filesystems, error),
        }
    }
}

/// Prints all exports of these texts with their terms.
fn print_terms(
    alloc: Global,
    filesystems: &FileSystems,
    sources: WholeSources<'_>,
) -> Result<Printed, ReadError<SiteFault>>
    requires tables { AreReadable sources.tables }
    requires exports { IsReadable sources.exports.text.now }
    ensures { let read = policy_of sources.entry filesystems.now in GivesOrFault (PrintsTerms read) read result }
{
    let tables = read_sources(alloc, sources.tables)?;
    let view = view_of(alloc, sources, &tables, filesystems)?;
    let text = all_terms(alloc, view.policy())?;
    Ok(print_alone(alloc, 0, text))
}
