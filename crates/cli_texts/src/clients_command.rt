//! The command `clients`: who may mount a directory, by an exports text.

ghost use Rattle.desk_text.specs.Lines.{IsReadable};
ghost use Rattle.desk_findings.specs.CheckFaults.{AreReadable};
ghost use Rattle.cli_words.specs.Words.{rows_in};
ghost use Rattle.cli_texts.specs.ClientsCommand.{AnswersClients, AnswersPath, AnswersSubject, PrintsClients, ReadsDir};
ghost use Rattle.cli_texts.specs.WholeTables.{GivesOrFault, policy_of};

use crate::faulty_texts::answer_error;
use crate::whole_tables::view_of;
use clap::ArgMatches;
use cli_output::failure::Failure;
use cli_output::printed::Printed;
use cli_sources::subject::{Places, Subject, subject_of, word_of};
use cli_sources::whole_question::{WholeQuestion, answer_whole};
use cli_verdict::print_ranges;
use cli_words::values::read_path;
use cli_words::words::is_set;
use desk_findings::{WholeSources, read_sources};
use desk_policy::SiteFault;
use desk_tables::FileSystems;
use desk_text::{Path, ReadError};
use std::alloc::Global;
use std::io::BufRead;

/// The names of the words: `clients FILE DIR MOUNT...`, or with `--site` just DIR.
const PLACES: Places = Places {
    first: "FILE",
    last: "DIR",
    beside: "FILE or MOUNT",
};

/// Answers `clients FILE DIR MOUNT...`, or `clients --site DIR DIR`, with its options. The arguments are parsed from left to right, and
/// then the files are read.
pub fn run_clients<I: BufRead>(
    rt: &HostRuntime,
    words: &ArgMatches<'_>,
    input: &mut I,
) -> Result<Printed, Failure>
    ensures { AnswersClients (rows_in words.now) (I.remaining input.old) result }
{
    let subject = subject_of(rt.alloc(), words, PLACES)?;
    answer_subject(rt, words, &subject, input)
}

/// Answers by what is asked of.
fn answer_subject<'w, I: BufRead>(
    rt: &HostRuntime,
    words: &ArgMatches<'w>,
    subject: &Subject<'w>,
    input: &mut I,
) -> Result<Printed, Failure>
    ensures { AnswersSubject (rows_in words.now) (I.remaining input.old) subject.now result }
{
    let path = read_dir(rt.alloc(), words, subject)?;
    let question = ClientsQuestion {
        path: &path,
        mountd: is_set(words, "mountd"),
        json: is_set(words, "json"),
    };
    answer_whole(rt, question.json, words, subject, &question, input)
}

/// Who may mount a path, by the rule of mountd(8) if that is asked, and as JSON if that is asked.
#[derive(Clone, Copy)]
struct ClientsQuestion<'a> {
    path: &'a Path,
    mountd: bool,
    json: bool,
}

impl WholeQuestion for ClientsQuestion<'_> {
    ghost Answers = { λ question. AnswersPath question.mountd question.json question.path.now };

    fn answer(
        &self,
        alloc: Global,
        filesystems: &FileSystems,
        sources: WholeSources<'_>,
    ) -> Result<Printed, Failure> {
        match list_clients(alloc, *self, filesystems, sources) {
            Ok(printed) => Ok(printed),
            Err(error) => answer_error(alloc, self.json, sources, filesystems, error),
        }
    }
}

/// Parses the word DIR.
fn read_dir(alloc: Global, words: &ArgMatches<'_>, subject: &Subject<'_>) -> Result<Path, Failure>
    ensures { ReadsDir subject.now (rows_in words.now) result }
{
    let dir = word_of(words, subject, "FILE", "DIR")?;
    read_path(alloc, "DIR", dir)
}

/// Prints who may mount a path by these texts.
fn list_clients(
    alloc: Global,
    question: ClientsQuestion<'_>,
    filesystems: &FileSystems,
    sources: WholeSources<'_>,
) -> Result<Printed, ReadError<SiteFault>>
    requires tables { AreReadable sources.tables }
    requires exports { IsReadable sources.exports.text.now }
    ensures { let read = policy_of sources.entry filesystems.now in GivesOrFault (PrintsClients read question.entry.mountd question.entry.json question.entry.path.now) read result }
{
    let tables = read_sources(alloc, sources.tables)?;
    let view = view_of(alloc, sources, &tables, filesystems)?;
    let printed = print_ranges(alloc, &view, question.path, question.mountd, question.json)?;
    Ok(printed)
}
