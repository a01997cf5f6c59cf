//! The command `try`: one verdict over one exports text.

ghost use Rattle.std.specs.Prelude.{◌≡◌, Err, Ok};
ghost use Rattle.desk_text.specs.Lines.{IsReadable};
ghost use Rattle.desk_text.specs.Reading.{Reads};
ghost use Rattle.desk_findings.specs.CheckFaults.{AreReadable};
ghost use Rattle.desk_findings.specs.CheckText.{tables_of};
ghost use Rattle.cli_words.specs.Words.{rows_in};
ghost use Rattle.cli_texts.specs.TryCommand.{AnswersRequest, AnswersSubject, AnswersTry, AnswersTryAs, PrintsVerdict, ReadsRequest, asked_in, asked_of, question_in};
ghost use Rattle.cli_texts.specs.WholeTables.{GivesOrFault, policy_of};

use crate::faulty_texts::answer_error;
use clap::ArgMatches;
use cli_output::failure::Failure;
use cli_output::printed::Printed;
use cli_sources::subject::{Places, Subject, subject_of, word_of};
use cli_sources::whole_question::{WholeQuestion, answer_whole};
use cli_verdict::try_text::try_text;
use cli_verdict::{Asking, MountQuestion, print_tried, read_asking};
use cli_words::values::{Request, read_credential, read_credential_with, read_request};
use cli_words::words::{given, is_set};
use desk_findings::{Source, WholeSources, read_sources};
use desk_policy::{SiteFault, SiteTables};
use desk_tables::{Cred, FileSystems};
use desk_text::ReadError;
use std::alloc::Global;
use std::io::BufRead;

/// The names of the words: `try FILE HOST DIR MOUNT...`, or with `--site` just HOST and DIR.
const PLACES: Places = Places {
    first: "FILE",
    last: "DIR",
    beside: "FILE or MOUNT",
};

/// Answers `try FILE HOST DIR MOUNT...`, or `try --site DIR HOST DIR`, with its options. The arguments are parsed from left to right, and
/// then the files are read.
pub fn run_try<I: BufRead>(
    rt: &HostRuntime,
    words: &ArgMatches<'_>,
    input: &mut I,
) -> Result<Printed, Failure>
    ensures { AnswersTry (rows_in words.now) (I.remaining input.old) result }
{
    match read_asking(words) {
        Ok(asking) => try_as(rt, words, asking, input),
        Err(failure) => Err(failure),
    }
}

/// Answers what is asked.
fn try_as<I: BufRead>(
    rt: &HostRuntime,
    words: &ArgMatches<'_>,
    asking: Asking,
    input: &mut I,
) -> Result<Printed, Failure>
    ensures { AnswersTryAs asking (rows_in words.now) (I.remaining input.old) result }
{
    let subject = subject_of(rt.alloc(), words, PLACES)?;
    answer_subject(rt, words, asking, &subject, input)
}

/// Answers by what is asked of.
fn answer_subject<'w, I: BufRead>(
    rt: &HostRuntime,
    words: &ArgMatches<'w>,
    asking: Asking,
    subject: &Subject<'w>,
    input: &mut I,
) -> Result<Printed, Failure>
    ensures { AnswersSubject asking (rows_in words.now) (I.remaining input.old) subject.now result }
{
    let request = words_request(rt.alloc(), words, subject)?;
    let question = TryQuestion {
        word: given(words, "as"),
        asking,
        json: is_set(words, "json"),
        request: &request,
    };
    answer_whole(rt, question.json, words, subject, &question, input)
}

/// A request as it is asked, with the word of a credential, if it is given, and whether the answer is printed as JSON.
#[derive(Clone, Copy)]
struct TryQuestion<'a> {
    word: Option<&'a str>,
    asking: Asking,
    json: bool,
    request: &'a Request,
}

impl WholeQuestion for TryQuestion<'_> {
    ghost Answers = { λ question table. AnswersRequest (asked_in question table) };

    fn answer(
        &self,
        alloc: Global,
        filesystems: &FileSystems,
        sources: WholeSources<'_>,
    ) -> Result<Printed, Failure> {
        let asked = Asked {
            word: self.word,
            asking: self.asking,
            json: self.json,
            request: self.request,
            filesystems,
        };
        answer_request(alloc, asked, sources)
    }
}

/// The same, with the file systems.
#[derive(Clone, Copy)]
struct Asked<'a> {
    word: Option<&'a str>,
    asking: Asking,
    json: bool,
    request: &'a Request,
    filesystems: &'a FileSystems,
}

/// Parses the request that the words HOST and DIR write.
fn words_request(
    alloc: Global,
    words: &ArgMatches<'_>,
    subject: &Subject<'_>,
) -> Result<Request, Failure>
    ensures { ReadsRequest subject.now (rows_in words.now) result }
{
    let host = word_of(words, subject, "FILE", "HOST")?;
    let dir = word_of(words, subject, "HOST", "DIR")?;
    read_request(alloc, host, dir)
}

/// Answers a request by the texts of its files.
fn answer_request(
    alloc: Global,
    asked: Asked<'_>,
    sources: WholeSources<'_>,
) -> Result<Printed, Failure>
    requires tables { AreReadable sources.tables }
    requires exports { IsReadable sources.exports.text.now }
    ensures { AnswersRequest (asked_of asked.entry) sources.entry result }
{
    match read_sources(alloc, sources.tables) {
        Ok(tables) => answer_with(alloc, asked, &tables, sources),
        Err(error) => answer_fault(alloc, asked, sources, error),
    }
}

/// Answers a request by the texts of its files, of which these tables were read.
fn answer_with(
    alloc: Global,
    asked: Asked<'_>,
    tables: &SiteTables,
    sources: WholeSources<'_>,
) -> Result<Printed, Failure>
    requires tables { AreReadable sources.tables }
    requires exports { IsReadable sources.exports.text.now }
    requires known { tables_of sources.tables ≡ Ok tables.now }
    ensures { AnswersRequest (asked_of asked.entry) sources.entry result }
{
    let own = read_credential_with(alloc, asked.word, &tables.users, &tables.groups)?;
    match decide(alloc, &own, asked, tables, sources) {
        Ok(printed) => Ok(printed),
        Err(error) => answer_error(alloc, asked.json, sources, asked.filesystems, error),
    }
}

/// Answers with the fault of a table, or that memory ran out. A bad CRED comes before it, so the users and the groups are read by
/// themselves: another table may be at fault.
fn answer_fault(
    alloc: Global,
    asked: Asked<'_>,
    sources: WholeSources<'_>,
    error: ReadError<SiteFault>,
) -> Result<Printed, Failure>
    requires tables { AreReadable sources.tables }
    requires exports { IsReadable sources.exports.text.now }
    requires fault { Reads (Err error) (tables_of sources.tables) }
    ensures { AnswersRequest (asked_of asked.entry) sources.entry result }
{
    let tables = sources.tables;
    match read_credential(alloc, asked.word, tables.passwd.text, tables.group.text) {
        Ok(_) => answer_error(alloc, asked.json, sources, asked.filesystems, error),
        Err(failure) => {
            drop(error);
            Err(failure)
        }
    }
}

/// Decides a request of a client with this credential, if it is given, and prints what is asked.
fn decide(
    alloc: Global,
    own: &Option<Cred>,
    asked: Asked<'_>,
    tables: &SiteTables,
    sources: WholeSources<'_>,
) -> Result<Printed, ReadError<SiteFault>>
    requires exports { IsReadable sources.exports.text.now }
    requires known { tables_of sources.tables ≡ Ok tables.now }
    ensures { let table = asked.entry.filesystems.now in
        GivesOrFault (PrintsVerdict sources.entry table (question_in asked.entry.request.now own.now asked.entry.asking asked.entry.json)) (policy_of sources.entry table) result }
{
    let filesystems = asked.filesystems.share()?;
    let question = MountQuestion {
        address: asked.request.address,
        path: &asked.request.path,
        own,
        asking: asked.asking,
        json: asked.json,
    };
    let Source { text, origins, .. } = sources.exports;
    let tried = try_text(alloc, text, origins, tables, filesystems, question)?;
    Ok(print_tried(tried))
}
