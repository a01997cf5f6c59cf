//! The commands that ask a database: `ask`, `show`, `exports` and `who` by the policy in force, `log`, `cat`, `proposal` and `files` by
//! its files, and `impact` by what would be in force. With `--json` each prints its answer as one object.

ghost use Rattle.std.specs.Prelude.{◌≡◌, Some, false};
ghost use Rattle.std.specs.Option.{option_map};
ghost use Rattle.desk_text.specs.Address.{number_of};
ghost use Rattle.desk_service.specs.Questions.{question_of};
ghost use Rattle.cli_verdict.specs.TryText.{mount_question_of};
ghost use Rattle.cli_words.specs.Words.{rows_in};
ghost use Rattle.cli_questions.specs.QuestionCommands as spec;
ghost use Rattle.cli_questions.specs.Questions.{asked_of, printer_of};

use crate::answering::{Asked, Printer, answer_question};
use clap::ArgMatches;
use cli_files::files::read_if_given;
use cli_output::failure::Failure;
use cli_output::printed::Printed;
use cli_verdict::{Asking, MountQuestion, read_asking};
use cli_words::values::{read_credential, read_host, read_number, read_path};
use cli_words::words::{given, is_set, required};
use desk_service::{FileQuestion, Question};
use std::alloc::Global;
use std::io::BufRead;

/// Answers `ask DB HOST DIR [--as CRED] [--json]`, and `--why` or `--mountd`. The arguments are parsed from left to right, CRED without
/// users and groups.
pub fn run_ask(rt: &HostRuntime, words: &ArgMatches<'_>) -> Result<Printed, Failure>
    ensures { spec.AnswersAsk (rows_in words.now) result }
{
    match read_asking(words) {
        Ok(asking) => ask_as(rt, words, asking),
        Err(failure) => Err(failure),
    }
}

/// Answers what is asked.
fn ask_as(rt: &HostRuntime, words: &ArgMatches<'_>, asking: Asking) -> Result<Printed, Failure>
    ensures { spec.AnswersAskAs asking (rows_in words.now) result }
{
    let alloc = rt.alloc();
    let db = required(words, "DB")?;
    let host = required(words, "HOST")?;
    let dir = required(words, "DIR")?;
    let address = read_host(alloc, host)?;
    let path = read_path(alloc, "DIR", dir)?;
    let own = read_credential(alloc, given(words, "as"), "", "")?;
    let json = is_set(words, "json");
    let question = MountQuestion {
        address,
        path: &path,
        own: &own,
        asking,
        json,
    };
    answer_question(rt, db, mounting(question))
}

/// Returns a question whether a client may mount a directory: with why, if that is asked; and else of the whole site.
fn mounting<'a>(question: MountQuestion<'a>) -> Asked<'a>
    ensures { asked_of result ≡ spec.mounting (mount_question_of question.entry) }
{
    Asked {
        question: asked_by(question),
        printer: Printer::Mounts(question),
        json: question.json,
    }
}

/// Returns what is asked of a desk.
fn asked_by<'a>(question: MountQuestion<'a>) -> Question<'a>
    ensures { question_of result ≡ spec.asked_by question.entry.asking (number_of question.entry.address) question.entry.path.now }
{
    match question.asking {
        Asking::Reasons => Question::Why(question.address, question.path),
        Asking::Verdict | Asking::Server => Question::Site,
    }
}

/// Returns a question on the whole site, which is printed so.
fn of_site<'a>(printer: Printer<'a>, json: bool) -> Asked<'a>
    ensures { asked_of result ≡ spec.of_site (printer_of printer.entry) json }
{
    Asked {
        question: Question::Site,
        printer,
        json,
    }
}

/// Answers `show DB HOST [--json]`.
pub fn run_show(rt: &HostRuntime, words: &ArgMatches<'_>) -> Result<Printed, Failure>
    ensures { spec.AnswersShow (rows_in words.now) result }
{
    let db = required(words, "DB")?;
    let host = required(words, "HOST")?;
    let address = read_host(rt.alloc(), host)?;
    let json = is_set(words, "json");
    answer_question(rt, db, plainly(Question::Listing(address), json))
}

/// Answers `exports DB [--terms] [--json]`.
pub fn run_exports(rt: &HostRuntime, words: &ArgMatches<'_>) -> Result<Printed, Failure>
    ensures { spec.AnswersExports (rows_in words.now) result }
{
    let db = required(words, "DB")?;
    let terms = is_set(words, "terms");
    let json = is_set(words, "json");
    answer_question(rt, db, of_exports(terms, json))
}

/// Returns a question on all exports, which are printed with their terms or without, or as one object.
fn of_exports<'a>(terms: bool, json: bool) -> Asked<'a>
    ensures { asked_of result ≡ spec.of_exports terms json }
{
    Asked {
        question: Question::Exports,
        printer: if terms {
            Printer::Terms
        } else {
            Printer::Plain
        },
        json,
    }
}

/// Answers `who DB DIR [--mountd] [--json]`.
pub fn run_who(rt: &HostRuntime, words: &ArgMatches<'_>) -> Result<Printed, Failure>
    ensures { spec.AnswersWho (rows_in words.now) result }
{
    let db = required(words, "DB")?;
    let dir = required(words, "DIR")?;
    let path = read_path(rt.alloc(), "DIR", dir)?;
    let mountd = is_set(words, "mountd");
    let json = is_set(words, "json");
    answer_question(rt, db, of_site(Printer::Ranges(&path, mountd), json))
}

/// Answers `log DB NAME [--json]` or `proposal DB NAME [--json]`: what is asked of a file by its name alone.
pub fn run_of_file(
    rt: &HostRuntime,
    words: &ArgMatches<'_>,
    what: FileQuestion,
) -> Result<Printed, Failure>
    ensures { spec.AnswersOfFile what (rows_in words.now) result }
{
    let db = required(words, "DB")?;
    let name = required(words, "NAME")?;
    let json = is_set(words, "json");
    answer_question(rt, db, plainly(Question::OfFile(name, what), json))
}

/// Answers `cat DB NAME [--rev N] [--json]`.
pub fn run_cat(rt: &HostRuntime, words: &ArgMatches<'_>) -> Result<Printed, Failure>
    ensures { spec.AnswersCat (rows_in words.now) result }
{
    let db = required(words, "DB")?;
    let name = required(words, "NAME")?;
    let rev = read_revision(rt.alloc(), given(words, "rev"))?;
    let json = is_set(words, "json");
    answer_question(rt, db, plainly(Question::Text(name, rev), json))
}

/// Parses the number of a revision, if it is given.
fn read_revision(alloc: Global, word: Option<&str>) -> Result<Option<u32>, Failure>
    ensures { spec.ParsesRevision (option_map (λ word. word.now) word.entry) result }
{
    match word {
        Some(word) => Ok(Some(read_number(alloc, "--rev", word)?)),
        None => Ok(None),
    }
}

/// Answers `files DB [--json]`.
pub fn run_files(rt: &HostRuntime, words: &ArgMatches<'_>) -> Result<Printed, Failure>
    ensures { spec.AnswersFiles (rows_in words.now) result }
{
    let db = required(words, "DB")?;
    let json = is_set(words, "json");
    answer_question(rt, db, plainly(Question::Files, json))
}

/// Returns a question whose answer is printed as it is, or as one object.
fn plainly<'a>(question: Question<'a>, json: bool) -> Asked<'a>
    ensures { asked_of result ≡ spec.plainly (question_of question.entry) json }
{
    Asked {
        question,
        printer: Printer::Plain,
        json,
    }
}

/// Answers `impact DB NAME FILE [--all] [--json]`, or with `--proposal` in the place of FILE.
pub fn run_impact<I: BufRead>(
    rt: &HostRuntime,
    words: &ArgMatches<'_>,
    input: &mut I,
) -> Result<Printed, Failure>
    ensures { spec.AnswersImpact (rows_in words.now) (I.remaining input.old) result }
{
    let db = required(words, "DB")?;
    let name = required(words, "NAME")?;
    let all = is_set(words, "all");
    let json = is_set(words, "json");
    let file = given(words, "FILE");
    let is_proposal = is_set(words, "proposal");
    foresee(rt, db, name, all, json, file, is_proposal, input)
}

/// Answers `impact` by FILE or by the proposal, one of which is to be given.
fn foresee<I: BufRead>(
    rt: &HostRuntime,
    db: &str,
    name: &str,
    all: bool,
    json: bool,
    file: Option<&str>,
    is_proposal: bool,
    input: &mut I,
) -> Result<Printed, Failure>
    ensures { spec.AnswersImpactBy db.now name.now all json (option_map (λ word. word.now) file.entry) is_proposal (I.remaining input.old) result }
{
    match (file, is_proposal) {
        (Some(_), true) => Err(Failure::BesideProposal),
        (Some(file), false) => foresee_file(rt, db, name, file, all, json, input),
        (None, true) => answer_question(
            rt,
            db,
            changes(Question::ForeseeProposal(name), None, all, json),
        ),
        (None, false) => Err(Failure::of_missing("FILE")),
    }
}

/// Answers `impact` by the text of FILE, which is read before the database is.
fn foresee_file<I: BufRead>(
    rt: &HostRuntime,
    db: &str,
    name: &str,
    file: &str,
    all: bool,
    json: bool,
    input: &mut I,
) -> Result<Printed, Failure>
    ensures { spec.AnswersImpactBy db.now name.now all json (Some file.now) false (I.remaining input.old) result }
{
    let text = read_if_given(rt, "FILE", Some(file), input)?;
    let question = Question::Foresee(name, text.as_str());
    answer_question(rt, db, changes(question, Some(file), all, json))
}

/// Returns a question on what would change by the text of the file that this word names, or by a proposal, with the changes that matter
/// to no client or without.
fn changes<'a>(question: Question<'a>, file: Option<&'a str>, all: bool, json: bool) -> Asked<'a>
    ensures { asked_of result ≡ spec.changes (question_of question.entry) all json }
{
    Asked {
        question,
        printer: Printer::Changes(file, all),
        json,
    }
}
