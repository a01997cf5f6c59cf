//! The command `audit`: whether the newest files of a database keep what a text expects of them, or would with another text of one of
//! them.

ghost use Rattle.std.specs.Prelude.{◌≡◌, ◌≤◌, IfOk, length};
ghost use Rattle.std.specs.Option.{option_map};
ghost use Rattle.std.specs.Result.{result_map_both};
ghost use Rattle.std.specs.String.{string_bytes};
ghost use Rattle.desk_text.specs.Lines.{IsReadable};
ghost use Rattle.desk_service.specs.Questions.{question_of};
ghost use Rattle.cli_expectations.specs.TestedPolicy.{expected_of};
ghost use Rattle.cli_files.specs.Files.{ReadsFiles, is_input_if_given, name_input_twice};
ghost use Rattle.cli_words.specs.Words.{rows_in};
ghost use Rattle.cli_questions.specs.AuditCommand as spec;
ghost use Rattle.cli_questions.specs.Questions.{asked_of};

use crate::answering::{Asked, Printer, answer_question};
use clap::ArgMatches;
use cli_expectations::expectations_file::{ExpectationsFile, ReportForm, form_by};
use cli_files::files::{is_input, read_if_given};
use cli_output::failure::Failure;
use cli_output::printed::Printed;
use cli_words::words::{given, is_set, required};
use desk_service::Question;
use std::io::BufRead;

/// What the words of `audit` name.
#[derive(Clone, Copy)]
pub struct AuditWords<'a> {
    pub db: &'a str,
    pub expectations: &'a str,
    /// The form in which it is printed what is broken.
    pub form: ReportForm,
    /// The name of the file that would have another text, if it is given.
    pub name: Option<&'a str>,
    /// The file of that text, if it is given.
    pub file: Option<&'a str>,
}

/// The texts of `audit`: the expectations, and the other text, which is empty if it is not given.
#[derive(Drop)]
pub struct AuditTexts {
    pub expectations: String,
    pub other: String,
}

/// Answers `audit DB EXPECTATIONS [NAME FILE]`, or with `--proposal` in the place of FILE. Whether its forms can be given together comes
/// first. The texts are read before the database is.
pub fn run_audit<I: BufRead>(
    rt: &HostRuntime,
    words: &ArgMatches<'_>,
    input: &mut I,
) -> Result<Printed, Failure>
    ensures { spec.AnswersAudit (rows_in words.now) (I.remaining input.old) result }
{
    let form = form_by(is_set(words, "json"), is_set(words, "sarif"))?;
    audit_in_form(rt, words, form, input)
}

/// Answers in the form that the words ask for.
fn audit_in_form<I: BufRead>(
    rt: &HostRuntime,
    words: &ArgMatches<'_>,
    form: ReportForm,
    input: &mut I,
) -> Result<Printed, Failure>
    ensures { spec.AnswersInForm (rows_in words.now) (I.remaining input.old) form result }
{
    let db = required(words, "DB")?;
    let expectations = required(words, "EXPECTATIONS")?;
    let named = AuditWords {
        db,
        expectations,
        form,
        name: given(words, "NAME"),
        file: given(words, "FILE"),
    };
    audit(rt, named, is_set(words, "proposal"), input)
}

/// Answers by the words: NAME is to be given with FILE or with the proposal, or not at all.
fn audit<I: BufRead>(
    rt: &HostRuntime,
    words: AuditWords<'_>,
    is_proposal: bool,
    input: &mut I,
) -> Result<Printed, Failure>
    ensures { spec.AnswersBy (spec.words_of words.entry) is_proposal (I.remaining input.old) result }
{
    match (words.name, words.file, is_proposal) {
        (None, None, false) | (Some(_), Some(_), false) | (Some(_), None, true) => {
            audit_files(rt, words, input)
        }
        (_, Some(_), true) => Err(Failure::BesideProposal),
        (Some(_), None, false) => Err(Failure::of_missing("FILE")),
        (None, Some(_), false) | (None, None, true) => Err(Failure::of_missing("NAME")),
    }
}

/// Answers by the texts of the files.
fn audit_files<I: BufRead>(
    rt: &HostRuntime,
    words: AuditWords<'_>,
    input: &mut I,
) -> Result<Printed, Failure>
    ensures { spec.AnswersFiles (spec.words_of words.entry) (I.remaining input.old) result }
{
    let texts = read_texts(rt, words, input)?;
    let expected = expected_by(words, texts.expectations.as_str());
    let question = site_question(words, texts.other.as_str());
    answer_question(rt, words.db, auditing(question, words, expected))
}

/// Reads EXPECTATIONS, and then FILE, if it is given. At most one of them may be standard input.
fn read_texts<I: BufRead>(
    rt: &HostRuntime,
    words: AuditWords<'_>,
    input: &mut I,
) -> Result<AuditTexts, Failure>
    ensures texts { ReadsFiles (spec.audit_files (spec.words_of words.entry)) (I.remaining input.old) (result_map_both spec.texts_of (λ failure. failure) result) }
    ensures short { IfOk result (λ texts. length (string_bytes texts.expectations) ≤ 16777216) }
{
    if names_input_twice(words) {
        return Err(Failure::InputTwice);
    }
    let expectations = read_if_given(rt, "EXPECTATIONS", Some(words.expectations), input)?;
    let other = read_if_given(rt, "FILE", words.file, input)?;
    Ok(AuditTexts {
        expectations,
        other,
    })
}

/// Tests whether both files are to be standard input.
fn names_input_twice(words: AuditWords<'_>) -> bool
    ensures { result ≡ name_input_twice (spec.audit_files (spec.words_of words.entry)) }
{
    is_input(words.expectations) && is_input_if_given(words.file)
}

/// Tests whether a file that may not be given is standard input.
fn is_input_if_given(file: Option<&str>) -> bool
    ensures { result ≡ is_input_if_given (option_map (λ word. word.now) file.entry) }
{
    match file {
        Some(file) => is_input(file),
        None => false,
    }
}

/// Returns the question that the words ask, with this text of FILE.
fn site_question<'a>(words: AuditWords<'a>, text: &'a str) -> Question<'a>
    ensures { question_of result ≡ spec.site_question (spec.words_of words.entry) text.entry.now }
{
    match (words.name, words.file) {
        (None, _) => Question::Site,
        (Some(name), None) => Question::ForeseeProposedSite(name),
        (Some(name), Some(_)) => Question::ForeseeSite(name, text),
    }
}

/// Returns this text as the expectations of a database.
fn expected_by<'a>(words: AuditWords<'a>, text: &'a str) -> ExpectationsFile<'a>
    requires { IsReadable text.now }
    ensures { expected_of result ≡ spec.expected_by (spec.words_of words.entry) text.entry.now }
{
    ExpectationsFile {
        path: words.expectations,
        text,
        form: words.form,
        exports: None,
    }
}

/// Returns a question on a site, of which is printed which of these expectations it breaks.
fn auditing<'a>(
    question: Question<'a>,
    words: AuditWords<'a>,
    expected: ExpectationsFile<'a>,
) -> Asked<'a>
    ensures { asked_of result ≡ spec.auditing (question_of question.entry) (expected_of expected.entry) }
{
    Asked {
        question,
        printer: Printer::Breaches(words.file, expected),
        json: false,
    }
}
