//! The command `check`: every fault and warning of an exports text and its tables, or of a site's files.

ghost use Rattle.std.specs.Prelude.{◌≡◌, ◌++◌, ◌∷◌, [], IfOk, codes, if◌then◌else◌};
ghost use Rattle.std.specs.Option.{option_map};
ghost use Rattle.std.specs.String.{string_bytes};
ghost use Rattle.desk_text.specs.Lines.{IsReadable};
ghost use Rattle.desk_findings.specs.CheckFaults.{AreReadable};
ghost use Rattle.desk_findings.specs.Finding.{HaveSlices};
ghost use Rattle.cli_words.specs.Words.{rows_in};
ghost use Rattle.cli_texts.specs.CheckCommand.{AnswersByFiles, AnswersCheck, AnswersCheckBy, AnswersGiven, AnswersHeard, AnswersSubject, AnswersTexts, PrintsFindings, asks_opinions, beside_sarif, form_of};
ghost use Rattle.cli_sources.specs.WholeFiles.{files_of};

use crate::check_site_files::check_site;
use crate::findings_form::{FindingsForm, report_by};
use crate::ignored_numbers::{lend_numbers, read_ignored};
use clap::ArgMatches;
use cli_output::failure::Failure;
use cli_output::printed::Printed;
use cli_sources::subject::{Places, Subject, subject_of};
use cli_sources::systems::read_systems;
use cli_sources::whole_files::{
    WholeFiles, read_whole_texts, whole_files, whole_inputs, whole_sources,
};
use cli_words::words::{given, is_set};
use desk_check::CheckForm;
use desk_findings::{Gathered, WholeSources, gather};
use desk_tables::FileSystems;
use std::alloc::{AllocError, Global};
use std::io::BufRead;

/// The names of the words: `check FILE MOUNT...`, or with `--site` none.
const PLACES: Places = Places {
    first: "FILE",
    last: "FILE",
    beside: "FILE",
};

/// Answers `check FILE MOUNT...` or `check --site DIR`, with its options. Whether its forms can be given together comes first,
/// then which warnings are ignored, then which of the two it is, and then the mount points are parsed, before any file is read.
pub fn run_check<I: BufRead>(
    rt: &HostRuntime,
    words: &ArgMatches<'_>,
    input: &mut I,
) -> Result<Printed, Failure>
    ensures { AnswersCheck (rows_in words.now) (I.remaining input.old) result }
{
    match beside_sarif(words) {
        Some(name) => Err(Failure::BesideSarif(name)),
        None => check_heard(rt, words, input),
    }
}

/// Names the first form of findings that cannot be given with `--sarif`, if both are given.
fn beside_sarif(words: &ArgMatches<'_>) -> Option<&'static str>
    ensures { option_map (λ name. name.now) result ≡ beside_sarif (rows_in words.now) }
{
    if !is_set(words, "sarif") {
        return None;
    }
    if is_set(words, "brief") {
        return Some("--brief");
    }
    if is_set(words, "json") {
        return Some("--json");
    }
    None
}

/// Answers once it is known which warnings are ignored.
fn check_heard<I: BufRead>(
    rt: &HostRuntime,
    words: &ArgMatches<'_>,
    input: &mut I,
) -> Result<Printed, Failure>
    ensures { AnswersHeard (rows_in words.now) (I.remaining input.old) result }
{
    let numbers = read_ignored(rt.alloc(), given(words, "ignore"))?;
    check_in_form(rt, words, lend_numbers(&numbers), input)
}

/// Answers in the form that the words ask for, but for the warnings of these numbers, if some are ignored.
fn check_in_form<I: BufRead>(
    rt: &HostRuntime,
    words: &ArgMatches<'_>,
    ignored: Option<&[u32]>,
    input: &mut I,
) -> Result<Printed, Failure>
    ensures { AnswersCheckBy (rows_in words.now) (I.remaining input.old) (option_map (λ numbers. numbers.now) ignored.entry) result }
{
    let subject = subject_of(rt.alloc(), words, PLACES)?;
    check_subject(rt, words, ignored, &subject, input)
}

/// Answers by what is asked of.
fn check_subject<'w, I: BufRead>(
    rt: &HostRuntime,
    words: &ArgMatches<'w>,
    ignored: Option<&[u32]>,
    subject: &Subject<'w>,
    input: &mut I,
) -> Result<Printed, Failure>
    ensures { AnswersSubject (rows_in words.now) (option_map (λ numbers. numbers.now) ignored.entry) (I.remaining input.old) subject.now result }
{
    let files = whole_files(words, subject, "FILE");
    match subject {
        Subject::File(_) => check_given(rt, words, ignored, subject, files, input),
        Subject::Site(folder) => check_site(
            rt,
            asks_opinions(words),
            form_of(words),
            ignored,
            folder,
            files,
            input,
        ),
    }
}

/// Returns the form in which the words ask for the findings.
fn form_of(words: &ArgMatches<'_>) -> FindingsForm
    ensures { result ≡ form_of (rows_in words.now) }
{
    FindingsForm {
        plain: CheckForm {
            brief: is_set(words, "brief"),
            strict: is_set(words, "strict"),
            json: is_set(words, "json"),
        },
        sarif: is_set(words, "sarif"),
    }
}

/// Tests whether the words ask for opinions.
fn asks_opinions(words: &ArgMatches<'_>) -> bool
    ensures { result ≡ asks_opinions (rows_in words.now) }
{
    is_set(words, "opinions")
}

/// Answers without `--site`: FILE is given, and MOUNT or `--mounts` has to be.
fn check_given<I: BufRead>(
    rt: &HostRuntime,
    words: &ArgMatches<'_>,
    ignored: Option<&[u32]>,
    subject: &Subject<'_>,
    files: WholeFiles<'_>,
    input: &mut I,
) -> Result<Printed, Failure>
    ensures { AnswersGiven subject.now (rows_in words.now) (option_map (λ numbers. numbers.now) ignored.entry) (files_of files.entry) (I.remaining input.old) result }
{
    let others = whole_inputs(files);
    let systems = read_systems(rt, false, words, subject, others, input)?;
    match systems {
        Ok(filesystems) => check_files(rt, words, ignored, filesystems, files, input),
        Err(printed) => Ok(printed),
    }
}

/// Answers by these file systems and files.
fn check_files<I: BufRead>(
    rt: &HostRuntime,
    words: &ArgMatches<'_>,
    ignored: Option<&[u32]>,
    filesystems: FileSystems,
    files: WholeFiles<'_>,
    input: &mut I,
) -> Result<Printed, Failure>
    ensures { AnswersByFiles (rows_in words.now) (option_map (λ numbers. numbers.now) ignored.entry) (files_of files.entry) (I.remaining input.old) filesystems result }
{
    let texts = read_whole_texts(rt, files, input)?;
    check_texts(
        rt.alloc(),
        asks_opinions(words),
        form_of(words),
        ignored,
        filesystems,
        whole_sources(files, &texts),
    )
}

/// Answers by the texts of the files, with opinions if they are asked for.
fn check_texts(
    alloc: Global,
    opinions: bool,
    form: FindingsForm,
    ignored: Option<&[u32]>,
    filesystems: FileSystems,
    sources: WholeSources<'_>,
) -> Result<Printed, Failure>
    requires tables { AreReadable sources.tables }
    requires exports { IsReadable sources.exports.text.now }
    ensures { AnswersTexts opinions form (option_map (λ numbers. numbers.now) ignored.entry) filesystems sources.entry result }
{
    let gathered = gather(alloc, sources, filesystems, opinions)?;
    Ok(print_findings(alloc, form, ignored, gathered)?)
}

/// Prints the report of what was found, but for the warnings of these numbers, if some are ignored.
pub fn print_findings(
    alloc: Global,
    form: FindingsForm,
    ignored: Option<&[u32]>,
    gathered: Gathered<'_>,
) -> Result<Printed, AllocError>
    requires { HaveSlices gathered.findings }
    ensures { IfOk result (PrintsFindings form (option_map (λ numbers. numbers.now) ignored.entry) gathered.entry) }
{
    let checked = report_by(alloc, form, ignored, gathered)?;
    let note = check_note(alloc, checked.read_exports)?;
    Ok(Printed {
        status: if checked.passes { 0 } else { 3 },
        text: checked.text,
        note,
    })
}

/// Says if the exports text was not looked at.
fn check_note(alloc: Global, read_exports: bool) -> Result<String, AllocError>
    ensures { IfOk result (λ note. string_bytes note ≡ (if read_exports then [] else codes "exportdesk: the exports were not looked at, since a table has a fault" ++ 10 ∷ [])) }
{
    if read_exports {
        Ok(String::new(alloc))
    } else {
        String::from_str(
            alloc,
            "exportdesk: the exports were not looked at, since a table has a fault\n",
        )
    }
}
