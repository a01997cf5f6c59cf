//! How the answer to a question is printed, with what standard error says beside it: in lines, or as one object of JSON.

ghost use Rattle.std.specs.Prelude.{◌≡◌, ℕ, IfOk, List, None, Some};
ghost use Rattle.std.specs.Option.{option_map};
ghost use Rattle.std.specs.String.{string_bytes};
ghost use Rattle.desk_impact.specs.Report.{IsReport};
ghost use Rattle.desk_policy.specs.Verdict.{verdict_result};
ghost use Rattle.desk_service.specs.Foreseeing.{content_after, foreseen_of};
ghost use Rattle.desk_service.specs.Questions.{ForeseenIs, answer_of, question_of};
ghost use Rattle.desk_service.specs.Sites.{site_of};
ghost use Rattle.cli_output.specs.Printed.{PrintsText};
ghost use Rattle.cli_verdict.specs.TryText as told;
ghost use Rattle.cli_verdict.specs.TryText.{mount_question_of};
ghost use Rattle.cli_questions.specs.PrivateAnswering.{IsSound, TriesToPrint, TriesToPrintLines, TriesToPrintSite, TriesToPrintVerdict, TriesToPrintWhy};
ghost use Rattle.cli_questions.specs.Questions.{asked_of, exports_by, exports_text, file_in, mount_in, printer_of, prints_all};

use crate::answering::{Asked, Printer};
use crate::file_lines::files_text;
use crate::notes::{foreseen_note, no_revision_note, proposal_text_note, refusal_note, text_note};
use crate::objects::{line_of, print_object};
use crate::revision_lines::log_text;
use cli_desk::View;
use cli_desk::desks::CopiedDesk;
use cli_desk::refusal_lines::refused;
use cli_expectations::tested_policy::print_tested;
use cli_output::failure::Failure;
use cli_output::printed::Printed;
use cli_output::shown_lines::shown_lines;
use cli_verdict::{
    MountQuestion, print_ranges, print_tried, printed_verdict, tried_by, tried_with,
};
use desk_core::{Foresight, Proposal};
use desk_impact::{Report, impact_report, lines_report};
use desk_json::exports_object;
use desk_policy::{Policy, PolicyView, Verdict, all_exports, all_terms, listing_text};
use desk_server_notes::news_note;
use desk_service::{Answer, FileText, Foreseen, Looked, Question, Refused, WholeSite, answer};
use desk_who::who_text;
use std::alloc::{AllocError, Global};

/// Prints the answer of a desk to a question: as one object, if that is asked, and else in lines.
pub(crate) fn print_answer(
    alloc: Global,
    desk: &CopiedDesk,
    asked: Asked<'_>,
    answer: Answer<'_, View>,
) -> Result<Printed, Failure>
    requires { IsSound (answer_of (λ content. content) answer) }
    ensures { TriesToPrint (asked_of asked.entry) (answer_of (λ content. content) answer.entry) result }
{
    let json = asked.json;
    if json {
        print_object(alloc, desk, asked, answer)
    } else {
        print_lines(alloc, desk, asked, answer)
    }
}

/// Prints the answer of a desk to a question in lines.
fn print_lines(
    alloc: Global,
    desk: &CopiedDesk,
    asked: Asked<'_>,
    answer: Answer<'_, View>,
) -> Result<Printed, Failure>
    requires { IsSound (answer_of (λ content. content) answer) }
    ensures { TriesToPrintLines (asked_of asked.entry) (answer_of (λ content. content) answer.entry) result }
{
    match answer {
        Answer::Verdict(policy, verdict) => print_verdict(alloc, policy, &verdict),
        Answer::Why(view, reasons) => print_why(alloc, asked.printer, view, reasons.as_str()),
        Answer::Listing(policy, listing) => {
            print_text(alloc, listing_text(alloc, policy, listing.as_slice()))
        }
        Answer::Exports(policy) => print_text(alloc, exports_text(alloc, policy, asked.printer)),
        Answer::Who(policy, ranges) => {
            print_text(alloc, who_text(alloc, policy, ranges.as_slice()))
        }
        Answer::Text(text) => print_revision(alloc, name_in(asked.question), &text),
        Answer::Revisions(revisions) => print_text(
            alloc,
            log_text(alloc, name_in(asked.question), revisions.as_slice()),
        ),
        Answer::Proposal(proposal) => print_proposal(alloc, name_in(asked.question), proposal),
        Answer::NoRevision => {
            let note = no_revision_note(alloc, asked.question)?;
            refused(alloc, Refused::NoRevision, note)
        }
        Answer::Files(files) => print_text(alloc, files_text(alloc, &files)),
        Answer::Foreseen(foreseen) => print_changes(alloc, desk, asked, &foreseen),
        Answer::Site(site) => print_site(alloc, asked.printer, false, &site),
        Answer::Refused(refusal) => {
            let note = refusal_note(alloc, desk, asked, &refusal)?;
            refused(alloc, Refused::Edit(refusal), note)
        }
    }
}

/// Returns the name of the file that a question is on; empty if it is on none.
pub(crate) fn name_in<'a>(question: Question<'a>) -> &'a str
    ensures { result.now ≡ file_in (question_of question.entry) }
{
    match question {
        Question::Text(name, _) | Question::OfFile(name, _) => name,
        _ => "",
    }
}

/// Prints a text as it is, unless memory ran out for it.
pub(crate) fn print_text(
    alloc: Global,
    text: Result<String, AllocError>,
) -> Result<Printed, Failure>
    ensures { (bytes : List ℕ) → IfOk text (λ text. string_bytes text ≡ bytes) → PrintsText 0 bytes result }
{
    match text {
        Ok(text) => Ok(Printed {
            status: 0,
            text,
            note: String::new(alloc),
        }),
        Err(_) => Err(Failure::Memory),
    }
}

/// Writes all exports of a policy, with their terms, as `terms` does, if the printer is for these.
fn exports_text(alloc: Global, policy: &Policy, printer: Printer<'_>) -> Result<String, AllocError>
    ensures { IfOk result (λ text. string_bytes text ≡ exports_text (printer_of printer.entry) policy.now) }
{
    match printer {
        Printer::Terms => all_terms(alloc, policy),
        _ => all_exports(alloc, policy),
    }
}

/// Prints a verdict, as `try` does.
fn print_verdict(alloc: Global, policy: &Policy, verdict: &Verdict<'_>) -> Result<Printed, Failure>
    ensures { TriesToPrintVerdict (told.answer_on policy.now None (verdict_result verdict.now)) result }
{
    let tried = printed_verdict(alloc, policy, verdict, &None)?;
    Ok(print_tried(tried))
}

/// Returns the question of a client whether it may mount a directory, if the printer has it.
fn mount_in<'a>(printer: Printer<'a>) -> Option<MountQuestion<'a>>
    ensures { option_map mount_question_of result ≡ mount_in (printer_of printer.entry) }
{
    match printer {
        Printer::Mounts(question) => Some(question),
        _ => None,
    }
}

/// Prints a verdict and why, as `try --why` does, to whom asks this; and else why alone.
pub(crate) fn print_why(
    alloc: Global,
    printer: Printer<'_>,
    view: &View,
    reasons: &str,
) -> Result<Printed, Failure>
    ensures { TriesToPrintWhy (mount_in (printer_of printer.entry)) view.now reasons.now result }
{
    match mount_in(printer) {
        Some(question) => print_reasons(alloc, view, question, reasons),
        None => print_text(alloc, shown_lines(alloc, reasons)),
    }
}

/// Prints the verdict on a mount, and below it these reasons.
fn print_reasons(
    alloc: Global,
    view: &View,
    question: MountQuestion<'_>,
    reasons: &str,
) -> Result<Printed, Failure>
    ensures { TriesToPrintWhy (Some (mount_question_of question.entry)) view.now reasons.now result }
{
    let tried = tried_with(alloc, view, question, reasons)?;
    Ok(print_tried(tried))
}

/// Prints the text of a revision. Standard error says who approved it, or that it is read by profile 1.
fn print_revision(alloc: Global, name: &str, text: &FileText) -> Result<Printed, Failure>
    ensures { PrintsText 0 text.now.body result }
{
    let note = text_note(alloc, name, text)?;
    let body = String::from_str(alloc, text.body.as_str())?;
    Ok(Printed {
        status: 0,
        text: body,
        note,
    })
}

/// Prints the text of a proposal. Standard error says who proposes it, on which revision, and the digest of the text.
fn print_proposal(alloc: Global, name: &str, proposal: &Proposal) -> Result<Printed, Failure>
    ensures { PrintsText 0 proposal.now.body result }
{
    let note = proposal_text_note(alloc, name, proposal)?;
    let body = String::from_str(alloc, proposal.body.as_str())?;
    Ok(Printed {
        status: 0,
        text: body,
        note,
    })
}

/// Prints what would change, as it is shown.
fn print_changes(
    alloc: Global,
    desk: &CopiedDesk,
    asked: Asked<'_>,
    foreseen: &Foreseen<'_, View>,
) -> Result<Printed, Failure>
    requires { IsSound (ForeseenIs (foreseen_of (λ content. content) foreseen.now)) }
    ensures { TriesToPrintLines (asked_of asked.entry) (ForeseenIs (foreseen_of (λ content. content) foreseen.now)) result }
{
    let note = changes_note(alloc, desk, asked.question, foreseen)?;
    let report = report_of(alloc, foreseen, prints_all(asked.printer))?;
    let text = shown_lines(alloc, report.text.as_str())?;
    Ok(Printed {
        status: if report.mattering == 0 { 0 } else { 1 },
        text,
        note,
    })
}

/// Tests whether changes that matter to no client are printed, too.
pub(crate) fn prints_all(printer: Printer<'_>) -> bool
    ensures { result ≡ prints_all (printer_of printer.entry) }
{
    match printer {
        Printer::Changes(_, all) => all,
        _ => false,
    }
}

/// Says who proposes the text that is foreseen, or that it would be proposed, and what mountd(8) would grant more.
pub(crate) fn changes_note(
    alloc: Global,
    desk: &CopiedDesk,
    question: Question<'_>,
    foreseen: &Foreseen<'_, View>,
) -> Result<String, AllocError> {
    let news = news_of(alloc, desk, question)?;
    let mut note = foreseen_note(alloc, question, foreseen)?;
    note.push_str(news.as_str())?;
    Ok(note)
}

/// Says what mountd(8) would grant more. Its rule is asked of the whole site as it would be.
fn news_of(alloc: Global, desk: &CopiedDesk, question: Question<'_>) -> Result<String, AllocError> {
    let whole = match question {
        Question::Foresee(name, text) => Question::ForeseeSite(name, text),
        Question::ForeseeProposal(name) => Question::ForeseeProposedSite(name),
        _ => return Ok(String::new(alloc)),
    };
    match answer(alloc, desk, whole, Looked::Nothing)? {
        Answer::Site(site) => news_note(alloc, desk.view(), site.view()),
        _ => Ok(String::new(alloc)),
    }
}

/// Reports what would change.
fn report_of(alloc: Global, foreseen: &Foreseen<'_, View>, all: bool) -> Result<Report, AllocError>
    requires { IsSound (ForeseenIs (foreseen_of (λ content. content) foreseen.now)) }
    ensures { let given = foreseen_of (λ content. content) foreseen.now in IfOk result (IsReport given.before (content_after given) all) }
{
    match &foreseen.foresight {
        Foresight::Whole(after) => impact_report(alloc, foreseen.before, after, all),
        Foresight::Lines(fs, lines) => lines_report(alloc, foreseen.before, lines, *fs, all),
    }
}

/// Prints of a site which expectations it breaks, whether a client may mount a directory, or who may; and plainly all
/// its exports. The last two are printed as one object, if that is asked here; the first two know it themselves.
pub(crate) fn print_site(
    alloc: Global,
    printer: Printer<'_>,
    json: bool,
    site: &WholeSite<'_, View>,
) -> Result<Printed, Failure>
    ensures { TriesToPrintSite json (site_of (λ content. content) site.now) (printer_of printer.entry) result }
{
    match printer {
        Printer::Breaches(_, expected) => {
            Ok(print_tested(alloc, site.tables(), site.view(), expected)?)
        }
        Printer::Mounts(question) => {
            let tried = tried_by(alloc, site.view(), site.tables(), question)?;
            Ok(print_tried(tried))
        }
        Printer::Ranges(path, mountd) => {
            Ok(print_ranges(alloc, site.view(), path, mountd, json)?)
        }
        Printer::Plain => print_exports(alloc, site, printer, json),
        Printer::Terms => print_exports(alloc, site, printer, json),
        Printer::Changes(_, _) => print_exports(alloc, site, printer, json),
    }
}

/// Prints all exports of a site.
fn print_exports(
    alloc: Global,
    site: &WholeSite<'_, View>,
    printer: Printer<'_>,
    json: bool,
) -> Result<Printed, Failure>
    ensures { PrintsText 0 (exports_by json (printer_of printer.entry) (site_of (λ content. content) site.now).content) result }
{
    print_text(
        alloc,
        exports_by(alloc, site.view().policy(), printer, json),
    )
}

/// Writes all exports of a policy as one object on a line, if that is asked, and else as the printer says.
fn exports_by(
    alloc: Global,
    policy: &Policy,
    printer: Printer<'_>,
    json: bool,
) -> Result<String, AllocError>
    ensures { IfOk result (λ text. string_bytes text ≡ exports_by json (printer_of printer.entry) policy.now) }
{
    if json {
        line_of(alloc, exports_object(alloc, policy))
    } else {
        exports_text(alloc, policy, printer)
    }
}
