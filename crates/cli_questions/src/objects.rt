//! How the answer to a question is printed as one object of JSON, on a line of its own. The exit status is that of the same
//! answer in lines, and so is what standard error says.

ghost use Rattle.std.specs.Prelude.{◌≡◌, ℕ, IfOk, List, None, map};
ghost use Rattle.std.specs.String.{string_bytes};
ghost use Rattle.serde_json.specs.View.{view};
ghost use Rattle.serde_json.specs.Written.{compact_text};
ghost use Rattle.desk_policy.specs.Verdict.{verdict_result};
ghost use Rattle.desk_who.specs.Who.{range_value};
ghost use Rattle.desk_impact.specs.ListedChanges.{AreListed, listed_place};
ghost use Rattle.desk_service.specs.Foreseeing.{content_after, foreseen_of};
ghost use Rattle.desk_service.specs.Questions.{ForeseenIs, NoRevision, RefusedBy, answer_of, question_of};
ghost use Rattle.desk_http_bodies.specs.Revisions.{file_data, proposal_data};
ghost use Rattle.desk_http_bodies.specs.Verdicts.{verdict_data};
ghost use Rattle.desk_json.specs.Changes.{changes_data};
ghost use Rattle.cli_output.specs.Printed.{PrintsText};
ghost use Rattle.cli_verdict.specs.ObjectLine.{data_line, object_line};
ghost use Rattle.cli_desk.specs.RefusalLines as lines;
ghost use Rattle.cli_questions.specs.Objects as spec;
ghost use Rattle.cli_questions.specs.Objects.{verdict_status};
ghost use Rattle.cli_questions.specs.PrivateAnswering.{IsSound, TriesToPrintObject};
ghost use Rattle.cli_questions.specs.Questions.{asked_of, file_in};

use crate::answering::Asked;
use crate::notes::{no_revision_note, proposal_text_note, refusal_note, text_note};
use crate::printing::{changes_note, name_in, print_site, print_text, print_why, prints_all};
use cli_desk::View;
use cli_desk::desks::CopiedDesk;
use cli_desk::refusal_lines::refused_status;
use cli_output::failure::Failure;
use cli_output::printed::Printed;
use cli_verdict::{changes_status, object_line};
use desk_core::{Foresight, Proposal, Refusal};
use desk_http_bodies::{
    exports_body, file_body, proposal_body, refusal_body, verdict_body, who_body,
};
use desk_impact::{ListedPlace, list_changes, list_line_changes};
use desk_json::{changes_name_mounts, changes_object, exports_object, files_object, log_object};
use desk_policy::{Policy, PolicyView, Shown, Verdict, listing_text};
use desk_service::{Answer, FileText, Foreseen, Question, Refused};
use desk_who::{Range, who_text};
use serde_json::{Value, json};
use std::alloc::{AllocError, Global};

/// Prints the answer of a desk to a question as one object.
pub(crate) fn print_object(
    alloc: Global,
    desk: &CopiedDesk,
    asked: Asked<'_>,
    answer: Answer<'_, View>,
) -> Result<Printed, Failure>
    requires { IsSound (answer_of (λ content. content) answer) }
    ensures { TriesToPrintObject (asked_of asked.entry) (answer_of (λ content. content) answer.entry) result }
{
    match answer {
        Answer::Verdict(policy, verdict) => print_verdict_object(alloc, policy, &verdict),
        Answer::Why(view, reasons) => print_why(alloc, asked.printer, view, reasons.as_str()),
        Answer::Listing(policy, listing) => print_text(
            alloc,
            listing_line(alloc, asked.question, policy, listing.as_slice()),
        ),
        Answer::Exports(policy) => {
            print_text(alloc, line_of(alloc, exports_object(alloc, policy)))
        }
        Answer::Who(policy, ranges) => print_text(
            alloc,
            ranges_line(alloc, asked.question, policy, ranges.as_slice()),
        ),
        Answer::Text(text) => print_revision_object(alloc, name_in(asked.question), &text),
        Answer::Revisions(revisions) => print_text(
            alloc,
            line_of(
                alloc,
                log_object(alloc, name_in(asked.question), revisions.as_slice()),
            ),
        ),
        Answer::Proposal(proposal) => print_proposal_object(alloc, asked.question, proposal),
        Answer::NoRevision => print_no_revision(alloc, asked),
        Answer::Files(files) => print_text(alloc, line_of(alloc, files_object(alloc, &files))),
        Answer::Foreseen(foreseen) => print_changes_object(alloc, desk, asked, &foreseen),
        Answer::Site(site) => print_site(alloc, asked.printer, true, &site),
        Answer::Refused(refusal) => print_refusal(alloc, desk, asked, refusal),
    }
}

/// Prints a verdict.
fn print_verdict_object(
    alloc: Global,
    policy: &Policy,
    verdict: &Verdict<'_>,
) -> Result<Printed, Failure>
    ensures { let answer = verdict_result verdict.now in PrintsText (verdict_status answer) (data_line (verdict_data policy.now None answer)) result }
{
    let line = line_of(alloc, verdict_body(alloc, policy, verdict, &None))?;
    Ok(Printed {
        status: verdict_status(verdict),
        text: line,
        note: String::new(alloc),
    })
}

/// Returns the exit status of a verdict.
fn verdict_status(verdict: &Verdict<'_>) -> u8
    ensures { result ≡ verdict_status (verdict_result verdict.now) }
{
    match verdict {
        Verdict::Granted { .. } => 0,
        Verdict::Denied(_) => 1,
    }
}

/// Writes an object on a line of its own, unless memory ran out for it.
pub(crate) fn line_of(
    alloc: Global,
    object: Result<String, AllocError>,
) -> Result<String, AllocError>
    ensures { (bytes : List ℕ) → IfOk object (λ text. string_bytes text ≡ bytes) → IfOk result (λ line. string_bytes line ≡ object_line bytes) }
{
    match object {
        Ok(object) => object_line(alloc, object.as_str()),
        Err(error) => Err(error),
    }
}

/// Writes what a client may mount, of whom it is asked.
fn listing_line(
    alloc: Global,
    question: Question<'_>,
    policy: &Policy,
    listing: &[Shown],
) -> Result<String, AllocError>
    ensures { IfOk result (λ line. string_bytes line ≡ spec.listing_line (question_of question.entry) policy.now listing.now) }
{
    match question {
        Question::Listing(address) => {
            line_of(alloc, exports_body(alloc, policy, address, listing))
        }
        _ => listing_text(alloc, policy, listing),
    }
}

/// Writes who may mount a directory, of which it is asked.
fn ranges_line(
    alloc: Global,
    question: Question<'_>,
    policy: &Policy,
    ranges: &[Range<'_>],
) -> Result<String, AllocError>
    ensures { IfOk result (λ line. string_bytes line ≡ spec.ranges_line (question_of question.entry) policy.now (map range_value ranges.now)) }
{
    match question {
        Question::Who(path) => line_of(alloc, who_body(alloc, policy, path, ranges)),
        _ => who_text(alloc, policy, ranges),
    }
}

/// Prints a revision with its text.
fn print_revision_object(alloc: Global, name: &str, text: &FileText) -> Result<Printed, Failure>
    ensures { PrintsText 0 (data_line (file_data name.now text.now)) result }
{
    let note = text_note(alloc, name, text)?;
    let line = line_of(alloc, file_body(alloc, name, text))?;
    Ok(Printed {
        status: 0,
        text: line,
        note,
    })
}

/// Prints the proposal of a file.
fn print_proposal_object(
    alloc: Global,
    question: Question<'_>,
    proposal: &Proposal,
) -> Result<Printed, Failure>
    ensures { PrintsText 0 (data_line (proposal_data (file_in (question_of question.entry)) proposal.now)) result }
{
    let name = name_in(question);
    let note = proposal_text_note(alloc, name, proposal)?;
    let line = line_of(alloc, proposal_body(alloc, name, proposal))?;
    Ok(Printed {
        status: 0,
        text: line,
        note,
    })
}

/// Prints that the desk has nothing of what is asked.
fn print_no_revision(alloc: Global, asked: Asked<'_>) -> Result<Printed, Failure>
    ensures { TriesToPrintObject (asked_of asked.entry) NoRevision result }
{
    let note = no_revision_note(alloc, asked.question)?;
    refused(alloc, Refused::NoRevision, note)
}

/// Prints why the edit that was to be foreseen is refused.
fn print_refusal(
    alloc: Global,
    desk: &CopiedDesk,
    asked: Asked<'_>,
    refusal: Refusal,
) -> Result<Printed, Failure>
    ensures { TriesToPrintObject (asked_of asked.entry) (RefusedBy refusal) result }
{
    let note = refusal_note(alloc, desk, asked, &refusal)?;
    refused(alloc, Refused::Edit(refusal), note)
}

/// Prints a refusal. Standard error says this beside it.
fn refused(alloc: Global, why: Refused, note: String) -> Result<Printed, Failure>
    ensures { PrintsText (lines.refused_status why) (data_line (spec.refused_object why)) result }
{
    let status = refused_status(&why);
    match line_of(alloc, refused_object(alloc, &why)) {
        Ok(text) => Ok(Printed { status, text, note }),
        Err(_) => Err(Failure::Memory),
    }
}

/// Writes the object of a refusal: of an edit that of HTTP, else its name and number.
fn refused_object(alloc: Global, why: &Refused) -> Result<String, AllocError>
    ensures { IfOk result (λ text. string_bytes text ≡ compact_text (spec.refused_object why.now)) }
{
    match why {
        Refused::Edit(refusal) => refusal_body(alloc, refusal),
        other => numbered_object(alloc, other.name(), other.number()),
    }
}

/// Writes the object of a name and a number.
fn numbered_object(alloc: Global, name: &str, number: u32) -> Result<String, AllocError>
    ensures { IfOk result (λ text. string_bytes text ≡ compact_text (spec.numbered_data name.now number)) }
{
    let value = numbered_value(alloc, name, number)?;
    value.to_string(alloc)
}

/// Makes the value of a name and a number.
fn numbered_value(alloc: Global, name: &str, number: u32) -> Result<Value, AllocError>
    ensures { IfOk result (λ value. view value ≡ spec.numbered_data name.now number) }
{
    json!(in alloc; {"error": name, "number": number})
}

/// Prints what would change.
fn print_changes_object(
    alloc: Global,
    desk: &CopiedDesk,
    asked: Asked<'_>,
    foreseen: &Foreseen<'_, View>,
) -> Result<Printed, Failure>
    requires { IsSound (ForeseenIs (foreseen_of (λ content. content) foreseen.now)) }
    ensures { TriesToPrintObject (asked_of asked.entry) (ForeseenIs (foreseen_of (λ content. content) foreseen.now)) result }
{
    let note = changes_note(alloc, desk, asked.question, foreseen)?;
    let found = found_of(alloc, foreseen)?;
    let all = prints_all(asked.printer);
    let line = line_of(alloc, changes_text(alloc, foreseen, all, found.as_slice()))?;
    Ok(Printed {
        status: changes_status(found.as_slice()),
        text: line,
        note,
    })
}

/// Finds what would change, place by place.
fn found_of<'a>(
    alloc: Global,
    foreseen: &'a Foreseen<'a, View>,
) -> Result<Vec<ListedPlace<'a>>, AllocError>
    requires { IsSound (ForeseenIs (foreseen_of (λ content. content) foreseen.now)) }
    ensures { let given = foreseen_of (λ content. content) foreseen.now in IfOk result (λ found. AreListed given.before (content_after given) (map listed_place found.items)) }
{
    match &foreseen.foresight {
        Foresight::Whole(after) => list_changes(alloc, foreseen.before, after),
        Foresight::Lines(fs, lines) => list_line_changes(alloc, foreseen.before, lines, *fs),
    }
}

/// Writes what would change, of all changes or of those that matter.
fn changes_text(
    alloc: Global,
    foreseen: &Foreseen<'_, View>,
    all: bool,
    found: &[ListedPlace<'_>],
) -> Result<String, AllocError>
    ensures { let given = foreseen_of (λ content. content) foreseen.now in
        IfOk result (λ text. string_bytes text ≡ compact_text (changes_data given.before (content_after given) all (map listed_place found.now))) }
{
    changes_name_mounts();
    let before = foreseen.before.policy();
    changes_object(alloc, before, named_after(foreseen), all, found)
}

/// Lends a policy that names the mount points as that does which would be in force.
fn named_after<'a>(foreseen: &'a Foreseen<'_, View>) -> &'a Policy
    ensures { result.now.table ≡ (content_after (foreseen_of (λ content. content) foreseen.now)).table }
{
    match &foreseen.foresight {
        Foresight::Whole(after) => after.policy(),
        Foresight::Lines(_, _) => foreseen.before.policy(),
    }
}
