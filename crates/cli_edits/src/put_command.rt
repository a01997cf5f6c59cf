//! The command `put`: an edit of a file.

ghost use Rattle.std.specs.Prelude.{◌≡◌, ◌+◌, None, Some, IfOk, MatchResult};
ghost use Rattle.std.specs.Option.{option_map};
ghost use Rattle.std.specs.String.{string_bytes};
ghost use Rattle.desk_core.specs.Edit.{asked};
ghost use Rattle.desk_service.specs.declared.refused.Refused.TheVariants as refused;
ghost use Rattle.cli_words.specs.Words.{rows_in};
ghost use Rattle.cli_desk.specs.RefusalLines.{IsRefused};
ghost use Rattle.desk_service.specs.Approving.{approval_of};
ghost use Rattle.cli_files.specs.Files.{is_input_if_given};
ghost use Rattle.cli_edits.specs.PutCommand.{AnswersApproval, AnswersEdit, AnswersPut, AnswersPutBy, AnswersPutFile, AnswersPutProposal, HasReplies, IsKey, IsKeyIn, PrintsApproval, PrintsPut, PrintsReply, PutsFound, key_fault, line_of};

use crate::server_note::counted;
use clap::ArgMatches;
use cli_desk::View;
use cli_desk::desks::{OpenedDesk, open_for_edits};
use cli_desk::refusal_lines::refused;
use cli_desk::refusal_notes::{KeylessEdit, refusal_note, refused_by_desk};
use cli_desk::site_notes::{NewText, edit_fault_note};
use cli_files::files::{is_input, read_if_given};
use cli_output::failure::Failure;
use cli_output::printed::Printed;
use cli_words::values::{check_digest, read_number};
use cli_words::words::{given, required};
use desk_core::{Edit, Refusal};
use desk_service::{Approval, Refused, Replies, approved_text};
use desk_store::{Desk, DeskError};
use desk_text::Text;
use sqlite::{Alter, Wary};
use std::alloc::{AllocError, Global};
use std::io::BufRead;

/// The words of an edit that a refusal names: DB, and FILE or the digest in its place.
#[derive(Clone, Copy)]
struct Named<'a> {
    db: &'a str,
    file: &'a str,
}

/// Answers `put DB NAME FILE --base N --caller C --key K`, or with `--key-file FILE`; or with `--proposal DIGEST` in
/// the place of FILE, one of which is to be given.
pub fn run_put<I: BufRead>(
    rt: &HostRuntime,
    words: &ArgMatches<'_>,
    input: &mut I,
) -> Result<Printed, Failure>
    ensures { AnswersPut (rows_in words.now) (I.remaining input.old) result }
{
    let file = given(words, "FILE");
    let digest = given(words, "proposal");
    put_by(rt, words, file, digest, input)
}

/// Answers `put` by FILE, or by the digest of the proposal.
fn put_by<I: BufRead>(
    rt: &HostRuntime,
    words: &ArgMatches<'_>,
    file: Option<&str>,
    digest: Option<&str>,
    input: &mut I,
) -> Result<Printed, Failure>
    ensures { AnswersPutBy (option_map (λ word. word.now) file.entry) (option_map (λ word. word.now) digest.entry) (rows_in words.now) (I.remaining input.old) result }
{
    match (file, digest) {
        (Some(_), Some(_)) => Err(Failure::BesideProposal),
        (Some(file), None) => put_file(rt, words, file, input),
        (None, Some(digest)) => put_proposal(rt, words, digest, input),
        (None, None) => Err(Failure::of_missing("FILE")),
    }
}

/// Answers `put` by the text of FILE. The words are looked at, then FILE and the key's file are read, and then the
/// database is opened.
fn put_file<I: BufRead>(
    rt: &HostRuntime,
    words: &ArgMatches<'_>,
    file: &str,
    input: &mut I,
) -> Result<Printed, Failure>
    ensures { AnswersPutFile file.now (rows_in words.now) (I.remaining input.old) result }
{
    let db = required(words, "DB")?;
    let name = required(words, "NAME")?;
    let base = required(words, "base")?;
    let caller = required(words, "caller")?;
    let base = read_number(rt.alloc(), "--base", base)?;
    let key = given(words, "key");
    let key_file = given(words, "key-file");
    check_key(Some(file), key, key_file)?;
    let text = read_if_given(rt, "FILE", Some(file), input)?;
    let key_text = read_if_given(rt, "--key-file", key_file, input)?;
    let key = key_of(key, key_text.as_str());
    let text = text.as_str();
    let edit = Edit {
        file: name,
        base,
        caller,
        key,
        text,
    };
    put_edit(rt, Named { db, file }, &edit)
}

/// Answers `put` by the proposal with this digest. The words are looked at, then the key's file is read, and then the
/// database is opened.
fn put_proposal<I: BufRead>(
    rt: &HostRuntime,
    words: &ArgMatches<'_>,
    digest: &str,
    input: &mut I,
) -> Result<Printed, Failure>
    ensures { AnswersPutProposal digest.now (rows_in words.now) (I.remaining input.old) result }
{
    let db = required(words, "DB")?;
    let name = required(words, "NAME")?;
    let base = required(words, "base")?;
    let caller = required(words, "caller")?;
    let base = read_number(rt.alloc(), "--base", base)?;
    check_digest(rt.alloc(), "--proposal", digest)?;
    let key = given(words, "key");
    let key_file = given(words, "key-file");
    check_key(None, key, key_file)?;
    let key_text = read_if_given(rt, "--key-file", key_file, input)?;
    let key = key_of(key, key_text.as_str());
    let approval = Approval {
        file: name,
        base,
        caller,
        key,
        digest,
    };
    put_approval(rt, Named { db, file: digest }, approval)
}

/// Tests where the key is: in just one of the two options. Only one file may be standard input.
fn check_key(file: Option<&str>, key: Option<&str>, key_file: Option<&str>) -> Result<(), Failure>
    ensures { let found = key_fault (option_map (λ word. word.now) file.entry) (option_map (λ word. word.now) key.entry) (option_map (λ word. word.now) key_file.entry) in
        MatchResult result (λ fine. found ≡ None) (λ failure. found ≡ Some failure) }
{
    match (key, key_file) {
        (Some(_), Some(_)) => Err(Failure::KeyTwice),
        (None, None) => Err(Failure::NoKey),
        (Some(_), None) => Ok(()),
        (None, Some(key_file)) => {
            if is_input_if_given(file) && is_input(key_file) {
                Err(Failure::InputTwice)
            } else {
                Ok(())
            }
        }
    }
}

/// Tests whether a file that may not be given is standard input.
fn is_input_if_given(file: Option<&str>) -> bool
    ensures { result ≡ is_input_if_given (option_map (λ word. word.now) file.entry) }
{
    match file {
        Some(file) => is_input(file),
        None => false,
    }
}

/// Returns the key: the word of it, or else the first line of its file.
fn key_of<'a>(word: Option<&'a str>, text: &'a str) -> &'a str
    ensures { IsKey (option_map (λ word. word.now) word.entry) text.entry.now result.now }
{
    match word {
        Some(word) => word,
        None => first_line(text),
    }
}

/// Returns the first line of a key's file, without its line end.
fn first_line(text: &str) -> &str
    ensures { IsKeyIn text.now result.now }
{
    match text.lines().next() {
        Some(line) => line,
        None => "",
    }
}

/// Opens the desk of a database, and puts an edit into it. What may be printed of the edit is made before.
fn put_edit(rt: &HostRuntime, named: Named<'_>, edit: &Edit<'_>) -> Result<Printed, Failure>
    ensures { AnswersEdit named.entry.db.now (asked edit.now) result }
{
    let replies = replies_of(rt.alloc(), u64::from(edit.base) + 1)?;
    match open_for_edits(rt, named.db, Wary) {
        Ok(mut opened) => {
            let answer = put_into(rt.alloc(), named, &mut opened, edit, replies);
            opened.close(rt);
            answer
        }
        Err(answer) => {
            drop(replies);
            answer
        }
    }
}

/// Puts an edit into an opened desk, and prints the reply to it, or why there is none.
fn put_into<S: Alter + Drop>(
    alloc: Global,
    named: Named<'_>,
    opened: &mut OpenedDesk<S>,
    edit: &Edit<'_>,
    replies: Replies<String>,
) -> Result<Printed, Failure>
    ensures { PrintsPut S.Store opened.old.desk opened.new.desk (asked edit.now) replies result }
{
    let reply = opened.put(alloc, edit, replies);
    reply_printed(alloc, named, &opened.desk, KeylessEdit::of(edit), reply)
}

/// Opens the desk of a database, and puts the text that waits there, if it has the digest of an approval. What may be
/// printed of that edit is made before.
fn put_approval(
    rt: &HostRuntime,
    named: Named<'_>,
    approval: Approval<'_>,
) -> Result<Printed, Failure>
    ensures { AnswersApproval named.entry.db.now (approval_of approval.entry) result }
{
    let replies = replies_of(rt.alloc(), u64::from(approval.base) + 1)?;
    match open_for_edits(rt, named.db, Wary) {
        Ok(mut opened) => {
            let answer = approve_into(rt.alloc(), named, &mut opened, approval, replies);
            opened.close(rt);
            answer
        }
        Err(answer) => {
            drop(replies);
            answer
        }
    }
}

/// Puts the text that waits in an opened desk into it, if it has the digest of an approval, and prints the reply; or
/// why there is none.
fn approve_into<S: Alter + Drop>(
    alloc: Global,
    named: Named<'_>,
    opened: &mut OpenedDesk<S>,
    approval: Approval<'_>,
    replies: Replies<String>,
) -> Result<Printed, Failure>
    ensures { PrintsApproval S.Store opened.old.desk opened.new.desk (approval_of approval.entry) replies result }
{
    match approved_text(alloc, &opened.desk, approval) {
        Ok(found) => put_found(alloc, named, opened, approval, found, replies),
        Err(_) => {
            drop(replies);
            Err(Failure::Memory)
        }
    }
}

/// Puts the text that was found for an approval into the opened desk where it waits, and prints the reply; or why there
/// is none.
fn put_found<S: Alter + Drop>(
    alloc: Global,
    named: Named<'_>,
    opened: &mut OpenedDesk<S>,
    approval: Approval<'_>,
    found: Result<Text, Refused>,
    replies: Replies<String>,
) -> Result<Printed, Failure>
    ensures { PutsFound S.Store opened.old.desk opened.new.desk (approval_of approval.entry) replies result found }
{
    match found {
        Ok(text) => {
            let edit = approval.with_text(text.as_str());
            put_into(alloc, named, opened, &edit, replies)
        }
        Err(why) => {
            drop(replies);
            approval_refused(alloc, approval.file, why)
        }
    }
}

/// Prints why there is no text with the digest of an approval.
fn approval_refused(alloc: Global, name: &str, why: Refused) -> Result<Printed, Failure>
    ensures { IsRefused why result }
{
    let note = match why {
        Refused::NoRevision => {
            format!(in alloc;
                "exportdesk: NAME {name:?}: it has no proposal; log tells whether it was approved already\n"
            )?
        }
        _ => {
            format!(in alloc;
                "exportdesk: NAME {name:?}: its proposal is another text: look at it first (proposal)\n"
            )?
        }
    };
    refused(alloc, why, note)
}

/// Writes the lines that may be printed of an edit whose revision has this number.
fn replies_of(alloc: Global, rev: u64) -> Result<Replies<String>, AllocError>
    ensures { IfOk result (HasReplies rev) }
{
    let accepted = line_of(alloc, "accepted rev ", rev)?;
    let already = line_of(alloc, "already rev ", rev)?;
    let proposed = line_of(alloc, "proposed rev ", rev)?;
    let already_proposed = line_of(alloc, "already proposed rev ", rev)?;
    Ok(Replies {
        accepted,
        already,
        proposed,
        already_proposed,
    })
}

/// Writes a line of these words and a number.
fn line_of(alloc: Global, words: &str, rev: u64) -> Result<String, AllocError>
    ensures { IfOk result (λ line. string_bytes line ≡ line_of words.now rev) }
{
    format!(in alloc; "{words}{rev}\n")
}

/// Prints the reply to an edit of a desk, or why the desk has none.
fn reply_printed<S: Alter + Drop>(
    alloc: Global,
    named: Named<'_>,
    desk: &Desk<S, View>,
    edit: KeylessEdit<'_>,
    reply: Result<String, DeskError>,
) -> Result<Printed, Failure>
    ensures { PrintsReply reply result }
{
    match reply {
        Ok(line) => {
            let note = note_beside(alloc, desk.view(), line.as_str());
            Ok(Printed {
                status: 0,
                text: line,
                note,
            })
        }
        Err(DeskError::Refused(refusal)) => edit_refused(alloc, named.file, desk, edit, refusal),
        Err(error) => refused_by_desk(alloc, named.db, error),
    }
}

/// Says of mountd(8) what is said beside the line of an edit: of one in force how many lines it may decide otherwise,
/// and of a proposal nothing.
fn note_beside(alloc: Global, index: &View, line: &str) -> String {
    if line.starts_with("accepted rev ") || line.starts_with("already rev ") {
        counted(alloc, index)
    } else {
        String::new(alloc)
    }
}

/// Prints why an edit, whose text is that of the file of this path, is refused.
fn edit_refused<S: Alter + Drop>(
    alloc: Global,
    path: &str,
    desk: &Desk<S, View>,
    edit: KeylessEdit<'_>,
    refusal: Refusal,
) -> Result<Printed, Failure>
    ensures { IsRefused (refused.Edit refusal) result }
{
    let note = match &refusal {
        Refusal::Fault(fault) => {
            let new = NewText {
                file: edit.file,
                text: edit.text,
            };
            edit_fault_note(alloc, desk, new, fault)?
        }
        _ => refusal_note(alloc, path, edit, &refusal)?,
    };
    refused(alloc, Refused::Edit(refusal), note)
}
