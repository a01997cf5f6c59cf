//! A question on the database at a path: a copy of it is asked, and the answer is printed.

ghost use Rattle.sqlite.specs.Files.{over_files};
ghost use Rattle.desk_service.specs.Questions.{IsReady, question_of};
ghost use Rattle.cli_questions.specs.PrivateAnswering.{AnswersOnDesk, AnswersWith, FindsByHistory, HasHistory};
ghost use Rattle.cli_questions.specs.Questions.{AnswersQuestion, asked_of};

use crate::printing::print_answer;
use cli_desk::desks::{CopiedDesk, open_copied_desk};
use cli_desk::refusal_notes::refused_by_copy;
use cli_expectations::expectations_file::ExpectationsFile;
use cli_output::failure::Failure;
use cli_output::printed::Printed;
use cli_verdict::MountQuestion;
use desk_service::{Looked, Question, answer, look_up};
use desk_text::Path;
use std::alloc::Global;

/// How the answer to a question is printed, with what that needs. An answer that a printer is not for is printed
/// plainly.
#[derive(Clone, Copy)]
pub enum Printer<'a> {
    /// As it is; of a site, all its exports.
    Plain,
    /// All exports, with their terms.
    Terms,
    /// What would change, with the changes that matter to no client, too, if this is set. The word names the file of
    /// the text that is foreseen, unless that is a proposal.
    Changes(Option<&'a str>, bool),
    /// Which of these expectations a site breaks. The word names the file of the text that is foreseen, if there is
    /// one.
    Breaches(Option<&'a str>, ExpectationsFile<'a>),
    /// Whether a client may mount a directory of a site.
    Mounts(MountQuestion<'a>),
    /// Who may mount a directory of a site, by the rule of mountd(8) if this is set.
    Ranges(&'a Path, bool),
}

/// A question, and how its answer is printed.
#[derive(Clone, Copy)]
pub struct Asked<'a> {
    pub question: Question<'a>,
    pub printer: Printer<'a>,
    /// Whether the answer is printed as one object of JSON. (A printer with expectations has a form of its own.)
    pub json: bool,
}

/// Answers a question by the database at a path.
pub fn answer_question(rt: &HostRuntime, db: &str, asked: Asked<'_>) -> Result<Printed, Failure>
    ensures { AnswersQuestion db.now (asked_of asked.entry) result }
{
    match open_copied_desk(rt, db) {
        Ok(mut desk) => {
            let printed = answer_copied_desk(rt.alloc(), db, &mut desk, asked);
            drop(desk);
            printed
        }
        Err(printed) => printed,
    }
}

/// Answers a question by a desk on a copy: first the statements that it takes are made, and then it is answered by what
/// they found. An error of the copy's disk is reported as out of memory.
fn answer_copied_desk(
    alloc: Global,
    db: &str,
    desk: &mut CopiedDesk,
    asked: Asked<'_>,
) -> Result<Printed, Failure>
    requires { HasHistory over_files desk.old }
    ensures { AnswersOnDesk over_files desk.old (asked_of asked.entry) result }
{
    match look_up(alloc, desk, asked.question) {
        Ok(looked) => answer_looked_up(alloc, desk, asked, looked),
        Err(error) => refused_by_copy(alloc, db, error),
    }
}

/// Answers a question by a desk, and by what the statements that it takes have found.
fn answer_looked_up(
    alloc: Global,
    desk: &CopiedDesk,
    asked: Asked<'_>,
    looked: Looked,
) -> Result<Printed, Failure>
    requires ready { IsReady (question_of asked.question) looked }
    requires found { FindsByHistory over_files desk.now (question_of asked.question) looked }
    ensures { AnswersWith over_files desk.now (asked_of asked.entry) looked result }
{
    match answer(alloc, desk, asked.question, looked) {
        Ok(answer) => print_answer(alloc, desk, asked, answer),
        Err(_) => Err(Failure::Memory),
    }
}
