//! The command `report`: the page of what a copy of the database holds.

ghost use Rattle.std.specs.Prelude.{◌≡◌, ◌↔◌, IsTrue};
ghost use Rattle.std.specs.List.{list_all};
ghost use Rattle.desk_core.specs.Head.{StandOnce};
ghost use Rattle.cli_words.specs.Words.{rows_in};
ghost use Rattle.cli_questions.specs.PrivateReport.{PrintsOnDesk, is_apart};
ghost use Rattle.cli_questions.specs.ReportCommand.{AnswersOn, AnswersReport};

use clap::ArgMatches;
use cli_desk::desks::open_copied_desk;
use cli_output::failure::Failure;
use cli_output::printed::Printed;
use cli_words::words::required;
use desk_core::{Head, can_be_kept};
use desk_index::Index;
use desk_service::lend_state;
use desk_store::Desk;
use page_site::page_of_state;
use sqlite::Alter;
use std::alloc::Global;

/// Answers `report DB`.
pub fn run_report(rt: &HostRuntime, words: &ArgMatches<'_>) -> Result<Printed, Failure>
    ensures { AnswersReport (rows_in words.now) result }
{
    let db = required(words, "DB")?;
    report_on_copy(rt, db)
}

/// Answers by the database at a path.
fn report_on_copy(rt: &HostRuntime, db: &str) -> Result<Printed, Failure>
    ensures { AnswersOn db.now result }
{
    match open_copied_desk(rt, db) {
        Ok(desk) => {
            let printed = print_page(rt.alloc(), db, &desk);
            drop(desk);
            printed
        }
        Err(printed) => printed,
    }
}

/// Prints the page of a desk. More than one newest revision of a file, or one that cannot be kept, which no desk has, is as if memory ran
/// out.
fn print_page<S: Alter + Drop>(
    alloc: Global,
    db: &str,
    desk: &Desk<S, Index>,
) -> Result<Printed, Failure>
    ensures { PrintsOnDesk S.Store desk.now db.now result }
{
    let state = lend_state(desk);
    if !can_be_kept(state.heads()) || !stand_once(state.heads()) {
        return Err(Failure::Memory);
    }
    match page_of_state(alloc, db, state) {
        Ok(text) => Ok(Printed {
            status: 0,
            text,
            note: String::new(alloc),
        }),
        Err(_) => Err(Failure::Memory),
    }
}

/// Tests whether no two newest revisions are of one file.
fn stand_once(heads: &[Head]) -> bool
    ensures { IsTrue result ↔ StandOnce heads.now }
{
    for (place, head) in heads.iter().enumerate() {
        if !is_first(&heads[..place], head) {
            return false;
        }
    }
    true
}

/// Tests whether no earlier newest revision is of this one's file.
fn is_first(earlier: &[Head], head: &Head) -> bool
    ensures { result ≡ list_all (is_apart head.now) earlier.now }
{
    earlier
        .iter()
        .all(|other| other.file.as_str() != head.file.as_str())
}
