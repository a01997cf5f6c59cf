//! The command `lists`: what a client may mount, by an exports text.

ghost use Rattle.std.specs.Prelude.{◌≡◌, IfOk};
ghost use Rattle.std.specs.String.{string_bytes};
ghost use Rattle.desk_text.specs.Address.{number_of};
ghost use Rattle.desk_text.specs.Lines.{IsReadable};
ghost use Rattle.desk_policy.specs.ListingPrints.{listing_text};
ghost use Rattle.desk_policy.specs.Listings.{listing_of};
ghost use Rattle.desk_findings.specs.CheckFaults.{AreReadable};
ghost use Rattle.cli_words.specs.Words.{rows_in};
ghost use Rattle.cli_texts.specs.ListsCommand.{AnswersHost, AnswersLists, AnswersSubject, PrintsListing, ReadsHost};
ghost use Rattle.cli_texts.specs.WholeTables.{GivesOrFault, policy_of};

use crate::View;
use crate::faulty_texts::answer_error;
use crate::printing::print_alone;
use crate::whole_tables::view_of;
use clap::ArgMatches;
use cli_output::failure::Failure;
use cli_output::printed::Printed;
use cli_sources::subject::{Places, Subject, subject_of, word_of};
use cli_sources::whole_question::{WholeQuestion, answer_whole};
use cli_words::values::read_host;
use desk_findings::{WholeSources, read_sources};
use desk_policy::{PolicyView, SiteFault, listing, listing_text};
use desk_tables::FileSystems;
use desk_text::{Addr, ReadError};
use std::alloc::{AllocError, Global};
use std::io::BufRead;

/// The names of the words: `lists FILE HOST MOUNT...`, or with `--site` just HOST.
const PLACES: Places = Places {
    first: "FILE",
    last: "HOST",
    beside: "FILE or MOUNT",
};

/// Answers `lists FILE HOST MOUNT...`, or `lists --site DIR HOST`, with its options. The arguments are parsed from left to right, and
/// then the files are read.
pub fn run_lists<I: BufRead>(
    rt: &HostRuntime,
    words: &ArgMatches<'_>,
    input: &mut I,
) -> Result<Printed, Failure>
    ensures { AnswersLists (rows_in words.now) (I.remaining input.old) result }
{
    let subject = subject_of(rt.alloc(), words, PLACES)?;
    answer_subject(rt, words, &subject, input)
}

/// Answers by what is asked of.
fn answer_subject<'w, I: BufRead>(
    rt: &HostRuntime,
    words: &ArgMatches<'w>,
    subject: &Subject<'w>,
    input: &mut I,
) -> Result<Printed, Failure>
    ensures { AnswersSubject (rows_in words.now) (I.remaining input.old) subject.now result }
{
    let question = ListsQuestion {
        address: host_of(rt.alloc(), words, subject)?,
    };
    answer_whole(rt, false, words, subject, &question, input)
}

/// What a client may mount.
#[derive(Clone, Copy)]
struct ListsQuestion {
    address: Addr,
}

impl WholeQuestion for ListsQuestion {
    ghost Answers = { λ question. AnswersHost (number_of question.address) };

    fn answer(
        &self,
        alloc: Global,
        filesystems: &FileSystems,
        sources: WholeSources<'_>,
    ) -> Result<Printed, Failure> {
        match print_listing(alloc, self.address, filesystems, sources) {
            Ok(printed) => Ok(printed),
            Err(error) => answer_error(alloc, false, sources, filesystems, error),
        }
    }
}

/// Parses the word HOST.
fn host_of(alloc: Global, words: &ArgMatches<'_>, subject: &Subject<'_>) -> Result<Addr, Failure>
    ensures { ReadsHost subject.now (rows_in words.now) result }
{
    let host = word_of(words, subject, "FILE", "HOST")?;
    read_host(alloc, host)
}

/// Prints what a client may mount by these texts.
fn print_listing(
    alloc: Global,
    address: Addr,
    filesystems: &FileSystems,
    sources: WholeSources<'_>,
) -> Result<Printed, ReadError<SiteFault>>
    requires tables { AreReadable sources.tables }
    requires exports { IsReadable sources.exports.text.now }
    ensures { let read = policy_of sources.entry filesystems.now in GivesOrFault (PrintsListing read (number_of address)) read result }
{
    let tables = read_sources(alloc, sources.tables)?;
    let view = view_of(alloc, sources, &tables, filesystems)?;
    let text = listed_text(alloc, &view, address)?;
    Ok(print_alone(alloc, 0, text))
}

/// Writes what a client may mount.
fn listed_text(alloc: Global, view: &View, address: Addr) -> Result<String, AllocError>
    ensures { let policy = view.now in IfOk result (λ text. string_bytes text ≡ listing_text policy (listing_of policy (number_of address))) }
{
    let shown = listing(alloc, view, address)?;
    listing_text(alloc, view.policy(), shown.as_slice())
}
