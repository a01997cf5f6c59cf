//! By which rule a verdict is asked for, and whether with its reasons.

ghost use Rattle.std.specs.Prelude.{◌≡◌};
ghost use Rattle.cli_verdict.specs.Asking.{asking_by, asking_in};
ghost use Rattle.cli_words.specs.Words.{rows_in};

use clap::ArgMatches;
use cli_output::failure::Failure;
use cli_words::words::is_set;

/// What is asked of a verdict.
#[derive(Clone, Copy)]
pub enum Asking {
    /// The verdict by the rule of this desk.
    Verdict,
    /// The same, and why it is so.
    Reasons,
    /// The verdict by the rule of mountd(8).
    Server,
}

/// Reads what the options `--why` and `--mountd` ask for. One of them alone can be given.
pub fn read_asking(words: &ArgMatches<'_>) -> Result<Asking, Failure>
    ensures { result ≡ asking_in (rows_in words.now) }
{
    asking_by(is_set(words, "why"), is_set(words, "mountd"))
}

/// Gives what is asked for, by which of the two options are given.
fn asking_by(why: bool, mountd: bool) -> Result<Asking, Failure>
    ensures { result ≡ asking_by why mountd }
{
    match (why, mountd) {
        (false, false) => Ok(Asking::Verdict),
        (true, false) => Ok(Asking::Reasons),
        (false, true) => Ok(Asking::Server),
        (true, true) => Err(Failure::BesideWhy),
    }
}
