//! The commands of the program: from words and input to what is printed and an exit status.
//!
//! ```
//! // `try FILE HOST DIR MOUNT...`, with FILE as the rest of the input:
//! let mut input = b"/usr 10.0.0.5\n".as_slice();
//! let words = ["try", "-", "10.0.0.5", "/usr", "/usr"];
//! run(&rt, words.as_slice(), &mut input, &mut out, &mut err) // 0: the mount is granted
//! ```
#![tactic(auto)]

mod commands;
mod laws;
mod program;
mod words;

ghost use Rattle.std.specs.Prelude.{◌≡◌, ◌≢◌, ◌⊎◌, map};
ghost use Rattle.std.specs.Io.KnownBytes.{Appends};
ghost use Rattle.cli_output.specs.Printed.{PrintsAtFour, status_of, text_of};
ghost use Rattle.cli.specs.Commands.{Runs};

use crate::commands::{run_first_line, run_words};
pub use crate::laws::four_is_refused;
pub use crate::program::run_process;
use cli_output::failure::{Failure, Origin};
pub use cli_output::printed::print_memory;
use cli_output::printed::{Printed, report};
use cli_serve::serve_command::Service;
use std::convert::AsSlice;
use std::io::{BufRead, Write};

/// Runs one command and returns the exit status. Without words, the first line of the input gives them,
/// and the file `-` is the rest. What the command answers goes to `out`; what is wrong with the words,
/// with a file that they name, or with a print, goes to `err`.
pub fn run<S, I, O, E>(rt: &HostRuntime, words: &[S], input: &mut I, out: &mut O, err: &mut E) -> u8
where
    S: AsSlice<u8>,
    I: BufRead,
    O: Write,
    E: Write,
    ensures { Runs (map S.items words.now) (I.remaining input.old) result (Appends (O.contents out.old) (O.contents out.new)) }
{
    let mut service = None;
    if words.is_empty() {
        let answer = run_first_line(rt, input, &mut service);
        finish(rt, Origin::FirstLine, answer, service, out, err)
    } else {
        let answer = run_words(rt, words, input, &mut service);
        finish(rt, Origin::Arguments, answer, service, out, err)
    }
}

/// Reports what a command answers, and then runs its service, if it has one; but not if its line could not be printed.
fn finish<O: Write, E: Write>(
    rt: &HostRuntime,
    origin: Origin,
    answer: Result<Printed, Failure>,
    service: Option<Service>,
    out: &mut O,
    err: &mut E,
) -> u8
    ensures status { (result ≡ status_of answer) ⊎ (result ≡ 4) }
    ensures printed { result ≢ 4 → Appends (O.contents out.old) (O.contents out.new) (text_of answer) }
    ensures at_four { result ≡ 4 → PrintsAtFour answer (Appends (O.contents out.old) (O.contents out.new)) }
{
    let reported = report(rt.alloc(), origin, answer, out, err);
    if let Some(service) = service {
        if !end(rt, service, reported.status == 0, err) {
            return 4;
        }
    }
    reported.status
}

/// Runs a service, if its line is printed, and ends it. Tells whether it served all that it was to serve.
fn end<E: Write>(rt: &HostRuntime, mut service: Service, is_printed: bool, err: &mut E) -> bool {
    let mut has_served = true;
    if is_printed {
        has_served = service.run(rt, err);
    }
    service.close(rt);
    has_served
}
