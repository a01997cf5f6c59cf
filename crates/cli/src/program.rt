//! The command of a process: its words, standard input and what it prints.

ghost use Rattle.std.specs.Prelude.{◌≡◌, ◌⊎◌, IfSome, drop};
ghost use Rattle.std.specs.Io.KnownBytes.{Appends};
ghost use Rattle.cli_output.specs.Printed.{PrintsFront, memory_line};
ghost use Rattle.cli.specs.Commands.{Runs};

use crate::words::{Arguments, program_words};
use crate::{print_memory, run};
use std::io::{BufRead, IsTerminal, Lock, Write};

/// Runs the command of this process, and returns the exit status.
pub fn run_process(rt: &HostRuntime) -> u8 {
    run_arguments(
        rt,
        rt,
        &mut rt.stdin().lock(),
        &mut rt.stdout(),
        &mut rt.stderr(),
    )
}

/// Runs the command whose words these arguments have, behind the program's name, and returns the exit status.
fn run_arguments<A, I, O, E>(
    rt: &HostRuntime,
    arguments: &A,
    input: &mut I,
    out: &mut O,
    err: &mut E,
) -> u8
where
    A: Arguments,
    I: BufRead + IsTerminal,
    O: Write,
    E: Write,
    ensures { IfSome (A.arguments arguments.now) (λ all. ((result ≡ 4) × PrintsFront memory_line (Appends (O.contents out.old) (O.contents out.new)))
        ⊎ Runs (drop 1 all) (I.Read.remaining input.old) result (Appends (O.contents out.old) (O.contents out.new))) }
{
    let Ok(words) = program_words(rt.alloc(), arguments) else {
        return print_memory(out, err);
    };
    if words.is_empty() && input.is_terminal() {
        let _ = writeln!(
            err,
            "exportdesk: waiting for the words of a command on standard input"
        );
    }
    run(rt, words.as_slice(), input, out, err)
}
