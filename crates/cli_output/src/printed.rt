//! How a command ends: what it prints, and its exit status.

ghost use Rattle.std.specs.Prelude.{◌≡◌, ◌≢◌, ◌⊎◌, IfOk, OnOk};
ghost use Rattle.std.specs.Io.KnownBytes.{Appends};
ghost use Rattle.cli_output.specs.Printed as spec;
ghost use Rattle.cli_output.specs.Printed.{PrintsAtFour, PrintsFront, SaysOf, SaysSomething};
ghost use Rattle.cli_output.specs.ShownLines.{shown_lines};

use crate::failure::{Failure, Origin, message};
use crate::shown_lines::shown_lines;
use std::alloc::{AllocError, Global};
use std::io;
use std::io::{ErrorKind, Write};

/// What a command prints, in whole lines, and its exit status.
#[derive(Drop)]
pub struct Printed {
    /// The exit status, if standard output can be written.
    pub status: u8,
    /// What standard output gets.
    pub text: String,
    /// What standard error says beside it, or nothing.
    pub note: String,
}

/// How the report of an answer ends.
#[derive(Drop)]
pub struct Reported {
    /// The exit status.
    pub status: u8,
    /// That standard error has what there is to say, or why it does not have it.
    pub said: io::Result<()>,
}

/// Prints what a command answers, or why it has no answer, and gives the exit status. At the status 4 nothing else is
/// printed than the answer, or that memory ran out, or a front of one of these if the print fails. Standard error says
/// something of each failure but that memory ran out.
pub fn report<O: Write, E: Write>(
    alloc: Global,
    origin: Origin,
    answer: Result<Printed, Failure>,
    out: &mut O,
    err: &mut E,
) -> Reported
    ensures status { (result.status ≡ spec.status_of answer) ⊎ (result.status ≡ 4) }
    ensures printed { result.status ≢ 4 → Appends (O.contents out.old) (O.contents out.new) (spec.text_of answer) }
    ensures at_four { result.status ≡ 4 → PrintsAtFour answer (Appends (O.contents out.old) (O.contents out.new)) }
    ensures said { OnOk result.said (SaysOf answer result.status (Appends (E.contents err.old) (E.contents err.new))) }
{
    match answer {
        Ok(printed) => match say(alloc, printed.note.as_str(), err) {
            Ok(said) => {
                let status = print(printed.text.as_str(), printed.status, out, err);
                Reported { status, said }
            }
            Err(_) => report_memory(out, err),
        },
        Err(Failure::Memory) => report_memory(out, err),
        Err(failure) => match say_failure(alloc, origin, &failure, err) {
            Ok(said) => Reported { status: 2, said },
            Err(_) => report_memory(out, err),
        },
    }
}

/// Prints that memory ran out, of which standard error says nothing.
fn report_memory<O: Write, E: Write>(out: &mut O, err: &mut E) -> Reported
    ensures status { result.status ≡ 4 }
    ensures printed { PrintsFront spec.memory_line (Appends (O.contents out.old) (O.contents out.new)) }
    ensures said { OnOk result.said ⊥ }
{
    Reported {
        status: print_memory(out, err),
        said: Err(io::Error::from(ErrorKind::OutOfMemory)),
    }
}

/// Says why a command has no answer on standard error.
fn say_failure<E: Write>(
    alloc: Global,
    origin: Origin,
    failure: &Failure,
    err: &mut E,
) -> Result<io::Result<()>, AllocError>
    ensures { IfOk result (λ said. OnOk said (SaysSomething (Appends (E.contents err.old) (E.contents err.new)))) }
{
    let text = message(alloc, origin, failure)?;
    say(alloc, text.as_str(), err)
}

/// Says lines on standard error as they are shown, with each control character by its code; an error of the writer is
/// given in the result.
pub fn say<E: Write>(alloc: Global, lines: &str, err: &mut E) -> Result<io::Result<()>, AllocError>
    ensures { IfOk result (λ said. OnOk said (Appends (E.contents err.old) (E.contents err.new) (shown_lines lines.now))) }
{
    let shown = shown_lines(alloc, lines)?;
    Ok(write(shown.as_bytes(), err))
}

/// Prints that memory ran out, and returns the status.
pub fn print_memory<O: Write, E: Write>(out: &mut O, err: &mut E) -> u8
    ensures status { result ≡ 4 }
    ensures printed { PrintsFront spec.memory_line (Appends (O.contents out.old) (O.contents out.new)) }
{
    print("refused 203 Memory\n", 4, out, err)
}

/// Prints a text and returns the status, or says why the print failed and returns 4.
fn print<O: Write, E: Write>(text: &str, status: u8, out: &mut O, err: &mut E) -> u8
    ensures status { (result ≡ status) ⊎ (result ≡ 4) }
    ensures printed { result ≢ 4 → Appends (O.contents out.old) (O.contents out.new) text.now }
    ensures front { PrintsFront text.now (Appends (O.contents out.old) (O.contents out.new)) }
    ensures quiet { result ≢ 4 → E.contents err.new ≡ E.contents err.old }
{
    match write(text.as_bytes(), out) {
        Ok(()) => status,
        Err(error) => {
            let _ = writeln!(err, "exportdesk: standard output: {error}");
            4
        }
    }
}

/// Writes a text and flushes the writer; if that fails, a front of the text is written.
fn write<O: Write>(text: &[u8], out: &mut O) -> io::Result<()>
    ensures whole { OnOk result (Appends (O.contents out.old) (O.contents out.new) text.now) }
    ensures front { PrintsFront text.now (Appends (O.contents out.old) (O.contents out.new)) }
{
    let mut rest = text;
    for _ in 0..u64::MAX {
        if rest.is_empty() {
            return out.flush();
        }
        match out.write(rest) {
            Ok(0) => return Err(io::Error::from(ErrorKind::WriteZero)),
            Ok(count) => rest = &rest[count..],
            Err(error) => {
                if error.kind() != ErrorKind::Interrupted {
                    return Err(error);
                }
            }
        }
    }
    Err(io::Error::from(ErrorKind::Interrupted))
}
