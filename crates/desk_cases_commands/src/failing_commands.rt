//! Commands at readers and writers that fail.

use crate::failing::{Broken, Closed, Leaking};
use cli::{print_memory, run};
use std::alloc::{AllocError, Global};
use std::{io, str};

/// What fails while a command runs.
#[derive(Clone, Copy)]
enum Failing {
    /// The input, once it has given these bytes.
    Input(&'static [u8]),
    /// Each print.
    Print,
    /// What was printed, as it is flushed.
    Flush,
}

/// A command, what fails, and the exit status that is wanted, with the message behind a bar.
#[derive(Clone, Copy)]
struct Case {
    name: &'static str,
    words: &'static [&'static str],
    failing: Failing,
    wanted: &'static str,
}

const EXPORTS: &[u8] = b"/usr 10.0.0.5\n";

const TRY: &[&str] = &["try", "-", "10.0.0.5", "/usr", "/usr"];

const NOT_PRINTED: &str = "4 |exportdesk: standard output: broken pipe\n";

const CASES: [Case; 6] = [
    Case {
        name: "a file that fails",
        words: TRY,
        failing: Failing::Input(EXPORTS),
        wanted: "2 |exportdesk: FILE \"-\": timed out\n",
    },
    Case {
        name: "a first line that fails",
        words: &[],
        failing: Failing::Input(b"try - 10.0.0.5 /usr /usr"),
        wanted: "2 |exportdesk: the first line of standard input: timed out\n",
    },
    Case {
        name: "a rest that fails",
        words: &[],
        failing: Failing::Input(b"try - 10.0.0.5 /usr /usr\n/usr 10.0.0.5\n"),
        wanted: "2 |exportdesk: FILE \"-\": timed out\n",
    },
    Case {
        name: "a print that fails",
        words: TRY,
        failing: Failing::Print,
        wanted: NOT_PRINTED,
    },
    Case {
        name: "a flush that fails",
        words: TRY,
        failing: Failing::Flush,
        wanted: NOT_PRINTED,
    },
    Case {
        name: "help that is not printed",
        words: &["--help"],
        failing: Failing::Print,
        wanted: NOT_PRINTED,
    },
];

/// Prints for each case whether it passed, and what is wrong if it failed. Returns whether no case failed.
pub fn try_all(rt: &HostRuntime) -> io::Result<bool> {
    let mut passes = true;
    for case in &CASES {
        let wrong = try_case(rt, case)?;
        passes = report(rt, case.name, wrong.as_str())? && passes;
    }
    let wrong = try_print_memory(rt.alloc())?;
    Ok(report(rt, "a refusal that is not printed", wrong.as_str())? && passes)
}

/// Prints what came of a case. Returns whether it passed: whether nothing is wrong.
fn report(rt: &HostRuntime, name: &str, wrong: &str) -> io::Result<bool> {
    if wrong.is_empty() {
        println!(rt; "{name}: passed")?;
    } else {
        println!(rt; "{name}: FAILED: {wrong}")?;
    }
    Ok(wrong.is_empty())
}

/// Runs the command of a case. Returns what is wrong.
fn try_case(rt: &HostRuntime, case: &Case) -> Result<String, AllocError> {
    let mut out = Vec::new(rt.alloc());
    let mut err = Vec::new(rt.alloc());
    let mut whole = EXPORTS;
    let status = match case.failing {
        Failing::Input(given) => {
            let mut input = Broken { rest: given };
            run(rt, case.words, &mut input, &mut out, &mut err)
        }
        Failing::Print => run(rt, case.words, &mut whole, &mut Closed, &mut err),
        Failing::Flush => run(rt, case.words, &mut whole, &mut Leaking, &mut err),
    };
    compare(
        rt.alloc(),
        status,
        out.as_slice(),
        err.as_slice(),
        case.wanted,
    )
}

/// Prints to a writer that fails that memory ran out. Returns what is wrong.
fn try_print_memory(alloc: Global) -> Result<String, AllocError> {
    let mut err = Vec::new(alloc);
    let status = print_memory(&mut Closed, &mut err);
    compare(alloc, status, &[], err.as_slice(), NOT_PRINTED)
}

/// Compares an exit status and what was printed with what is wanted: the status, and behind a bar the message. Returns what
/// differs.
fn compare(
    alloc: Global,
    status: u8,
    out: &[u8],
    err: &[u8],
    wanted: &str,
) -> Result<String, AllocError> {
    let mut found = format!(in alloc; "{status} ")?;
    for printed in [out, b"|", err] {
        found.push_str(str::from_utf8(printed).unwrap_or("not UTF-8"))?;
    }
    if found.as_str() == wanted {
        found.clear();
    }
    Ok(found)
}
