//! Files of commands, which read like a terminal:
//!
//! ```text
//! $ exportdesk try - 10.0.0.6 /usr/local /usr <<END
//! /usr /usr/local -ro 10.0.0.5
//! END
//! denied 2 NoLine /usr
//! [1]
//! ```
//!
//! A block is a command behind `$` and a blank (`terminal`, `tools`, `holders`), its standard input up to a line `END` if
//! its line ends in ` <<END`, what it prints on standard output, what it prints on standard error with `!` and a blank
//! before each line (`!` alone before an empty one), and in brackets its exit status. A carriage return in what it prints
//! is written `\r`. Between blocks empty lines and those that begin with `#` are skipped.

use crate::report::Report;
use crate::{holders, terminal, tools};
use desk_cases_texts::answers::Asked;
use std::alloc::AllocError;

/// Tries the commands of a text.
pub fn report_of(rt: &HostRuntime, text: &str) -> Result<Report, AllocError> {
    let mut report = Report::new(rt.alloc());
    let mut block = String::new(rt.alloc());
    for (index, line) in text.lines().enumerate() {
        if !block.is_empty() {
            add_line(rt, &mut report, &mut block, line)?;
        } else if !line.is_empty() && !line.starts_with('#') {
            report.begin_case(index);
            add_line(rt, &mut report, &mut block, line)?;
        }
    }
    if !block.is_empty() {
        report.add_difference(block.as_str(), "has no status")?;
    }
    Ok(report)
}

/// Adds a line to a block, which it ends if it is a status.
fn add_line(
    rt: &HostRuntime,
    report: &mut Report,
    block: &mut String,
    line: &str,
) -> Result<(), AllocError> {
    block.push_str(line)?;
    block.push('\n')?;
    if is_status(line) {
        try_block(rt, report, block.as_str())?;
        block.clear();
    }
    Ok(())
}

/// Tests whether a line is a status in brackets.
fn is_status(line: &str) -> bool {
    let Some(line) = line.strip_prefix('[') else {
        return false;
    };
    match line.strip_suffix(']') {
        Some(number) => number.parse::<u8>().is_ok(),
        None => false,
    }
}

/// Tries a block, from its command to its status.
fn try_block(rt: &HostRuntime, report: &mut Report, block: &str) -> Result<(), AllocError> {
    let (line, below) = block.split_once('\n').unwrap_or((block, ""));
    let (input, wanted) = if line.ends_with(terminal::HERE) {
        below.split_once("\nEND\n").unwrap_or((below, ""))
    } else {
        ("", below)
    };
    let mut found = String::new(rt.alloc());
    if !run(rt, &mut found, line, input)? {
        return report.add_difference(line, "is not a command that can be run");
    }
    if found.as_str() == wanted {
        return Ok(());
    }
    report.add_difference(line, found.as_str())
}

/// Runs the command of a block, and adds what it prints and its status. Tells whether it is a command.
fn run(rt: &HostRuntime, shown: &mut String, line: &str, input: &str) -> Asked {
    let Some(command) = line.strip_prefix("$ ") else {
        return Ok(false);
    };
    Ok(
        terminal::run(rt, shown, command, input)?
            || tools::run(rt, shown, command)?
            || holders::run(rt, shown, command)?,
    )
}
