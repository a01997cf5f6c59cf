//! Tries the worked cases of the libraries and of the commands.
#![tactic(auto)]

mod cases;
mod commands;
mod failing;
mod failing_commands;
mod holders;
mod report;
mod terminal;
mod tools;

use crate::report::Report;
use std::alloc::{AllocError, Global};
use std::{fs, io};

/// Prints for each file of cases how many there are and each that differs, and then what came of the commands at readers and
/// writers that fail. Tells whether every case of every file has its answer, no file is without cases, and those commands pass.
pub fn try_all(rt: &HostRuntime) -> io::Result<bool> {
    let names = file_names(rt)?;
    let mut is_right = !names.is_empty();
    if names.is_empty() {
        println!(rt; "no files of cases")?;
    }
    for name in &names {
        let report = report_of(rt, name.as_str())?;
        is_right = is_right && report.is_right();
        println!(rt; "{name}: {report}")?;
    }
    Ok(failing_commands::try_all(rt)? && is_right)
}

/// Returns the names of the files of cases where the program runs, in byte order.
fn file_names(rt: &HostRuntime) -> io::Result<Vec<String>> {
    let mut names = Vec::new(rt.alloc());
    for entry in fs::read_dir(rt, ".")? {
        add_name(rt.alloc(), &mut names, entry?.file_name())?;
    }
    names.sort_unstable();
    Ok(names)
}

/// Adds the name of a file, if it has cases.
fn add_name(alloc: Global, names: &mut Vec<String>, name: &str) -> Result<(), AllocError> {
    if name.ends_with(".cases") || name.ends_with(".commands") {
        names.push(String::from_str(alloc, name)?)?;
    }
    Ok(())
}

/// Returns what came of the file with this name.
fn report_of(rt: &HostRuntime, name: &str) -> Result<Report, AllocError> {
    match fs::read_to_string(rt, name) {
        Ok(text) => report_on(rt, name, text.as_str()),
        Err(error) => Report::unread(rt.alloc(), &error),
    }
}

/// Returns what came of the file with this name and this text.
fn report_on(rt: &HostRuntime, name: &str, text: &str) -> Result<Report, AllocError> {
    if name.ends_with(".commands") {
        commands::report_of(rt, text)
    } else {
        cases::report_of(rt.alloc(), text)
    }
}
