//! Tries the worked cases of the service over HTTP.
#![tactic(auto)]

mod cases;
mod desks;
mod pieces;
mod report;
mod trials;
mod ways;

use crate::report::Report;
use std::alloc::{AllocError, Global};
use std::{fs, io};

/// Prints for each file of cases in a folder how many there are and each that differs. Tells whether every case of every file has its
/// replies, and no file is without cases.
pub fn try_folder(rt: &HostRuntime, folder: &str) -> io::Result<bool> {
    let site = read_file(rt, folder, "site")?;
    let names = file_names(rt, folder)?;
    let mut is_right = !names.is_empty();
    if names.is_empty() {
        println!(rt; "no files of cases in {folder}")?;
    }
    for name in &names {
        let text = read_file(rt, folder, name.as_str())?;
        let report = report_of(rt.alloc(), site.as_str(), text.as_str())?;
        is_right = is_right && report.is_right();
        println!(rt; "{folder}/{name}: {report}")?;
    }
    Ok(is_right)
}

/// Returns the text of a file in a folder.
fn read_file(rt: &HostRuntime, folder: &str, name: &str) -> io::Result<String> {
    let path = format!(in rt.alloc(); "{folder}/{name}")?;
    fs::read_to_string(rt, path.as_str())
}

/// Returns the names of the files of cases in a folder, in byte order.
fn file_names(rt: &HostRuntime, folder: &str) -> io::Result<Vec<String>> {
    let mut names = Vec::new(rt.alloc());
    for entry in fs::read_dir(rt, folder)? {
        add_name(rt.alloc(), &mut names, entry?.file_name())?;
    }
    names.sort_unstable();
    Ok(names)
}

/// Adds the name of a file, if it has cases.
fn add_name(alloc: Global, names: &mut Vec<String>, name: &str) -> Result<(), AllocError> {
    if name.ends_with(".cases") {
        names.push(String::from_str(alloc, name)?)?;
    }
    Ok(())
}

/// Tries the cases of a text at the site of these texts.
fn report_of(alloc: Global, site: &str, text: &str) -> Result<Report, AllocError> {
    let mut report = Report::new(alloc);
    trials::try_text(alloc, &mut report, site, text)?;
    Ok(report)
}
