//! Tries connections on loopback. Peers connect and write, and the desk serves them beside one another. Then each trial
//! compares what each peer received, what was reported, and what the desk holds.
#![tactic(auto)]

mod command;
mod copies;
mod desks;
mod peers;
mod trials;
mod turns;

use crate::trials::Trial;
use std::io;

/// Prints for each trial whether it passed, and what is wrong if it failed. Tells whether no trial failed.
pub fn try_all(rt: &HostRuntime) -> io::Result<bool> {
    let mut failed = try_trials(rt, trials::TRIALS.as_slice())?;
    failed = failed.saturating_add(try_trials(rt, trials::MORE_TRIALS.as_slice())?);
    failed = failed.saturating_add(try_turns(rt)?);
    let count = trials::TRIALS
        .len()
        .saturating_add(trials::MORE_TRIALS.len());
    let passed = count.saturating_add(turns::count()).saturating_sub(failed);
    println!(rt; "{passed} passed, {failed} failed")?;
    let wrong = command::try_command(rt)?;
    let is_served = report(rt, "the command, on 127.0.0.1 alone", wrong.as_str())?;
    let wrong = copies::try_copies(rt)?;
    let is_copied = report(
        rt,
        "copies of a database that is written meanwhile",
        wrong.as_str(),
    )?;
    Ok(is_served && is_copied && failed == 0)
}

/// Tries peers that connect and write before the desk serves them. Returns how many trials failed.
fn try_trials(rt: &HostRuntime, all: &[Trial]) -> io::Result<usize> {
    let mut failed = 0usize;
    for trial in all {
        let wrong = trials::try_one(rt, trial)?;
        if !report(rt, trial.name, wrong.as_str())? {
            failed = failed.saturating_add(1);
        }
    }
    Ok(failed)
}

/// Tries what peers do between turns. Returns how many trials failed.
fn try_turns(rt: &HostRuntime) -> io::Result<usize> {
    let mut failed = 0usize;
    for index in 0..turns::count() {
        let (name, wrong) = turns::try_turns(rt, index)?;
        if !report(rt, name, wrong)? {
            failed = failed.saturating_add(1);
        }
    }
    Ok(failed)
}

/// Prints whether a trial passed, and what is wrong if it failed. Tells whether it passed.
fn report(rt: &HostRuntime, name: &str, wrong: &str) -> io::Result<bool> {
    if wrong.is_empty() {
        println!(rt; "{name}: passed")?;
    } else {
        println!(rt; "{name}: FAILED: {wrong}")?;
    }
    Ok(wrong.is_empty())
}
