//! Tries desks on files that fail, requests over HTTP to such desks, and connections whose reader or writer fails, ends
//! after each byte, or has no end.
#![tactic(auto)]

mod connections;
mod desks;
mod full;
mod made;
mod requests;
mod sample;
mod stories;
mod trials;

use std::io;

/// What came of the cases.
#[derive(Drop)]
struct Tally {
    passed: u64,
    failed: u64,
}

/// Prints for each case whether it passed, and what is wrong if it failed. Tells whether no case failed.
pub fn try_all(rt: &HostRuntime) -> io::Result<bool> {
    let mut tally = Tally {
        passed: 0,
        failed: 0,
    };
    for story in [&stories::PLAIN, &stories::SECONDED, &stories::MIGRATED] {
        try_story(rt, &mut tally, story)?;
    }
    for trial in &trials::TRIALS {
        let wrong = requests::try_all(rt.alloc(), trial)?;
        let name = trial.name;
        let name = format!(in rt.alloc(); "requests, and {name}")?;
        report(rt, &mut tally, name.as_str(), wrong.as_str())?;
    }
    for trial in &connections::TRIALS {
        let wrong = connections::try_all(rt.alloc(), trial)?;
        report(rt, &mut tally, trial.name, wrong.as_str())?;
    }
    let (passed, failed) = (tally.passed, tally.failed);
    println!(rt; "{passed} passed, {failed} failed")?;
    Ok(failed == 0)
}

/// Tries a story with each way in which its files fail.
fn try_story(rt: &HostRuntime, tally: &mut Tally, story: &stories::Story) -> io::Result<()> {
    for trial in &trials::TRIALS {
        let wrong = trials::try_all(rt.alloc(), trial, story)?;
        let (first, second) = (story.name, trial.name);
        let name = format!(in rt.alloc(); "{first}{second}")?;
        report(rt, tally, name.as_str(), wrong.as_str())?;
    }
    Ok(())
}

/// Prints and counts what came of a case, which passed if nothing is wrong.
fn report(rt: &HostRuntime, tally: &mut Tally, name: &str, wrong: &str) -> io::Result<()> {
    if wrong.is_empty() {
        tally.passed = tally.passed.saturating_add(1);
        println!(rt; "{name}: passed")
    } else {
        tally.failed = tally.failed.saturating_add(1);
        println!(rt; "{name}: FAILED: {wrong}")
    }
}
