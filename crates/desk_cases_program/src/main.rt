//! Tries the program by itself: the words of a process, one of them long, and an exit status that is not 0.
#![tactic(auto)]

use cli::run_process;
use std::process::ExitCode;

fn main(rt: HostRuntime) -> ExitCode {
    ExitCode::from(run_process(&rt))
}
