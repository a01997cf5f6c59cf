//! The NFS export policy desk: it reads the exports files of FreeBSD's mountd(8) and answers who may mount which
//! directory, and on what terms. (exports(5), mountd(8))
#![tactic(auto)]

use cli::run_process;
use std::process::ExitCode;

fn main(rt: HostRuntime) -> ExitCode {
    ExitCode::from(run_process(&rt))
}
