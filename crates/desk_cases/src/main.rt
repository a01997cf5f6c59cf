//! Tries all worked cases.
#![tactic(auto)]

use std::io;
use std::process::ExitCode;

/// Prints what came of the worked cases in `data/`, of those on reports in `data/report/` and over HTTP in `data/http/`, and of the
/// trials at failing ends and on loopback. The exit status is 0 if none differs and none failed.
fn main(rt: HostRuntime) -> io::Result<ExitCode> {
    let mut is_right = desk_cases_commands::try_all(&rt)?;
    is_right = desk_cases_report::try_folder(&rt, "report")? && is_right;
    is_right = desk_cases_http::try_folder(&rt, "http")? && is_right;
    is_right = desk_cases_failing::try_all(&rt)? && is_right;
    is_right = desk_cases_serve::try_all(&rt)? && is_right;
    Ok(if is_right {
        ExitCode::SUCCESS
    } else {
        ExitCode::FAILURE
    })
}
