//! What is printed of a text of expectations that has faults.

ghost use Rattle.std.specs.Prelude.{◌≡◌, IfOk, map};
ghost use Rattle.std.specs.List.{All};
ghost use Rattle.std.specs.String.{string_bytes};
ghost use Rattle.desk_text.specs.Place.{LiesIn};
ghost use Rattle.cli_expectations.specs.PrivateFaultPrints.{LiesAmong, refused_among};
ghost use Rattle.cli_expectations.specs.RefusedText.{PrintsFaults};

use crate::expectations_file::ReportForm;
use crate::fault_prints::{fault_text, findings_text};
use crate::faults_log::faults_log;
use cli_output::printed::Printed;
use desk_expect::{PlacedFault, Rule};
use desk_findings::lines_of;
use desk_text::LineFault;
use std::alloc::{AllocError, Global};

/// Prints the fault with which a text of expectations is refused, or as a log these faults of the text, with the status 3. Standard error
/// shows these faults.
pub fn print_faults(
    alloc: Global,
    form: ReportForm,
    path: &str,
    text: &str,
    fault: LineFault<Rule>,
    found: &[PlacedFault],
) -> Result<Printed, AllocError>
    requires { All (λ placed. LiesIn text.now placed.place) found.now }
    ensures { IfOk result (PrintsFaults form path.now text.now fault found.now) }
{
    let lines = lines_of(alloc, text)?;
    let note = findings_text(alloc, path, lines.as_slice(), found)?;
    let text = refused_text(alloc, form, path, lines.as_slice(), fault, found)?;
    Ok(Printed {
        status: 3,
        text,
        note,
    })
}

/// Writes the fault with which a text of these lines is refused, or as a log these faults of it.
fn refused_text(
    alloc: Global,
    form: ReportForm,
    path: &str,
    lines: &[&str],
    fault: LineFault<Rule>,
    found: &[PlacedFault],
) -> Result<String, AllocError>
    requires { All (LiesAmong (map (λ line. line.now) lines.now)) found.now }
    ensures { IfOk result (λ text. string_bytes text ≡ refused_among form path.now (map (λ line. line.now) lines.now) fault found.now) }
{
    match form {
        ReportForm::Text | ReportForm::Json => fault_text(alloc, fault),
        ReportForm::Sarif => faults_log(alloc, path, lines, found),
    }
}
