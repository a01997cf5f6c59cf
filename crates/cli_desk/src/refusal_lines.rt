//! Why a command on a database is refused: the fixed line, and the exit status.

ghost use Rattle.std.specs.Prelude.{◌≡◌, IfOk};
ghost use Rattle.std.specs.String.{string_bytes};
ghost use Rattle.cli_desk.specs.RefusalLines as spec;

use cli_output::failure::Failure;
use cli_output::printed::Printed;
use desk_core::Refusal;
use desk_service::Refused;
use std::alloc::{AllocError, Global};

/// Prints a refusal. Standard error says this beside it.
pub fn refused(alloc: Global, why: Refused, note: String) -> Result<Printed, Failure>
    ensures { spec.IsRefused why result }
{
    let status = refused_status(&why);
    match refused_line(alloc, &why) {
        Ok(text) => Ok(Printed { status, text, note }),
        Err(_) => Err(Failure::Memory),
    }
}

/// Returns the exit status of a refusal: 3 for the fault of a site, 4 for what the desk could not do, else 1.
pub fn refused_status(why: &Refused) -> u8
    ensures { result ≡ spec.refused_status why.now }
{
    match why {
        Refused::Edit(Refusal::Fault(_)) => 3,
        Refused::Edit(_) | Refused::NoRevision | Refused::OtherProposal => 1,
        Refused::Store | Refused::Schema | Refused::Memory => 4,
    }
}

/// Writes the fixed line of a refusal, with its line end.
fn refused_line(alloc: Global, why: &Refused) -> Result<String, AllocError>
    ensures { IfOk result (λ text. string_bytes text ≡ spec.refused_line why.now) }
{
    match why {
        Refused::Edit(refusal) => format!(in alloc; "{refusal}\n"),
        other => numbered_line(alloc, other.number(), other.name()),
    }
}

/// Writes the line of a number and a name.
fn numbered_line(alloc: Global, number: u32, name: &str) -> Result<String, AllocError>
    ensures { IfOk result (λ text. string_bytes text ≡ spec.numbered_line number name.now) }
{
    format!(in alloc; "refused {number} {name}\n")
}

/// Writes the line of a refusal for the text of a file.
pub fn filed_line(alloc: Global, refusal: &Refusal, file: &str) -> Result<String, AllocError>
    ensures { IfOk result (λ text. string_bytes text ≡ spec.filed_line refusal.now file.now) }
{
    format!(in alloc; "{refusal} {file}\n")
}
