//! Faults of an exports text, and of the tables with which it is read, as they are printed.

ghost use Rattle.std.specs.Prelude.{◌≡◌, IfOk};
ghost use Rattle.std.specs.String.{string_bytes};
ghost use Rattle.cli_texts.specs.FaultLine.{fault_line};

use desk_origins::Origin;
use desk_policy::{FaultPlace, SiteFault, SiteRule};
use std::alloc::{AllocError, Global};

/// Prints a fault of the exports text as `fault line 3 rule 14 NetAndHost`, without a line end, and one of a table with the
/// table's name, as `fault hosts line 3 rule 2 Number`. After its rule a contradiction has the earlier line and the address,
/// as `fault line 2 rule 26 Contradiction line 1 address 10.0.0.5`. If several texts are read as one, lines are named by them.
pub fn fault_text(
    alloc: Global,
    origins: &[Origin],
    fault: &SiteFault,
) -> Result<String, AllocError>
    ensures { IfOk result (λ text. string_bytes text ≡ fault_line origins.now fault.now) }
{
    match fault.rule {
        SiteRule::Table(_) | SiteRule::Group(_) => format!(in alloc; "{fault}"),
        SiteRule::Line(_) | SiteRule::Contradiction => {
            let place = FaultPlace { fault, origins };
            format!(in alloc; "fault {place}")
        }
    }
}
