//! A text that is printed, if standard error says nothing beside it.

ghost use Rattle.std.specs.String.{string_bytes};
ghost use Rattle.cli_texts.specs.Printing.{PrintsAlone};

use cli_output::printed::Printed;
use std::alloc::Global;

/// Prints a text in whole lines, with this exit status.
pub fn print_alone(alloc: Global, status: u8, text: String) -> Printed
    ensures { PrintsAlone status (string_bytes text) result }
{
    Printed {
        status,
        text,
        note: String::new(alloc),
    }
}
