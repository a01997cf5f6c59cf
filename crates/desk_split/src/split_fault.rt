//! The fault of one of the two texts that a split takes: the exports text, and the text of the file systems.

ghost use Rattle.std.specs.Prelude.{◌≡◌, ◌++◌, ◌∷◌, IfOk, codes};
ghost use Rattle.std.specs.Fmt.{decimal};
ghost use Rattle.std.specs.String.{string_bytes};
ghost use Rattle.desk_split.specs.SplitFault.{split_fault_line};

use desk_exports::{Rule, fault_text};
use desk_tables::TableFault;
use desk_text::LineFault;
use std::alloc::{AllocError, Global};

/// The fault of one of the two texts.
#[derive(Clone, Copy)]
pub enum SplitFault {
    /// Of the text of the file systems.
    FileSystems(TableFault),
    /// Of the exports text.
    Exports(LineFault<Rule>),
}

impl SplitFault {
    /// Prints the fault as `fault filesystems line 2 rule 4 Duplicate`, or as `fault line 3 rule 1 NotAbsolute`.
    pub fn text(self, alloc: Global) -> Result<String, AllocError>
        ensures { IfOk result (λ line. string_bytes line ≡ split_fault_line self) }
    {
        match self {
            SplitFault::FileSystems(fault) => {
                table_fault_text(alloc, fault.line, fault.rule.number(), fault.rule.name())
            }
            SplitFault::Exports(fault) => fault_text(alloc, fault),
        }
    }
}

/// Prints a fault of the file systems from its parts. (Split off for its proof.)
fn table_fault_text(alloc: Global, line: u32, number: u32, name: &str) -> Result<String, AllocError>
    ensures { IfOk result (λ text. string_bytes text
        ≡ codes "fault filesystems line " ++ decimal line ++ codes " rule " ++ decimal number ++ 32 ∷ name.now) }
{
    format!(in alloc; "fault filesystems line {line} rule {number} {name}")
}
