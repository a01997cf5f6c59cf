//! Refusals as they are printed.

use crate::edit::{Refusal, RefusalRow};
use std::fmt;

/// The refusal by its number and name, as `refused 4 NotCustodian`, with the newest revision if the base is stale, as
/// `refused 7 Stale 2`. The site's fault is printed alone, as `fault exports:/a line 2 rule 26 Contradiction line 1 address
/// 10.0.0.5`.
impl fmt::Display for Refusal {
    ghost use Rattle.std.specs.Prelude.{Some};
    ghost use Rattle.desk_core.specs.Prints.{refusal_line};

    ghost output = { λ refused. Some (refusal_line refused) };

    fn fmt<W: fmt::Write>(&self, f: &mut fmt::Formatter<W>) -> fmt::Result {
        let RefusalRow { number, name } = self.row();
        match self {
            Refusal::Stale(newest) => write!(f, "refused {number} {name} {newest}"),
            Refusal::Fault(fault) => write!(f, "{fault}"),
            _ => write!(f, "refused {number} {name}"),
        }
    }
}
