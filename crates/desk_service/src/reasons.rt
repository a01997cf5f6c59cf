//! Why a client may mount a directory, or may not.

ghost use Rattle.std.specs.Prelude.{◌≡◌, IfOk};
ghost use Rattle.std.specs.String.{string_bytes};
ghost use Rattle.desk_text.specs.Address.{number_of};
ghost use Rattle.desk_why.specs.WhyPrints.{why_text};
ghost use Rattle.desk_store.specs.Desk.{History, StandsAt};
ghost use Rattle.desk_service.specs.Questions as spec;
ghost use Rattle.desk_service.specs.Questions.{AnswersByHistory, answer_of};

use crate::questions::Answer;
use desk_policy::{PolicyView, SiteTables};
use desk_store::Desk;
use desk_text::{Addr, Path};
use desk_why::{Asked, why_text};
use sqlite::Alter;
use std::alloc::{AllocError, Global};

/// Says why a client may mount a directory, or may not. The names of lines are those that the tables in force know. This takes
/// no statement.
pub(crate) fn why_answer<'a, S: Alter + Drop, V: PolicyView + Drop>(
    alloc: Global,
    desk: &'a Desk<S, V>,
    address: Addr,
    path: &Path,
) -> Result<Answer<'a, V>, AllocError>
    ensures { (history pending : History) → StandsAt S.Store desk.now history pending
        → IfOk result (λ answer. AnswersByHistory history (spec.Why (number_of address) path.now) (answer_of V.in_force answer)) }
{
    let view = desk.view();
    let reasons = reasons(alloc, view, desk.tables(), address, path)?;
    Ok(Answer::Why(view, reasons))
}

/// Says why, by a policy and the tables that it was read with.
fn reasons<V: PolicyView>(
    alloc: Global,
    view: &V,
    tables: &SiteTables,
    address: Addr,
    path: &Path,
) -> Result<String, AllocError>
    ensures { IfOk result (λ text. string_bytes text
        ≡ why_text tables.now.netgroups tables.now.hosts (V.in_force view.now) (number_of address) path.now) }
{
    let asked = Asked {
        netgroups: &tables.netgroups,
        hosts: &tables.hosts,
        address,
        path,
    };
    why_text(alloc, view, asked)
}
