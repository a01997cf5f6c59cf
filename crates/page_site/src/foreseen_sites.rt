//! What would be in force with each proposal of a state.

ghost use Rattle.std.specs.Prelude.{◌≡◌, ◌≤◌, IfOk, OnOk, Some, length, map};
ghost use Rattle.desk_policy.specs.SiteFile.{exports_place};
ghost use Rattle.desk_core.specs.Head.{longest_revision, newest_in};
ghost use Rattle.page_site.specs.WaitingProposals.{IsOutcomeOf, outcome_value, waiting_value};
ghost use Rattle.page_site.specs.PrivateForeseenSites.{AreForeseen, GainsForeseen};

use crate::waiting_proposals::{Outcome, Waiting};
use desk_core::{Foresight, LONGEST_REVISION, Proposal, State};
use desk_policy::{PolicyView, exports_place};
use desk_tables::{FileSystems, FsId};
use desk_text::ReadError;
use std::alloc::{AllocError, Global};

/// Lists the proposals of a state for exports files of listed file systems, each with what would be in force.
pub(crate) fn waiting_of<'a, V: PolicyView + Drop>(
    alloc: Global,
    state: &'a State<V>,
) -> Result<Vec<Waiting<'a, V>>, AllocError>
    ensures { IfOk result (λ waiting. AreForeseen (newest_in state.now.heads) (V.in_force state.now.view) state.now.proposals
        (map (waiting_value V.in_force) waiting.items)) }
{
    let filesystems = state.view().policy().filesystems();
    let mut waiting = Vec::new(alloc);
    for proposal in state.proposals() {
        push_waiting(alloc, state, filesystems, proposal, &mut waiting)?;
    }
    Ok(waiting)
}

/// Adds a proposal, if it is for the exports file of a listed file system. A text that is longer than a revision may be is as if memory
/// ran out.
fn push_waiting<'a, V: PolicyView + Drop>(
    alloc: Global,
    state: &'a State<V>,
    filesystems: &FileSystems,
    proposal: &'a Proposal,
    waiting: &mut Vec<Waiting<'a, V>>,
) -> Result<(), AllocError>
    requires { filesystems.now ≡ (V.in_force state.now.view).table }
    ensures { OnOk result (GainsForeseen (newest_in state.now.heads) (V.in_force state.now.view) proposal.now
        (map (waiting_value V.in_force) waiting.old.items) (map (waiting_value V.in_force) waiting.new.items)) }
{
    match exports_place(filesystems, proposal.file.as_str()) {
        Some(fs) => {
            if proposal.body.as_str().len() > LONGEST_REVISION {
                return Err(AllocError);
            }
            let outcome = outcome_of(alloc, state, fs, proposal)?;
            let foreseen = Waiting {
                fs,
                proposal,
                outcome,
            };
            waiting.push(foreseen)?;
            Ok(())
        }
        None => Ok(()),
    }
}

/// Finds what would be in force with a proposal.
fn outcome_of<V: PolicyView + Drop>(
    alloc: Global,
    state: &State<V>,
    fs: FsId,
    proposal: &Proposal,
) -> Result<Outcome<V>, AllocError>
    requires place { exports_place (V.in_force state.now.view).table proposal.now.file ≡ Some fs.0 }
    requires short { length proposal.now.body ≤ longest_revision }
    ensures { IfOk result (λ outcome. IsOutcomeOf (newest_in state.now.heads) (V.in_force state.now.view) fs.0 proposal.now
        (outcome_value V.in_force outcome)) }
{
    match state.foresee(alloc, proposal.file.as_str(), proposal.body.as_str()) {
        Ok(Foresight::Lines(_, view)) => Ok(Outcome::Lines(view)),
        // Of the exports file of a listed file system the lines are foreseen alone.
        Ok(Foresight::Whole(_)) => Err(AllocError),
        Err(ReadError::Fault(fault)) => Ok(Outcome::Refused(fault)),
        Err(ReadError::Memory) => Err(AllocError),
    }
}
