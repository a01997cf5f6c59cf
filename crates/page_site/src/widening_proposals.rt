//! The proposals by which clients may do more.

ghost use Rattle.std.specs.Prelude.{◌≡◌, ◌++◌, ◌<◌, IfOk, OnOk, length, map};
ghost use Rattle.desk_core.specs.Head.{newest_in};
ghost use Rattle.page_summary.specs.Proposals.{proposal_value};
ghost use Rattle.page_site.specs.Given.{site_source};
ghost use Rattle.page_site.specs.PrivatePage.{IsGiven};
ghost use Rattle.page_site.specs.PrivateWidening.{GainsTold};
ghost use Rattle.page_site.specs.SystemParts as parts;
ghost use Rattle.page_site.specs.WaitingProposals.{IsWaiting, waiting_value};
ghost use Rattle.page_site.specs.WideningProposals as spec;

use crate::page::ReportedSite;
use crate::system_parts::waiting_for;
use crate::waiting_proposals::{Outcome, Waiting};
use desk_policy::PolicyView;
use desk_tables::FsId;
use page_places::count_widening;
use page_summary::ProposalRow;
use std::alloc::{AllocError, Global};

/// Lists the proposals by which clients may do more, in the order of the table of file systems.
pub(crate) fn widening_of<'a, V: PolicyView>(
    alloc: Global,
    site: &ReportedSite<'a, V>,
) -> Result<Vec<ProposalRow<'a>>, AllocError>
    requires { IsGiven (site_source V.in_force site.now) }
    ensures { IfOk result (λ rows. spec.AreWidening (V.in_force site.now.view.now) (map (waiting_value V.in_force) site.now.waiting.now)
        (map proposal_value rows.items)) }
{
    let count = site.view.policy().filesystems().len();
    let mut rows = Vec::new(alloc);
    for place in 0..count {
        push_widening(alloc, site, FsId(place as u32), &mut rows)?;
    }
    Ok(rows)
}

/// Adds what waits for a file system, if clients may do more by it.
fn push_widening<'a, V: PolicyView>(
    alloc: Global,
    site: &ReportedSite<'a, V>,
    fs: FsId,
    rows: &mut Vec<ProposalRow<'a>>,
) -> Result<(), AllocError>
    requires { IsGiven (site_source V.in_force site.now) }
    ensures { OnOk result (GainsTold (V.in_force site.now.view.now)
        (parts.waiting_for (map (waiting_value V.in_force) site.now.waiting.now) fs.0)
        (map proposal_value rows.old.items) (map proposal_value rows.new.items)) }
{
    match waiting_for(site.waiting, fs) {
        Some(waiting) => {
            let count = count_of(alloc, site, waiting)?;
            push_if_any(waiting, count, rows)
        }
        None => Ok(()),
    }
}

/// Counts the changes of a proposal by which clients may do more: none if it cannot be put in force.
fn count_of<V: PolicyView>(
    alloc: Global,
    site: &ReportedSite<'_, V>,
    waiting: &Waiting<'_, V>,
) -> Result<u64, AllocError>
    requires given { IsGiven (site_source V.in_force site.now) }
    requires waiting { IsWaiting (newest_in site.now.heads.now) (V.in_force site.now.view.now) (waiting_value V.in_force waiting.now) }
    ensures { IfOk result (λ count. spec.AreSoManyBy (V.in_force site.now.view.now) waiting.now.fs.0
        (waiting_value V.in_force waiting.now).outcome count) }
{
    match &waiting.outcome {
        Outcome::Lines(lines) => count_widening(alloc, site.view, lines, waiting.fs),
        Outcome::Refused(_) => Ok(0),
    }
}

/// Adds a proposal with so many changes by which clients may do more, if there are any.
fn push_if_any<'a, V: PolicyView>(
    waiting: &Waiting<'a, V>,
    count: u64,
    rows: &mut Vec<ProposalRow<'a>>,
) -> Result<(), AllocError>
    ensures { OnOk result (map proposal_value rows.new.items
        ≡ map proposal_value rows.old.items ++ spec.row_if_any (waiting_value V.in_force waiting.now) count) }
{
    if count != 0 {
        rows.push(ProposalRow {
            fs: waiting.fs,
            author: waiting.proposal.author.as_str(),
            count,
        })?;
    }
    Ok(())
}
