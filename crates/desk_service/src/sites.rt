//! The whole site, in force or as it would be with another text of a file: its policy, and the tables that its exports files are read
//! with.

ghost use Rattle.std.specs.Prelude.{◌≡◌, IfOk};
ghost use Rattle.desk_core.specs.Head.{newest_in};
ghost use Rattle.desk_store.specs.Desk.{History, StandsAt};
ghost use Rattle.desk_service.specs.Questions as spec;
ghost use Rattle.desk_service.specs.Questions.{AnswersByHistory, ForeseesSite, answer_of};
ghost use Rattle.desk_service.specs.Sites.{site_of};

use crate::foreseeing::{listed_now, refused_unread};
use crate::questions::Answer;
use desk_core::{ForeseenSite, Refusal};
use desk_policy::{PolicyView, SiteTables};
use desk_store::Desk;
use desk_text::ReadError;
use sqlite::Alter;
use std::alloc::{AllocError, Global};

/// A whole site.
#[derive(Drop)]
pub enum WholeSite<'a, V> {
    /// The site in force: the view of its policy, and its tables.
    InForce(&'a V, &'a SiteTables),
    /// The site as it would be.
    Foreseen(ForeseenSite<V>),
}

impl<'a, V: PolicyView + Drop> WholeSite<'a, V> {
    /// Lends the view of its policy.
    pub fn view(&self) -> &V
        ensures { V.in_force result.now ≡ (site_of V.in_force self.now).content }
    {
        match self {
            WholeSite::InForce(view, _) => view,
            WholeSite::Foreseen(site) => &site.view,
        }
    }

    /// Lends its tables.
    pub fn tables(&self) -> &SiteTables
        ensures { result.now ≡ (site_of V.in_force self.now).tables }
    {
        match self {
            WholeSite::InForce(_, tables) => tables,
            WholeSite::Foreseen(site) => &site.tables,
        }
    }
}

/// Lends the site in force.
pub(crate) fn site_answer<S: Alter + Drop, V: PolicyView + Drop>(desk: &Desk<S, V>) -> Answer<'_, V>
    ensures { (history pending : History) → StandsAt S.Store desk.now history pending
        → AnswersByHistory history spec.Site (answer_of V.in_force result) }
{
    Answer::Site(WholeSite::InForce(desk.view(), desk.tables()))
}

/// Foresees the site with a text of a file that was handed over.
pub(crate) fn foresee_site_text<'a, S: Alter + Drop, V: PolicyView + Drop>(
    alloc: Global,
    desk: &'a Desk<S, V>,
    name: &str,
    text: &str,
) -> Result<Answer<'a, V>, AllocError>
    ensures { (history pending : History) → StandsAt S.Store desk.now history pending
        → IfOk result (λ answer. AnswersByHistory history (spec.ForeseeSite name.now text.now) (answer_of V.in_force answer)) }
{
    foresee_site(alloc, desk, name, text)
}

/// Foresees the site with the text of the proposal of a file, if it has one.
pub(crate) fn foresee_proposed_site<'a, S: Alter + Drop, V: PolicyView + Drop>(
    alloc: Global,
    desk: &'a Desk<S, V>,
    name: &str,
) -> Result<Answer<'a, V>, AllocError>
    ensures { (history pending : History) → StandsAt S.Store desk.now history pending
        → IfOk result (λ answer. AnswersByHistory history (spec.ForeseeProposedSite name.now) (answer_of V.in_force answer)) }
{
    match desk.proposal(name) {
        Some(proposal) => foresee_site(alloc, desk, name, proposal.body.as_str()),
        None => Ok(Answer::NoRevision),
    }
}

/// Foresees the site with a text of a file, by the newest revisions of a desk; or finds why the file cannot have the text. The
/// fault of the site with it comes last. This takes no statement.
fn foresee_site<'a, S: Alter + Drop, V: PolicyView + Drop>(
    alloc: Global,
    desk: &'a Desk<S, V>,
    name: &str,
    text: &str,
) -> Result<Answer<'a, V>, AllocError>
    ensures { IfOk result (λ answer. ForeseesSite (newest_in desk.now.state.heads) name.now text.now (answer_of V.in_force answer)) }
{
    if let Some(refusal) = refused_unread(listed_now(desk), name, text) {
        return Ok(Answer::Refused(refusal));
    }
    match desk.foresee_site(alloc, name, text) {
        Ok(site) => Ok(Answer::Site(WholeSite::Foreseen(site))),
        Err(ReadError::Fault(fault)) => Ok(Answer::Refused(Refusal::Fault(fault))),
        Err(ReadError::Memory) => Err(AllocError),
    }
}
