//! Proposals: texts of guarded files that wait for a second custodian.

ghost use Rattle.std.specs.Prelude.{◌≡◌, ◌<◌, ◌≤◌, ◌∷◌, [], All, Decides, vec_capacity, vec_len};
ghost use Rattle.std.specs.List.{list_all};
ghost use Rattle.std.specs.Option.{option_copied};
ghost use Rattle.desk_core.specs.PrivateHead.{is_within_reach};
ghost use Rattle.desk_core.specs.Standing.{CanBePending, PendOnce, proposals_in, propose, without};

use crate::head::LAST_REVISION;
use desk_text::Text;

/// A proposal for a file: the number of the revision that it follows (0 if the file has none), who proposes it, and the
/// text.
#[derive(Drop)]
pub struct Proposal {
    pub file: Text,
    pub base: u32,
    pub author: Text,
    pub body: Text,
}

/// Tests whether proposals can be kept in a state: each has a base of at most 2,147,483,647.
pub fn can_be_pending(proposals: &[Proposal]) -> bool
    ensures { Decides result (All CanBePending proposals.now) }
{
    are_within_reach(proposals)
}

/// Tests whether the bases of proposals are at most 2,147,483,647.
fn are_within_reach(proposals: &[Proposal]) -> bool
    ensures { result ≡ list_all is_within_reach proposals.now }
{
    proposals
        .iter()
        .all(|proposal| proposal.base <= LAST_REVISION)
}

/// Finds the proposal of a file.
#[tactic(auto, unfolding(crate::specs::Standing::proposals_in))]
pub fn proposal_among<'a>(proposals: &'a [Proposal], file: &str) -> Option<&'a Proposal>
    ensures { option_copied result ≡ proposals_in proposals.now file.now }
{
    proposals
        .iter()
        .find(|proposal| proposal.file.as_str() == file)
}

/// Takes the proposal of a file away, if it has one.
pub(crate) fn withdraw(proposals: &mut Vec<Proposal>, file: &str)
    ensures gone { proposals_in proposals.new.items ≡ without (proposals_in proposals.old.items) file.now }
    ensures once { PendOnce proposals.old.items → PendOnce proposals.new.items }
    ensures kept { All CanBePending proposals.old.items → All CanBePending proposals.new.items }
    ensures shorter { vec_len proposals.new ≤ vec_len proposals.old }
{
    proposals.retain(|proposal| proposal.file.as_str() != file);
}

/// Makes a proposal that of its file. It takes no memory: the room for a file's first proposal is brought along.
pub(crate) fn put_proposal(proposals: &mut Vec<Proposal>, room: Vec<Proposal>, proposal: Proposal)
    requires empty { room.items ≡ [] }
    requires room { vec_len proposals.old < vec_capacity room }
    ensures proposed { proposals_in proposals.new.items ≡ propose (proposals_in proposals.old.items) proposal }
    ensures once { PendOnce proposals.old.items → PendOnce proposals.new.items }
    ensures kept { CanBePending proposal → All CanBePending proposals.old.items → All CanBePending proposals.new.items }
{
    withdraw(proposals, proposal.file.as_str());
    add_proposal(proposals, room, proposal);
}

/// Puts a proposal before the others, in the room that is brought along.
fn add_proposal(proposals: &mut Vec<Proposal>, mut room: Vec<Proposal>, proposal: Proposal)
    requires empty { room.items ≡ [] }
    requires room { vec_len proposals.old < vec_capacity room }
    ensures { proposals.new.items ≡ proposal ∷ proposals.old.items }
{
    let Ok(()) = room.push(proposal) else {
        unreachable!()
    };
    let Ok(()) = room.append(proposals) else {
        unreachable!()
    };
    *proposals = room;
}
