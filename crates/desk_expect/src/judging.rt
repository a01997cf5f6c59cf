//! What breaks an expectation: at which addresses, and by which verdict.

ghost use Rattle.std.specs.Prelude.{◌≡◌};
ghost use Rattle.std.specs.Bool.{Decides};
ghost use Rattle.std.specs.Option.{option_map};
ghost use Rattle.desk_text.specs.Address.{number_of};
ghost use Rattle.desk_policy.specs.Verdict.{verdict_result, verdict_of};
ghost use Rattle.desk_server.specs.Server.{server_verdict_of};
ghost use Rattle.desk_expect.specs.Judging.{JudgedValue, by_server, is_against, judged, judged_of, judged_value};
ghost use Rattle.desk_expect.specs.PrivateAudience.{AreAudienceStarts};

use crate::action::Action;
use crate::expectation::Expectation;
use desk_index::Index;
use desk_policy::{Policy, PolicyView, Verdict};
use desk_server::server_decide;
use desk_text::{Addr, AddrSet, Path};
use desk_who::{Alike, Search};

/// A verdict that breaks an expectation.
#[derive(Clone, Copy)]
pub struct Judged<'a> {
    pub verdict: Verdict<'a>,
    /// It is that of the server, which allows what is forbidden where this desk's verdict does not.
    pub by_server: bool,
}

impl<'a> Alike for Judged<'a> {
    ghost Meaning = { JudgedValue };

    ghost meaning = { judged_value };

    /// Tests whether two verdicts are the same, and of the same.
    fn is_alike(&self, other: &Judged<'a>) -> bool
        ensures { Decides result (judged_value self.now ≡ judged_value other.now) }
    {
        self.by_server == other.by_server && self.verdict.is_alike(&other.verdict)
    }
}

/// The search for what breaks an expectation, with the addresses at which it changes whether the line is about them.
#[derive(Drop)]
pub(crate) struct Judging<'a> {
    pub(crate) index: &'a Index,
    pub(crate) expectation: &'a Expectation,
    pub(crate) starts: &'a AddrSet,
    ghost are: { AreAudienceStarts expectation.now.audience starts.now },
}

impl<'a> Search<Judged<'a>> for Judging<'a> {
    ghost in_force = { λ judging. judging.index.now };

    ghost turns = { λ judging. judging.starts.now };

    ghost found = { λ judging address path value. option_map judged_value value ≡ judged_of judging.expectation.now judging.index.now path (number_of address) };

    fn policy(&self) -> &Policy {
        self.index.policy()
    }

    fn starts(&self) -> &AddrSet {
        self.starts
    }

    fn find(&self, address: Addr, path: &Path) -> Option<Judged<'a>> {
        if self.expectation.audience.contains(address) {
            judge(self.index, self.expectation, address, path)
        } else {
            None
        }
    }

    fn may_find(&self, address: Addr) -> bool {
        self.expectation.audience.contains(address)
    }
}

/// Finds the verdict on a path for an address that breaks what is expected of it. The server is asked only of what is forbidden, and
/// only where this desk's verdict does not allow it.
fn judge<'a>(
    index: &'a Index,
    expectation: &Expectation,
    address: Addr,
    path: &Path,
) -> Option<Judged<'a>>
    ensures { option_map judged_value result
        ≡ judged expectation.now.forbids expectation.now.action (verdict_of index.now (number_of address) path.now) (server_verdict_of index.now (number_of address) path.now) }
{
    let own = index.decide(address, path);
    if is_against(expectation.forbids, expectation.action, &own) {
        return Some(Judged {
            verdict: own,
            by_server: false,
        });
    }
    if expectation.forbids {
        allowed_by_server(index, expectation.action, address, path)
    } else {
        None
    }
}

/// Finds the verdict of the server on a path for an address, if that allows an action.
fn allowed_by_server<'a>(
    index: &'a Index,
    action: Action,
    address: Addr,
    path: &Path,
) -> Option<Judged<'a>>
    ensures { option_map judged_value result ≡ by_server action (server_verdict_of index.now (number_of address) path.now) }
{
    let verdict = server_decide(index, address, path);
    if action.is_allowed_by(&verdict) {
        Some(Judged {
            verdict,
            by_server: true,
        })
    } else {
        None
    }
}

/// Tests whether a verdict allows what is forbidden, or does not allow what is expected.
fn is_against(forbids: bool, action: Action, verdict: &Verdict<'_>) -> bool
    ensures { result ≡ is_against forbids action (verdict_result verdict.now) }
{
    if forbids {
        action.is_allowed_by(verdict)
    } else {
        !action.is_allowed_by(verdict)
    }
}
