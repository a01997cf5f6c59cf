//! What another policy would change for the clients of a directory.

ghost use Rattle.std.specs.Prelude.{◌≡◌, IfOk, map};
ghost use Rattle.std.specs.Bool.{Decides};
ghost use Rattle.desk_policy.specs.Verdict.{verdict_result};
ghost use Rattle.desk_impact.specs.Impact as spec;
ghost use Rattle.desk_impact.specs.Impact.{AreStartsOfBoth, IsImpact, ThoseThatMatter, change_value, effect, two_verdicts, verdicts_at};

use crate::sayings::say_the_same;
use desk_policy::{Policy, PolicyView, Verdict, same_terms};
use desk_text::{AddrSet, Path};
use desk_who::{Alike, Run, joined, longest_runs, starts_under, verdicts_are_discrete};
use std::alloc::{AllocError, Global};

/// The verdicts of two policies on one mount.
#[derive(Clone, Copy)]
pub struct TwoVerdicts<'a> {
    pub before: Verdict<'a>,
    pub after: Verdict<'a>,
}

/// Neighbouring addresses whose verdict would change in one way.
pub type Change<'a> = Run<TwoVerdicts<'a>>;

impl<'a> Alike for TwoVerdicts<'a> {
    ghost Meaning = { spec.TwoVerdicts };

    ghost meaning = { two_verdicts };

    fn is_alike(&self, other: &TwoVerdicts<'a>) -> bool
        ensures { Decides result (two_verdicts self.now ≡ two_verdicts other.now) }
    {
        self.before.is_alike(&other.before) && self.after.is_alike(&other.after)
    }
}

/// Lists for whom the verdict on a path would say something else if another policy were in force: the longest ranges of
/// addresses that have the same two verdicts, ascending. Of a line that moved the number changes, and so what its verdicts say;
/// `those_that_matter` leaves out such changes.
pub fn impact<'a, V: PolicyView>(
    alloc: Global,
    before: &'a V,
    after: &'a V,
    path: &Path,
) -> Result<Vec<Change<'a>>, AllocError>
    ensures { IfOk result
        (λ changes. let old = V.in_force before.now in let new = V.in_force after.now in
        IsImpact old new (verdicts_at old new path.now) (map change_value changes.items)) }
{
    verdicts_are_discrete();
    let old = before.policy();
    let new = after.policy();
    let starts = starts_of_both(alloc, old, new, path)?;
    let mut changes = longest_runs(
        alloc,
        &starts,
        |address| TwoVerdicts {
            before: before.decide(address, path),
            after: after.decide(address, path),
        },
    )?;
    changes.retain(|change| !say_the_same(old, new, &change.value.before, &change.value.after));
    Ok(changes)
}

/// Gathers the addresses at which the verdict of one of two policies on a path may change; and so on each path of its file
/// systems.
pub fn starts_of_both(
    alloc: Global,
    before: &Policy,
    after: &Policy,
    path: &Path,
) -> Result<AddrSet, AllocError>
    ensures { IfOk result (AreStartsOfBoth before.now after.now path.now) }
{
    let old = starts_under(alloc, before, path)?;
    let new = starts_under(alloc, after, path)?;
    joined(old, &new)
}

/// Gathers the changes that matter to a client: the mount is granted by one of the policies alone, or on other terms. That
/// another line grants it on the same terms, or that it is denied for another reason, does not.
pub fn those_that_matter<'a>(
    alloc: Global,
    changes: &[Change<'a>],
) -> Result<Vec<Change<'a>>, AllocError>
    ensures { IfOk result (λ chosen. ThoseThatMatter (map change_value changes.now) (map change_value chosen.items)) }
{
    verdicts_are_discrete();
    let mut chosen = Vec::new(alloc);
    chosen.extend_from_slice(changes)?;
    chosen.retain(|change| !has_same_effect(&change.value.before, &change.value.after));
    Ok(chosen)
}

/// Tests whether two verdicts come to the same for a client: both deny the mount, or grant it on the same terms.
pub fn has_same_effect(verdict: &Verdict<'_>, other: &Verdict<'_>) -> bool
    ensures { Decides result (effect (verdict_result other.now) ≡ effect (verdict_result verdict.now)) }
{
    match (verdict, other) {
        (Verdict::Denied(_), Verdict::Denied(_)) => true,
        (Verdict::Granted { terms, .. }, Verdict::Granted { terms: others, .. }) => same_terms(
            others, terms,
        ),
        (Verdict::Granted { .. }, Verdict::Denied(_))
        | (Verdict::Denied(_), Verdict::Granted { .. }) => false,
    }
}
