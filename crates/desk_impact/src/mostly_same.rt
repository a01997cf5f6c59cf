//! What another policy would change for the clients of a path, from what it would change where the verdicts are mostly the same.

ghost use Rattle.std.specs.Prelude.{◌≡◌, false, IfOk, map};
ghost use Rattle.std.specs.Option.{option_map};
ghost use Rattle.desk_text.specs.Address.{number_of};
ghost use Rattle.desk_text.specs.AddrSet.{is_among};
ghost use Rattle.desk_impact.specs.MostlySame.{IsImpactBeside};
ghost use Rattle.desk_impact.specs.Impact.{change_value, two_verdicts, verdicts_at};
ghost use Rattle.desk_impact.specs.PrivateMostlySame.{IsChangeAt};

use crate::changes::{Change, TwoVerdicts};
use crate::sayings::say_the_same;
use desk_policy::PolicyView;
use desk_text::{Addr, AddrSet, Path};
use desk_who::{
    runs_beside, runs_exist, runs_pass_tests, runs_with_value_are_unique, verdicts_are_discrete,
};
use std::alloc::{AllocError, Global};

/// Lists what `impact` lists of a path, given the changes of other verdicts, which go together with those on the path except at
/// the decided addresses: at each other one they are the same, or neither changes, or neither is a change. The path is asked at the
/// decided addresses and at the first of all.
pub fn impact_beside<'a, V: PolicyView>(
    alloc: Global,
    before: &'a V,
    after: &'a V,
    path: &Path,
    others: &[Change<'a>],
    decided: &AddrSet,
) -> Result<Vec<Change<'a>>, AllocError>
    requires { is_among 0 decided.now ≡ false }
    ensures { IfOk result (λ changes. let old = V.in_force before.now in let new = V.in_force after.now in
        IsImpactBeside old new (verdicts_at old new path.now) (map change_value others.now) decided.now (map change_value changes.items)) }
{
    runs_exist::<TwoVerdicts<'a>>();
    runs_pass_tests::<TwoVerdicts<'a>>();
    runs_with_value_are_unique::<TwoVerdicts<'a>>();
    verdicts_are_discrete();
    let compared = Compared {
        before,
        after,
        path,
    };
    runs_beside(
        alloc,
        others,
        decided,
        |address| change_at(&compared, address),
    )
}

/// Two policies, and a path on which their verdicts are compared.
#[derive(Drop)]
struct Compared<'a, 'b, V> {
    before: &'a V,
    after: &'a V,
    path: &'b Path,
}

/// Finds the verdicts for an address, if they say something else.
fn change_at<'a, V: PolicyView>(
    compared: &Compared<'a, '_, V>,
    address: Addr,
) -> Option<TwoVerdicts<'a>>
    ensures { let old = V.in_force compared.now.before.now in let new = V.in_force compared.now.after.now in
        IsChangeAt old new (verdicts_at old new compared.now.path.now (number_of address)) (option_map two_verdicts result) }
{
    let verdicts = TwoVerdicts {
        before: compared.before.decide(address, compared.path),
        after: compared.after.decide(address, compared.path),
    };
    if say_the_same(
        compared.before.policy(),
        compared.after.policy(),
        &verdicts.before,
        &verdicts.after,
    ) {
        None
    } else {
        Some(verdicts)
    }
}
