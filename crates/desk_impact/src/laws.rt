//! What the definitions of this crate keep, each as a function that does nothing.

ghost use Rattle.desk_impact.specs.Impact.{ImpactsAreUnique, ImpactsTellChanges, ImpactsTellEffects, SameSayingsAreNoChange};
ghost use Rattle.desk_impact.specs.Places.{MountsHaveOthers, OtherPathsHaveNone, PathsHaveHomes, PlacesTellAll};
ghost use Rattle.desk_impact.specs.Sections.{NoSectionIsNothingFound, PlacesTellScope};

use crate::changes::TwoVerdicts;
use desk_who::{
    Alike, no_run_is_no_value, runs_are_unique, runs_exist, runs_pass_tests, runs_tell_values,
    verdicts_are_discrete,
};

/// A list of changes holds just the addresses of which the two policies say something else.
pub fn impacts_tell_changes()
    ensures { ImpactsTellChanges }
{
    runs_pass_tests::<TwoVerdicts>();
    runs_tell_values::<TwoVerdicts>();
    verdicts_are_discrete();
}

/// Those of the changes that matter hold just the addresses at which a mount is granted by one of the policies alone, or on
/// other terms.
pub fn impacts_tell_effects()
    ensures { ImpactsTellEffects }
{
    runs_pass_tests::<TwoVerdicts>();
    runs_tell_values::<TwoVerdicts>();
    verdicts_are_discrete();
}

/// Two policies and a path have one list of changes.
pub fn impacts_are_unique()
    ensures { ImpactsAreUnique }
{
    runs_are_unique::<TwoVerdicts>();
}

/// Verdicts that say the same at each address have no change.
pub fn same_sayings_are_no_change()
    ensures { SameSayingsAreNoChange }
{
    runs_exist::<TwoVerdicts>();
    verdicts_are_discrete();
}

/// Each path of a mount point's file system is decided on as one of the places is.
pub fn places_tell_all()
    ensures { PlacesTellAll }
{}

/// Each path that is under a mount point is at home at one.
pub fn paths_have_homes()
    ensures { PathsHaveHomes }
{}

/// A path that is under no mount point is in no file system by either policy.
pub fn other_paths_have_none()
    ensures { OtherPathsHaveNone }
{}

/// Each mount point has a directory at home there that is none of the mount points and that no line writes.
pub fn mounts_have_others()
    ensures { MountsHaveOthers }
{}

/// Each path of a directory, or below it, is decided on as one of its places is, and each place as one of its paths.
pub fn places_tell_scope()
    ensures { PlacesTellScope }
{}

/// There is a section exactly if something is found.
pub fn no_section_is_nothing_found<T: Alike>()
    ensures { NoSectionIsNothingFound T.Meaning }
{
    no_run_is_no_value::<T>();
}
