//! What the definitions of this crate keep, each as a function that does nothing.

ghost use Rattle.desk_who.specs.Runs.{NoRunIsNoValue, RunsAreUnique, RunsExist, RunsPassTests, RunsTellValues, RunsWithValueAreUnique};
ghost use Rattle.desk_who.specs.Who.{RangesTellVerdicts, ThereIsOneList, VerdictsAreDiscrete};

use crate::runs::Alike;

/// A function of addresses has at most one list of runs, whatever its values mean.
pub fn runs_are_unique<T: Alike>()
    ensures { RunsAreUnique T.Meaning }
{}

/// A function of addresses has runs, whatever its values mean, if any two meanings are the same or not.
pub fn runs_exist<T: Alike>()
    ensures { RunsExist T.Meaning }
{}

/// Those of the runs whose value passes a test are the runs at which a function of addresses has a value that passes.
pub fn runs_pass_tests<T: Alike>()
    ensures { RunsPassTests T.Meaning }
{}

/// Runs with a value hold just the addresses that have one, and none of them twice.
pub fn runs_tell_values<T: Alike>()
    ensures { RunsTellValues T.Meaning }
{}

/// A function of addresses has at most one list of runs with a value.
pub fn runs_with_value_are_unique<T: Alike>()
    ensures { RunsWithValueAreUnique T.Meaning }
{}

/// There is no run with a value exactly if no address has one.
pub fn no_run_is_no_value<T: Alike>()
    ensures { NoRunIsNoValue T.Meaning }
{}

/// Any two verdicts are the same or not.
pub fn verdicts_are_discrete()
    ensures { VerdictsAreDiscrete }
{}

/// Every policy and path have exactly one list of ranges.
pub fn there_is_one_list()
    ensures { ThereIsOneList }
{}

/// The range that holds an address gives the address's own verdict.
pub fn ranges_tell_verdicts()
    ensures { RangesTellVerdicts }
{}
