//! Which expectations a policy breaks, where, and for whom.

ghost use Rattle.std.specs.Prelude.{◌≡◌, ◌++◌, ◌∷◌, [], IfOk, OnOk, filter, map};
ghost use Rattle.desk_expect.specs.Judging.{judged_section};
ghost use Rattle.desk_expect.specs.Report.{AreBroken, IsTested, IsTestReport, broken_value, is_broken};
ghost use Rattle.desk_expect.specs.PrivateReport.{AddsTested};

use crate::expectation::Expectation;
use crate::judging::{Judged, Judging};
use crate::report_text::report_text;
use desk_impact::{Section, found_in};
use desk_index::Index;
use desk_policy::PolicyView;
use desk_text::Sequence;
use std::alloc::{AllocError, Global};

/// An expectation that a policy breaks: where, and for whom.
#[derive(Drop)]
pub struct Broken<'a> {
    pub expectation: &'a Expectation,
    pub sections: Sequence<Section<'a, Judged<'a>>>,
}

/// What is reported of expectations: the printed text, and how many are broken.
#[derive(Drop)]
pub struct TestReport {
    pub text: String,
    pub broken: usize,
}

/// Reports which expectations of a file a policy breaks: each with where and for whom, and in a last line how many there are.
pub fn test_report(
    alloc: Global,
    index: &Index,
    file: &str,
    expectations: &[Expectation],
) -> Result<TestReport, AllocError>
    ensures { IfOk result (IsTestReport index.now file.now expectations.now) }
{
    let broken = find_broken(alloc, index, expectations)?;
    let text = report_text(
        alloc,
        index.policy(),
        file,
        expectations.len(),
        broken.as_slice(),
    )?;
    let count = broken.len();
    drop(broken);
    Ok(TestReport {
        text,
        broken: count,
    })
}

/// Finds the expectations that a policy breaks, in their order.
pub fn find_broken<'a>(
    alloc: Global,
    index: &'a Index,
    expectations: &'a [Expectation],
) -> Result<Vec<Broken<'a>>, AllocError>
    ensures { IfOk result (λ broken. AreBroken index.now expectations.now (map broken_value broken.items)) }
{
    let mut broken = Vec::new(alloc);
    for expectation in expectations {
        push_if_broken(alloc, index, expectation, &mut broken)?;
    }
    Ok(broken)
}

/// Adds an expectation, if it is broken.
fn push_if_broken<'a>(
    alloc: Global,
    index: &'a Index,
    expectation: &'a Expectation,
    broken: &mut Vec<Broken<'a>>,
) -> Result<(), AllocError>
    ensures { OnOk result (AddsTested index.now expectation.now (map broken_value broken.old.items) (map broken_value broken.new.items)) }
{
    let sections = sections_of(alloc, index, expectation)?;
    push_if_some(expectation, sections, broken)?;
    Ok(())
}

/// Adds an expectation with its sections, if there are some.
fn push_if_some<'a>(
    expectation: &'a Expectation,
    sections: Vec<Section<'a, Judged<'a>>>,
    broken: &mut Vec<Broken<'a>>,
) -> Result<(), AllocError>
    ensures { OnOk result (map broken_value broken.new.items
        ≡ map broken_value broken.old.items ++ filter is_broken (record { expectation = expectation.now; sections = map judged_section sections.entry.items } ∷ [])) }
{
    if sections.is_empty() {
        drop(sections);
        return Ok(());
    }
    broken.push(Broken {
        expectation,
        sections: Sequence::from_vec(sections),
    })?;
    Ok(())
}

/// Lists where and for whom an expectation is broken, directory by directory as they are written.
fn sections_of<'a>(
    alloc: Global,
    index: &'a Index,
    expectation: &'a Expectation,
) -> Result<Vec<Section<'a, Judged<'a>>>, AllocError>
    ensures { IfOk result (λ sections. IsTested index.now expectation.now (map judged_section sections.items)) }
{
    let judging = Judging {
        index,
        expectation,
        starts: expectation.audience.starts(),
    };
    let mut sections = Vec::new(alloc);
    for scope in expectation.scopes.as_slice() {
        let mut found = found_in(alloc, index.policy(), &judging, &scope.path, scope.below)?;
        sections.append(&mut found)?;
    }
    Ok(sections)
}
