//! What another policy would change, as it is printed.

ghost use Rattle.std.specs.Prelude.{◌≡◌, ◌++◌, IfOk, OnOk, map};
ghost use Rattle.std.specs.String.{string_bytes};
ghost use Rattle.desk_impact.specs.Impact.{change_value};
ghost use Rattle.desk_impact.specs.ImpactPrints as spec;

use crate::changes::Change;
use desk_policy::Policy;
use desk_who::{Range, push_range};
use std::alloc::{AllocError, Global};

/// Writes changes: for each the line that would go, behind `- `, and the line that would come, behind `+ `, as `who` writes
/// them under the two policies.
pub fn impact_text(
    alloc: Global,
    before: &Policy,
    after: &Policy,
    changes: &[Change],
) -> Result<String, AllocError>
    ensures { IfOk result (λ text. string_bytes text ≡ spec.impact_text before.now after.now (map change_value changes.now)) }
{
    let mut text = String::new(alloc);
    for change in changes {
        push_lines(alloc, before, after, change, &mut text)?;
    }
    Ok(text)
}

/// Writes both lines of a change.
fn push_lines(
    alloc: Global,
    before: &Policy,
    after: &Policy,
    change: &Change,
    text: &mut String,
) -> Result<(), AllocError>
    ensures { OnOk result (string_bytes text.new
        ≡ string_bytes text.old ++ spec.change_lines before.now after.now (change_value change.now)) }
{
    let goes = Range {
        first: change.first,
        last: change.last,
        value: change.value.before,
    };
    let comes = Range {
        first: change.first,
        last: change.last,
        value: change.value.after,
    };
    text.push_str("- ")?;
    push_range(alloc, before, &goes, text)?;
    text.push_str("+ ")?;
    push_range(alloc, after, &comes, text)?;
    Ok(())
}
