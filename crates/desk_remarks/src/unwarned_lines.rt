//! The remarks about lines without an odd word.

ghost use Rattle.std.specs.Prelude.{◌≡◌, ◌++◌, ◌∷◌, [], IfOk, OnOk, filter};
ghost use Rattle.desk_remarks.specs.PrivateUnwarnedLines.{HasLines, is_outside};

use crate::remark::LineRemark;
use desk_policy::Warning;
use desk_text::Sequence;
use std::alloc::{AllocError, Global};
use std::collections::BTreeSet;

/// Gathers the numbers of the lines that these warnings are of.
pub(crate) fn warned_lines(alloc: Global, warnings: &[Warning]) -> Result<BTreeSet<u32>, AllocError>
    ensures { IfOk result (HasLines warnings.now) }
{
    let mut lines = BTreeSet::new(alloc);
    for warning in warnings {
        lines.insert(warning.line)?;
    }
    Ok(lines)
}

/// Adds a remark, unless it is about one of these lines.
pub(crate) fn push_unwarned(
    remark: LineRemark,
    warned: &BTreeSet<u32>,
    found: &mut Sequence<LineRemark>,
) -> Result<(), AllocError>
    ensures { OnOk result (found.new ≡ found.old ++ filter (is_outside warned.now) (remark ∷ [])) }
{
    if !warned.contains(&remark.line) {
        found.push(remark)?;
    }
    Ok(())
}
