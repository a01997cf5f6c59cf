//! Who may mount a directory, as it is printed.

ghost use Rattle.std.specs.Prelude.{◌≡◌, ◌++◌, ◌∷◌, [], IfOk, OnOk, map};
ghost use Rattle.std.specs.String.{string_bytes};
ghost use Rattle.desk_text.specs.Address.{addr_text, number_of};
ghost use Rattle.desk_who.specs.Who.{range_value};
ghost use Rattle.desk_who.specs.WhoPrints as spec;

use crate::ranges::Range;
use desk_policy::{Policy, verdict_text};
use desk_text::Addr;
use std::alloc::{AllocError, Global};

/// Writes ranges under the policy, a line for each: its first and its last address, and its verdict.
pub fn who_text(alloc: Global, policy: &Policy, ranges: &[Range]) -> Result<String, AllocError>
    ensures { IfOk result (λ text. string_bytes text ≡ spec.who_text policy.now (map range_value ranges.now)) }
{
    let mut text = String::new(alloc);
    for range in ranges {
        push_range(alloc, policy, range, &mut text)?;
    }
    Ok(text)
}

/// Writes a range under the policy, as the line that `who_text` has for it.
pub fn push_range(
    alloc: Global,
    policy: &Policy,
    range: &Range,
    text: &mut String,
) -> Result<(), AllocError>
    ensures { OnOk result (string_bytes text.new ≡ string_bytes text.old ++ spec.range_line policy.now (range_value range.now)) }
{
    let span = span_text(alloc, range.first, range.last)?;
    let verdict = verdict_text(alloc, policy, &range.value, &None)?;
    text.push_str(span.as_str())?;
    text.push_str(" ")?;
    text.push_str(verdict.as_str())?;
    text.push_str("\n")?;
    Ok(())
}

/// Writes the addresses of a range: its first, and its last.
pub fn span_text(alloc: Global, first: Addr, last: Addr) -> Result<String, AllocError>
    ensures { IfOk result (λ text. string_bytes text ≡ addr_text (number_of first) ++ 45 ∷ addr_text (number_of last)) }
{
    format!(in alloc; "{first}-{last}")
}
