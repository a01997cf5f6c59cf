//! The bodies of replies to who may mount a directory.

ghost use Rattle.std.specs.Prelude.{◌≡◌, IfOk, map};
ghost use Rattle.std.specs.String.{string_bytes};
ghost use Rattle.serde_json.specs.View.{view as data_of};
ghost use Rattle.serde_json.specs.Written.{compact_text};
ghost use Rattle.desk_text.specs.Address.{addr_text, number_of};
ghost use Rattle.desk_policy.specs.Verdict.{verdict_result};
ghost use Rattle.desk_who.specs.Who.{range_value};
ghost use Rattle.desk_http_bodies.specs.Ranges.{denied_range, ended_range, granted_range, range_data, who_data};

use crate::verdicts::{cred_text, flavours_value, map_word, mapped_cred};
use desk_exports::Terms;
use desk_policy::{Denial, Policy, Verdict, mount_text};
use desk_text::{Addr, Path};
use desk_who::Range;
use serde_json::{Value, json};
use std::alloc::{AllocError, Global};

/// Writes the body of who may mount a path under the policy.
pub fn who_body(
    alloc: Global,
    policy: &Policy,
    path: &Path,
    ranges: &[Range<'_>],
) -> Result<String, AllocError>
    ensures { IfOk result (λ body. string_bytes body ≡ compact_text (who_data policy.now path.now (map range_value ranges.now))) }
{
    let value = who_value(alloc, policy, path, ranges)?;
    value.to_string(alloc)
}

/// Makes the value of who may mount a path.
fn who_value(
    alloc: Global,
    policy: &Policy,
    path: &Path,
    ranges: &[Range<'_>],
) -> Result<Value, AllocError>
    ensures { IfOk result (λ value. data_of value ≡ who_data policy.now path.now (map range_value ranges.now)) }
{
    let ranges = range_values(alloc, policy, ranges)?;
    json!(in alloc; {"dir": path.text(), "ranges": ranges})
}

/// Makes the values of ranges.
fn range_values(
    alloc: Global,
    policy: &Policy,
    ranges: &[Range<'_>],
) -> Result<Vec<Value>, AllocError>
    ensures { IfOk result (λ values. map data_of values.items ≡ map (range_data policy.now) (map range_value ranges.now)) }
{
    let mut values = Vec::new(alloc);
    for range in ranges {
        values.push(range_value(alloc, policy, range)?)?;
    }
    Ok(values)
}

/// Makes the value of a range.
pub fn range_value(alloc: Global, policy: &Policy, range: &Range<'_>) -> Result<Value, AllocError>
    ensures { IfOk result (λ value. data_of value ≡ range_data policy.now (range_value range.now)) }
{
    let first = address_text(alloc, range.first)?;
    let last = address_text(alloc, range.last)?;
    ended_range(alloc, policy, first.as_str(), last.as_str(), range.value)
}

/// Makes the value of a range from one address to another.
fn ended_range(
    alloc: Global,
    policy: &Policy,
    first: &str,
    last: &str,
    verdict: Verdict<'_>,
) -> Result<Value, AllocError>
    ensures { IfOk result (λ value. data_of value ≡ ended_range policy.now first.now last.now (verdict_result verdict.entry)) }
{
    match verdict {
        Verdict::Granted { fs, line, terms } => granted_range(
            alloc,
            first,
            last,
            mount_text(policy, fs),
            line,
            terms,
        ),
        Verdict::Denied(denial) => denied_range(alloc, policy, first, last, denial),
    }
}

/// Writes an address as text.
pub fn address_text(alloc: Global, address: Addr) -> Result<String, AllocError>
    ensures { IfOk result (λ text. string_bytes text ≡ addr_text (number_of address)) }
{
    format!(in alloc; "{address}")
}

/// Makes the value of a range to which a mount is granted.
fn granted_range(
    alloc: Global,
    first: &str,
    last: &str,
    fs: &str,
    line: u32,
    terms: &Terms,
) -> Result<Value, AllocError>
    ensures { IfOk result (λ value. data_of value ≡ granted_range first.now last.now fs.now line terms.now) }
{
    let flavours = flavours_value(alloc, terms.flavours.as_slice())?;
    let map = terms.map.get();
    let mapped = cred_text(alloc, mapped_cred(&map))?;
    json!(in alloc; {
        "first": first,
        "flavours": flavours,
        "fs": fs,
        "last": last,
        "line": line,
        "map": map_word(&map),
        "mapped": mapped.as_str(),
        "ro": terms.ro,
        "verdict": "granted",
    })
}

/// Makes the value of a range to which it is denied.
fn denied_range(
    alloc: Global,
    policy: &Policy,
    first: &str,
    last: &str,
    denial: Denial,
) -> Result<Value, AllocError>
    ensures { IfOk result (λ value. data_of value ≡ denied_range policy.now first.now last.now denial) }
{
    match denial {
        Denial::NoFileSystem => {
            json!(in alloc; {"first": first, "last": last, "reason": 1u32, "verdict": "denied"})
        }
        Denial::NoLine(fs) => {
            let mount = mount_text(policy, fs);
            json!(in alloc; {"first": first, "fs": mount, "last": last, "reason": 2u32, "verdict": "denied"})
        }
        Denial::NotListed(fs, line) => {
            let mount = mount_text(policy, fs);
            json!(in alloc; {"first": first, "fs": mount, "last": last, "line": line, "reason": 3u32, "verdict": "denied"})
        }
    }
}
