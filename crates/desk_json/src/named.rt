//! Answers that name the file of a line, if several texts were read as one, as `try` and `clients` print them as JSON.

ghost use Rattle.std.specs.Prelude.{◌≡◌, IfOk, OnOk, codes, map};
ghost use Rattle.std.specs.Option.{option_copied};
ghost use Rattle.std.specs.String.{string_bytes};
ghost use Rattle.serde_json.specs.Data.{object, put as put_member, string};
ghost use Rattle.serde_json.specs.View.{members_view, view as data_of};
ghost use Rattle.serde_json.specs.Written.{compact_text};
ghost use Rattle.desk_origins.specs.Origins as origins;
ghost use Rattle.desk_policy.specs.Verdict.{verdict_result};
ghost use Rattle.desk_who.specs.Who.{range_value};
ghost use Rattle.desk_http_bodies.specs.Json.{count};
ghost use Rattle.desk_json.specs.Named as spec;

use desk_http_bodies::members::put_text;
use desk_http_bodies::ranges::range_value;
use desk_http_bodies::verdicts::verdict_value;
use desk_origins::{Origin, origin_of, own_line};
use desk_policy::{Denial, Policy, Verdict};
use desk_tables::Cred;
use desk_text::Path;
use desk_who::Range;
use serde_json::{Map, Value, json, put};
use std::alloc::{AllocError, Global};

/// Writes the object of a verdict under the policy, for a client with this credential of its own, if it told one.
pub fn verdict_object(
    alloc: Global,
    policy: &Policy,
    verdict: &Verdict<'_>,
    own: &Option<Cred>,
) -> Result<String, AllocError>
    ensures { IfOk result (λ text. string_bytes text ≡ compact_text (spec.named_verdict policy.now own.now (verdict_result verdict.now))) }
{
    let value = named_verdict(alloc, policy, verdict, own)?;
    value.to_string(alloc)
}

/// Makes the value of a verdict.
pub fn named_verdict(
    alloc: Global,
    policy: &Policy,
    verdict: &Verdict<'_>,
    own: &Option<Cred>,
) -> Result<Value, AllocError>
    ensures { IfOk result (λ value. data_of value ≡ spec.named_verdict policy.now own.now (verdict_result verdict.now)) }
{
    let value = verdict_value(alloc, policy, verdict, own)?;
    with_file(alloc, policy.origins(), line_of(*verdict), value)
}

/// Writes the object of who may mount a path under the policy.
pub fn who_object(
    alloc: Global,
    policy: &Policy,
    path: &Path,
    ranges: &[Range<'_>],
) -> Result<String, AllocError>
    ensures { IfOk result (λ text. string_bytes text ≡ compact_text (spec.named_who policy.now path.now (map range_value ranges.now))) }
{
    let value = who_value(alloc, policy, path, ranges)?;
    value.to_string(alloc)
}

/// Makes the value of who may mount a path.
fn who_value(
    alloc: Global,
    policy: &Policy,
    path: &Path,
    ranges: &[Range<'_>],
) -> Result<Value, AllocError>
    ensures { IfOk result (λ value. data_of value ≡ spec.named_who policy.now path.now (map range_value ranges.now)) }
{
    let ranges = named_ranges(alloc, policy, ranges)?;
    json!(in alloc; {"dir": path.text(), "ranges": ranges})
}

/// Makes the values of ranges.
fn named_ranges(
    alloc: Global,
    policy: &Policy,
    ranges: &[Range<'_>],
) -> Result<Vec<Value>, AllocError>
    ensures { IfOk result (λ values. map data_of values.items ≡ map (spec.named_range policy.now) (map range_value ranges.now)) }
{
    let mut values = Vec::new(alloc);
    for range in ranges {
        values.push(named_range(alloc, policy, range)?)?;
    }
    Ok(values)
}

/// Makes the value of a range.
fn named_range(alloc: Global, policy: &Policy, range: &Range<'_>) -> Result<Value, AllocError>
    ensures { IfOk result (λ value. data_of value ≡ spec.named_range policy.now (range_value range.now)) }
{
    let value = range_value(alloc, policy, range)?;
    with_file(alloc, policy.origins(), line_of(range.value), value)
}

/// Finds the line that a verdict names, if it names one.
fn line_of(verdict: Verdict<'_>) -> Option<u32>
    ensures { result ≡ spec.line_of (verdict_result verdict.entry) }
{
    match verdict {
        Verdict::Granted { line, .. } | Verdict::Denied(Denial::NotListed(_, line)) => Some(line),
        Verdict::Denied(Denial::NoFileSystem | Denial::NoLine(_)) => None,
    }
}

/// Adds the file of a line to an object that names the line, if several texts were read as one.
fn with_file(
    alloc: Global,
    origins: &[Origin],
    line: Option<u32>,
    value: Value,
) -> Result<Value, AllocError>
    ensures { IfOk result (λ told. data_of told ≡ spec.with_file origins.now line (data_of value)) }
{
    match line {
        Some(line) => with_origin(alloc, origin_of(origins, line), line, value),
        None => Ok(value),
    }
}

/// Adds the file that a line is of to an object, if there is one, and tells the line by its number there.
fn with_origin(
    alloc: Global,
    origin: Option<&Origin>,
    line: u32,
    value: Value,
) -> Result<Value, AllocError>
    ensures { IfOk result (λ told. data_of told ≡ spec.with_origin (option_copied origin.entry) line (data_of value)) }
{
    match origin {
        Some(origin) => with_own_line(alloc, origin, line, value),
        None => Ok(value),
    }
}

/// Adds the file that a line is of to an object, and tells the line by its number there.
fn with_own_line(
    alloc: Global,
    origin: &Origin,
    line: u32,
    value: Value,
) -> Result<Value, AllocError>
    ensures { IfOk result (λ told. data_of told ≡ spec.with_own_line origin.now line (data_of value)) }
{
    match value {
        Value::Object(members) => object_with_line(alloc, origin, line, members),
        other => Ok(other),
    }
}

/// Makes the object of members with the file that a line is of, and the line by its number there.
fn object_with_line(
    alloc: Global,
    origin: &Origin,
    line: u32,
    mut members: Map<String, Value>,
) -> Result<Value, AllocError>
    ensures { IfOk result (λ told. data_of told ≡ spec.with_own_line origin.now line (object (members_view members.entries))) }
{
    put_own_line(alloc, origin, line, &mut members)?;
    Ok(Value::Object(members))
}

/// Adds the file that a line is of to the members of an object, and tells the line by its number there.
fn put_own_line(
    alloc: Global,
    origin: &Origin,
    line: u32,
    members: &mut Map<String, Value>,
) -> Result<(), AllocError>
    ensures { OnOk result (members_view members.new.entries
        ≡ put_member (codes "file") (string origin.now.path) (put_member (codes "line") (count (origins.own_line origin.now line)) (members_view members.old.entries))) }
{
    put(members, alloc, "line", Value::from(own_line(origin, line)))?;
    put_text(alloc, "file", origin.path.as_str(), members)
}
