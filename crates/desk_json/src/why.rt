//! A verdict with why it is so, as `--why` prints it as JSON.

ghost use Rattle.std.specs.Prelude.{◌≡◌, ◌≤◌, IfOk, OnOk, codes, length, map, take};
ghost use Rattle.std.specs.String.{string_bytes};
ghost use Rattle.serde_json.specs.Data.{object, put as put_member};
ghost use Rattle.serde_json.specs.View.{members_view, view as data_of};
ghost use Rattle.serde_json.specs.Written.{compact_text};
ghost use Rattle.desk_policy.specs.Verdict.{verdict_result};
ghost use Rattle.desk_http_bodies.specs.Json.{list};
ghost use Rattle.desk_json.specs.Why.{lines_of, reason_data, why_data, with_why, without_empty_end};

use crate::named::named_verdict;
use desk_policy::{Policy, Verdict};
use desk_tables::Cred;
use desk_text::split_at;
use serde_json::{Map, Value, put};
use std::alloc::{AllocError, Global};

/// Writes the object of a verdict under the policy, for a client with this credential of its own, if it told one, with the lines of a text
/// that say why.
pub fn why_object(
    alloc: Global,
    policy: &Policy,
    verdict: &Verdict<'_>,
    own: &Option<Cred>,
    reasons: &str,
) -> Result<String, AllocError>
    ensures { IfOk result (λ text. string_bytes text ≡ compact_text (why_data policy.now own.now (verdict_result verdict.now) reasons.now)) }
{
    let value = why_value(alloc, policy, verdict, own, reasons)?;
    value.to_string(alloc)
}

/// Makes the value of a verdict with why it is so.
fn why_value(
    alloc: Global,
    policy: &Policy,
    verdict: &Verdict<'_>,
    own: &Option<Cred>,
    reasons: &str,
) -> Result<Value, AllocError>
    ensures { IfOk result (λ value. data_of value ≡ why_data policy.now own.now (verdict_result verdict.now) reasons.now) }
{
    let value = named_verdict(alloc, policy, verdict, own)?;
    with_why(alloc, reasons, value)
}

/// Adds the lines that say why to an object.
fn with_why(alloc: Global, reasons: &str, value: Value) -> Result<Value, AllocError>
    ensures { IfOk result (λ told. data_of told ≡ with_why reasons.now (data_of value)) }
{
    match value {
        Value::Object(members) => object_with_why(alloc, reasons, members),
        other => Ok(other),
    }
}

/// Makes the object of members and the lines that say why.
fn object_with_why(
    alloc: Global,
    reasons: &str,
    mut members: Map<String, Value>,
) -> Result<Value, AllocError>
    ensures { IfOk result (λ told. data_of told ≡ with_why reasons.now (object (members_view members.entries))) }
{
    put_reasons(alloc, reasons, &mut members)?;
    Ok(Value::Object(members))
}

/// Adds the lines that say why to the members of an object.
fn put_reasons(
    alloc: Global,
    reasons: &str,
    members: &mut Map<String, Value>,
) -> Result<(), AllocError>
    ensures { OnOk result (members_view members.new.entries
        ≡ put_member (codes "why") (list (map reason_data (lines_of reasons.now))) (members_view members.old.entries)) }
{
    let values = reason_values(alloc, reasons)?;
    put(members, alloc, "why", Value::from(values))
}

/// Makes the values of the lines of a text.
fn reason_values(alloc: Global, reasons: &str) -> Result<Vec<Value>, AllocError>
    ensures { IfOk result (λ values. map data_of values.items ≡ map reason_data (lines_of reasons.now)) }
{
    let parts = split_at(alloc, reasons, '\n')?;
    let count = count_lines(parts.as_slice());
    text_values(alloc, &parts.as_slice()[..count])
}

/// Makes the values of texts.
fn text_values(alloc: Global, texts: &[&str]) -> Result<Vec<Value>, AllocError>
    ensures { IfOk result (λ values. map data_of values.items ≡ map reason_data (map (λ text. text.now) texts.now)) }
{
    let mut values = Vec::new(alloc);
    for text in texts {
        values.push(Value::try_from_str(alloc, text)?)?;
    }
    Ok(values)
}

/// Counts the parts without the last one, if that is empty.
fn count_lines(parts: &[&str]) -> usize
    ensures lines { map (λ part. part.now) (take result parts.now) ≡ without_empty_end (map (λ part. part.now) parts.now) }
    ensures within { result ≤ length parts.now }
{
    let count = parts.len();
    if count > 0 && parts[count - 1].is_empty() {
        count - 1
    } else {
        count
    }
}
