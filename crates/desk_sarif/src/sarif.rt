//! How findings are printed as a log of SARIF 2.1.0.

ghost use Rattle.std.specs.Prelude.{◌≡◌, [], IfOk, OnOk, codes, map};
ghost use Rattle.std.specs.Option.{option_map};
ghost use Rattle.std.specs.String.{string_bytes};
ghost use Rattle.serde_json.specs.Data.{object, put as put_member, string};
ghost use Rattle.serde_json.specs.View.{members_view, view};
ghost use Rattle.desk_findings.specs.Finding.{HasSlice, HaveSlices};
ghost use Rattle.desk_check.specs.FindingPrints.{message_of, other_of};
ghost use Rattle.desk_sarif.specs.Logs.{line_in, message_data, single};
ghost use Rattle.desk_sarif.specs.PrivateSarif.{put_other, put_suppressions};
ghost use Rattle.desk_sarif.specs.Sarif as spec;
ghost use Rattle.desk_sarif.specs.SarifRules.{rule_id as id_of};

use crate::logs::{column_behind, line_value, log_text, message_value, place_value, slice_region};
use crate::sarif_rules::{all_rule_values, rule_id};
use desk_check::{add_text, is_ignored, push_message};
use desk_findings::{Finding, Matter};
use desk_origins::{OwnPlace, own_place};
use desk_remarks::Remark;
use serde_json::{Map, Value, json, put};
use std::alloc::{AllocError, Global};

/// Prints findings in their order as the results of one log, in compact JSON and a line end. A result has `level` (`error`,
/// `warning` or, for an opinion, `note`), one of `locations` (the file and the region of its slice), `message`, for what names
/// another line `relatedLocations` with it, and `ruleId`, which is that of a rule of the driver. Columns count characters
/// from 1. If warnings of some numbers are ignored, each result also has `suppressions`, a list that is empty unless it is one of these.
pub fn findings_sarif(
    alloc: Global,
    ignored: Option<&[u32]>,
    findings: &[Finding],
) -> Result<String, AllocError>
    requires { HaveSlices findings.now }
    ensures { IfOk result (λ text. string_bytes text ≡ spec.findings_sarif (option_map (λ numbers. numbers.now) ignored.entry) findings.now) }
{
    let rules = all_rule_values(alloc)?;
    let results = result_values(alloc, ignored, findings)?;
    log_text(alloc, rules, results)
}

/// Makes the results of findings.
fn result_values(
    alloc: Global,
    ignored: Option<&[u32]>,
    findings: &[Finding],
) -> Result<Vec<Value>, AllocError>
    requires { HaveSlices findings.now }
    ensures { IfOk result (λ values. map view values.items ≡ map (spec.result_data (option_map (λ numbers. numbers.now) ignored.entry)) findings.now) }
{
    let mut values = Vec::new(alloc);
    for finding in findings {
        values.push(result_value(alloc, ignored, finding)?)?;
    }
    Ok(values)
}

/// Makes the result of a finding.
fn result_value(
    alloc: Global,
    ignored: Option<&[u32]>,
    finding: &Finding,
) -> Result<Value, AllocError>
    requires { HasSlice finding.now }
    ensures { IfOk result (λ value. view value ≡ spec.result_data (option_map (λ numbers. numbers.now) ignored.entry) finding.now) }
{
    let suppressed = is_suppressed(ignored, finding);
    let mut members = Map::new(alloc);
    add_members(alloc, suppressed, finding, &mut members)?;
    Ok(Value::Object(members))
}

/// Tests whether a finding is suppressed, if warnings of some numbers are ignored.
fn is_suppressed(ignored: Option<&[u32]>, finding: &Finding) -> Option<bool>
    ensures { result ≡ spec.is_suppressed (option_map (λ numbers. numbers.now) ignored.entry) finding.now }
{
    match ignored {
        Some(numbers) => Some(is_ignored(numbers, finding)),
        None => None,
    }
}

/// Adds the members of a result to an object that has none. (The map is lent, so that its proof is cheap.)
fn add_members(
    alloc: Global,
    suppressed: Option<bool>,
    finding: &Finding,
    members: &mut Map<String, Value>,
) -> Result<(), AllocError>
    requires slice { HasSlice finding.now }
    requires none { members.old.entries ≡ [] }
    ensures { OnOk result (object (members_view members.new.entries)
        ≡ spec.result_of (other_of finding.now.matter) suppressed finding.now (message_of finding.now)) }
{
    add_text(alloc, "level", level_of(finding.matter), members)?;
    add_location(alloc, finding, members)?;
    add_message(alloc, finding, members)?;
    add_other(alloc, finding, members)?;
    add_rule(alloc, finding.matter, members)?;
    add_suppressions(alloc, suppressed, members)
}

/// Returns `error`, `warning` or `note`.
fn level_of(matter: Matter) -> &'static str
    ensures { result.now ≡ spec.level_of matter }
{
    match matter {
        Matter::Fault(..) | Matter::Contradiction(..) => "error",
        Matter::Warning(_) => "warning",
        Matter::Remark(remark, _) => remark_level(remark),
    }
}

/// Returns `warning`, or of an opinion `note`.
fn remark_level(remark: Remark) -> &'static str
    ensures { result.now ≡ spec.remark_level remark }
{
    if remark.is_opinion() {
        "note"
    } else {
        "warning"
    }
}

/// Adds where a finding is.
fn add_location(
    alloc: Global,
    finding: &Finding,
    members: &mut Map<String, Value>,
) -> Result<(), AllocError>
    requires { HasSlice finding.now }
    ensures { OnOk result (members_view members.new.entries
        ≡ put_member (codes "locations") (single (spec.location_of finding.now)) (members_view members.old.entries)) }
{
    let locations = locations_value(alloc, finding)?;
    put(members, alloc, "locations", locations)
}

/// Makes the list of where a finding is.
fn locations_value(alloc: Global, finding: &Finding) -> Result<Value, AllocError>
    requires { HasSlice finding.now }
    ensures { IfOk result (λ value. view value ≡ single (spec.location_of finding.now)) }
{
    let region = region_value(alloc, finding)?;
    let own = own_place(finding.origins, finding.path, finding.line());
    let place = place_value(alloc, own.path, region)?;
    json!(in alloc; [{"physicalLocation": place}])
}

/// Makes the region of a finding.
fn region_value(alloc: Global, finding: &Finding) -> Result<Value, AllocError>
    requires { HasSlice finding.now }
    ensures { IfOk result (λ value. view value ≡ spec.region_of finding.now) }
{
    let end = column_behind(finding.column, finding.slice())?;
    let own = own_place(finding.origins, finding.path, finding.line());
    slice_region(alloc, own.line, finding.column, end)
}

/// Adds what a finding says.
fn add_message(
    alloc: Global,
    finding: &Finding,
    members: &mut Map<String, Value>,
) -> Result<(), AllocError>
    requires { HasSlice finding.now }
    ensures { OnOk result (members_view members.new.entries
        ≡ put_member (codes "message") (message_data (message_of finding.now)) (members_view members.old.entries)) }
{
    let message = finding_message(alloc, finding)?;
    put(members, alloc, "message", message)
}

/// Makes the message of a finding.
fn finding_message(alloc: Global, finding: &Finding) -> Result<Value, AllocError>
    requires { HasSlice finding.now }
    ensures { IfOk result (λ value. view value ≡ message_data (message_of finding.now)) }
{
    let mut message = String::new(alloc);
    push_message(finding, &mut message)?;
    message_value(alloc, message.as_str())
}

/// Adds the line that a finding names beside its own, if it names one.
fn add_other(
    alloc: Global,
    finding: &Finding,
    members: &mut Map<String, Value>,
) -> Result<(), AllocError>
    ensures { let about = finding.now.matter in OnOk result (members_view members.new.entries
        ≡ put_other (spec.other_words about) finding.now.origins.now finding.now.path.now (other_of about) (members_view members.old.entries)) }
{
    match finding.matter {
        Matter::Contradiction(other, _) | Matter::Fault(_, Some(other)) => {
            let place = own_place(finding.origins, finding.path, other);
            add_line(alloc, place, "the earlier line", members)
        }
        Matter::Remark(_, Some(shown)) => {
            let place = own_place(finding.origins, finding.path, shown.line);
            add_line(alloc, place, "the other line", members)
        }
        Matter::Fault(_, None) | Matter::Warning(_) | Matter::Remark(_, None) => Ok(()),
    }
}

/// Adds a line of a file, with these words.
fn add_line(
    alloc: Global,
    place: OwnPlace<'_>,
    words: &str,
    members: &mut Map<String, Value>,
) -> Result<(), AllocError>
    ensures { OnOk result (members_view members.new.entries
        ≡ put_member (codes "relatedLocations") (single (line_in words.now place.entry.path.now place.entry.line)) (members_view members.old.entries)) }
{
    let other = line_value(alloc, place.path, place.line, words)?;
    let lines = json!(in alloc; [other])?;
    put(members, alloc, "relatedLocations", lines)
}

/// Adds the id of the rule that a finding is about.
fn add_rule(
    alloc: Global,
    matter: Matter,
    members: &mut Map<String, Value>,
) -> Result<(), AllocError>
    ensures { OnOk result (members_view members.new.entries
        ≡ put_member (codes "ruleId") (string (id_of matter)) (members_view members.old.entries)) }
{
    let id = rule_id(alloc, matter)?;
    put(members, alloc, "ruleId", Value::String(id))
}

/// Adds whether a finding is suppressed, if that is said.
fn add_suppressions(
    alloc: Global,
    suppressed: Option<bool>,
    members: &mut Map<String, Value>,
) -> Result<(), AllocError>
    ensures { OnOk result (members_view members.new.entries ≡ put_suppressions suppressed (members_view members.old.entries)) }
{
    match suppressed {
        Some(suppressed) => {
            let value = suppressions_value(alloc, suppressed)?;
            put(members, alloc, "suppressions", value)
        }
        None => Ok(()),
    }
}

/// Makes the list of what suppresses a finding: that warnings of its number are ignored, or nothing.
fn suppressions_value(alloc: Global, suppressed: bool) -> Result<Value, AllocError>
    ensures { IfOk result (λ value. view value ≡ spec.suppressions suppressed) }
{
    if suppressed {
        json!(in alloc; [{"kind": "external"}])
    } else {
        json!(in alloc; [])
    }
}
