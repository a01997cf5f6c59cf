//! How findings are printed as JSON, for programs. The text is what serde_json's definition of compact JSON says of each
//! object, with the control characters that JSON leaves in strings as they are (from U+007F to U+009F) by their codes. That
//! a reader gives the same values back is only tested.

ghost use Rattle.std.specs.Prelude.{◌≡◌, ◌++◌, [], IfOk, OnOk, codes};
ghost use Rattle.std.specs.List.{flat_map};
ghost use Rattle.std.specs.Option.{option_copied};
ghost use Rattle.std.specs.Str.{chars};
ghost use Rattle.std.specs.String.{string_bytes};
ghost use Rattle.serde_json.specs.Data.{number, object, put as put_member, string, unsigned};
ghost use Rattle.serde_json.specs.View.{members_view, view};
ghost use Rattle.serde_json.specs.Written.{compact_text};
ghost use Rattle.desk_findings.specs.Finding.{HasSlice, HaveSlices};
ghost use Rattle.desk_check.specs.FindingJson as spec;
ghost use Rattle.desk_check.specs.FindingPrints.{message_of};
ghost use Rattle.desk_check.specs.PrivateFindingJson.{put_address, put_directory, put_other, put_other_path};

use crate::finding_prints::{other_of, push_message};
use desk_findings::{Finding, Matter};
use desk_origins::{Origin, origin_of, own_place};
use desk_text::{Addr, Path};
use serde_json::{Map, Value, put};
use std::alloc::{AllocError, Global};

/// Prints findings in their order as one compact JSON list and a line end: `[]` if there are none. Each is an object with
/// `column`, `kind`, `line`, `name`, `path`, `rule` (its number), `text` (its sentence) and `word` (its slice); a netgroup
/// that is defined twice also has the earlier line as `other`, and a contradiction `other` and `address`, as a remark has that
/// shows an example; that the server grants more also has the `directory`, if there is one. Beside `other` stands the path of
/// its file as `other_path`, if several texts were read as one.
pub fn findings_json(alloc: Global, findings: &[Finding]) -> Result<String, AllocError>
    requires { HaveSlices findings.now }
    ensures { IfOk result (λ text. string_bytes text ≡ spec.findings_json findings.now) }
{
    let mut text = String::new(alloc);
    text.push('[')?;
    push_elements(alloc, findings, &mut text)?;
    text.push_str("]\n")?;
    Ok(text)
}

/// Prints the findings that are left as the list `findings` of one compact JSON object, whose number `ignored` says how many warnings
/// are ignored, and a line end.
pub fn heard_json(alloc: Global, findings: &[Finding], ignored: usize) -> Result<String, AllocError>
    requires { HaveSlices findings.now }
    ensures { IfOk result (λ text. string_bytes text ≡ spec.heard_json ignored findings.now) }
{
    let mut text = String::from_str(alloc, "{\"findings\":[")?;
    push_elements(alloc, findings, &mut text)?;
    write!(text, "],\"ignored\":{ignored}}}\n")?;
    Ok(text)
}

/// Adds findings as objects, with commas between them.
fn push_elements(alloc: Global, findings: &[Finding], text: &mut String) -> Result<(), AllocError>
    requires { HaveSlices findings.now }
    ensures { OnOk result (string_bytes text.new ≡ string_bytes text.old ++ spec.elements_text findings.now) }
{
    if let [first, more @ ..] = findings {
        push_object(alloc, first, text)?;
        push_later(alloc, more, text)?;
    }
    Ok(())
}

/// Adds the findings after the first.
fn push_later(alloc: Global, findings: &[Finding], text: &mut String) -> Result<(), AllocError>
    requires { HaveSlices findings.now }
    ensures { OnOk result (string_bytes text.new
        ≡ string_bytes text.old ++ flat_map (λ later. codes "," ++ spec.object_text later) findings.now) }
{
    for finding in findings {
        text.push(',')?;
        push_object(alloc, finding, text)?;
    }
    Ok(())
}

/// Adds a finding as an object.
fn push_object(alloc: Global, finding: &Finding, text: &mut String) -> Result<(), AllocError>
    requires { HasSlice finding.now }
    ensures { OnOk result (string_bytes text.new ≡ string_bytes text.old ++ spec.object_text finding.now) }
{
    let object = object_text(alloc, finding)?;
    push_json(object.as_str(), text)
}

/// Writes a finding as an object.
fn object_text(alloc: Global, finding: &Finding) -> Result<String, AllocError>
    requires { HasSlice finding.now }
    ensures { IfOk result (λ text. string_bytes text ≡ compact_text (spec.value_of finding.now)) }
{
    let value = value_of(alloc, finding)?;
    value.to_string(alloc)
}

/// Makes the object of a finding.
fn value_of(alloc: Global, finding: &Finding) -> Result<Value, AllocError>
    requires { HasSlice finding.now }
    ensures { IfOk result (λ value. view value ≡ spec.value_of finding.now) }
{
    let mut members = Map::new(alloc);
    add_members(alloc, finding, &mut members)?;
    Ok(Value::Object(members))
}

/// Adds the members of a finding to an object that has none. (The map is lent, so that its proof is cheap.)
fn add_members(
    alloc: Global,
    finding: &Finding,
    members: &mut Map<String, Value>,
) -> Result<(), AllocError>
    requires slice { HasSlice finding.now }
    requires none { members.old.entries ≡ [] }
    ensures { OnOk result (object (members_view members.new.entries) ≡ spec.value_of finding.now) }
{
    let place = own_place(finding.origins, finding.path, finding.line());
    let other = other_of(finding.matter);
    add_address(alloc, address_of(finding.matter), members)?;
    add_number(alloc, "column", finding.column, members)?;
    add_directory(alloc, finding.directory.as_ref(), members)?;
    add_text(alloc, "kind", finding.matter.kind(), members)?;
    add_number(alloc, "line", place.line, members)?;
    add_text(alloc, "name", finding.matter.name(), members)?;
    add_other(alloc, finding.origins, other, members)?;
    add_other_path(alloc, finding.origins, other, members)?;
    add_text(alloc, "path", place.path, members)?;
    add_number(alloc, "rule", finding.matter.number() as usize, members)?;
    add_message(alloc, finding, members)?;
    add_text(alloc, "word", finding.slice(), members)
}

/// Gives the address of a contradiction, or of a remark that shows an example.
fn address_of(matter: Matter) -> Option<Addr>
    ensures { result ≡ spec.address_of matter }
{
    match matter {
        Matter::Contradiction(_, address) => Some(address),
        Matter::Remark(_, example) => example.map(|shown| shown.address),
        Matter::Fault(..) | Matter::Warning(_) => None,
    }
}

/// Adds an address, if there is one.
fn add_address(
    alloc: Global,
    address: Option<Addr>,
    members: &mut Map<String, Value>,
) -> Result<(), AllocError>
    ensures { OnOk result (members_view members.new.entries ≡ put_address address (members_view members.old.entries)) }
{
    match address {
        Some(address) => {
            let address = format!(in alloc; "{address}")?;
            put(members, alloc, "address", Value::String(address))
        }
        None => Ok(()),
    }
}

/// Adds a directory, if there is one.
fn add_directory(
    alloc: Global,
    directory: Option<&Path>,
    members: &mut Map<String, Value>,
) -> Result<(), AllocError>
    ensures { OnOk result (members_view members.new.entries ≡ put_directory (option_copied directory.entry) (members_view members.old.entries)) }
{
    match directory {
        Some(directory) => add_text(alloc, "directory", directory.text(), members),
        None => Ok(()),
    }
}

/// Adds another line, if there is one.
fn add_other(
    alloc: Global,
    origins: &[Origin],
    other: Option<u32>,
    members: &mut Map<String, Value>,
) -> Result<(), AllocError>
    ensures { OnOk result (members_view members.new.entries ≡ put_other origins.now other (members_view members.old.entries)) }
{
    match other {
        Some(other) => add_number(alloc, "other", own_place(origins, "", other).line, members),
        None => Ok(()),
    }
}

/// Adds the path of the file that has another line, if there is one, and several texts were read as one.
fn add_other_path(
    alloc: Global,
    origins: &[Origin],
    other: Option<u32>,
    members: &mut Map<String, Value>,
) -> Result<(), AllocError>
    ensures { OnOk result (members_view members.new.entries ≡ put_other_path origins.now other (members_view members.old.entries)) }
{
    let Some(other) = other else { return Ok(()) };
    match origin_of(origins, other) {
        Some(origin) => add_text(alloc, "other_path", origin.path.as_str(), members),
        None => Ok(()),
    }
}

/// Adds what a finding says.
fn add_message(
    alloc: Global,
    finding: &Finding,
    members: &mut Map<String, Value>,
) -> Result<(), AllocError>
    requires { HasSlice finding.now }
    ensures { OnOk result (members_view members.new.entries
        ≡ put_member (codes "text") (string (message_of finding.now)) (members_view members.old.entries)) }
{
    let mut message = String::new(alloc);
    push_message(finding, &mut message)?;
    put(members, alloc, "text", Value::String(message))
}

/// Adds a member that is a text.
pub fn add_text(
    alloc: Global,
    key: &str,
    text: &str,
    members: &mut Map<String, Value>,
) -> Result<(), AllocError>
    ensures { OnOk result (members_view members.new.entries ≡ put_member key.now (string text.now) (members_view members.old.entries)) }
{
    let text = Value::try_from_str(alloc, text)?;
    put(members, alloc, key, text)
}

/// Adds a member that is a number.
pub fn add_number(
    alloc: Global,
    key: &str,
    value: usize,
    members: &mut Map<String, Value>,
) -> Result<(), AllocError>
    ensures { OnOk result (members_view members.new.entries ≡ put_member key.now (number (unsigned value)) (members_view members.old.entries)) }
{
    put(members, alloc, key, Value::from(value))
}

/// Adds JSON, with each control character by its code.
pub fn push_json(json: &str, text: &mut String) -> Result<(), AllocError>
    ensures { OnOk result (string_bytes text.new ≡ string_bytes text.old ++ flat_map spec.shown_in_json (chars json.now)) }
{
    for c in json.chars() {
        push_json_character(c, text)?;
    }
    Ok(())
}

/// Adds a character of JSON.
fn push_json_character(c: char, text: &mut String) -> Result<(), AllocError>
    ensures { OnOk result (string_bytes text.new ≡ string_bytes text.old ++ spec.shown_in_json c) }
{
    if c.is_control() {
        let code = c as u32;
        write!(text, "\\u00{code:02x}")
    } else {
        text.push(c)
    }
}
