//! What breaks expectations, as it is printed as JSON, for programs.

ghost use Rattle.std.specs.Prelude.{◌≡◌, ◌++◌, [], IfOk, OnOk, codes, map};
ghost use Rattle.std.specs.List.{flat_map};
ghost use Rattle.std.specs.String.{string_bytes};
ghost use Rattle.serde_json.specs.Data.{boolean, no_members, object, put as put_member, string};
ghost use Rattle.serde_json.specs.View.{members_view, view};
ghost use Rattle.serde_json.specs.Written.{compact_text};
ghost use Rattle.desk_text.specs.Address.{addr_text, number_of};
ghost use Rattle.desk_policy.specs.Prints.{verdict_line};
ghost use Rattle.desk_policy.specs.Verdict.{verdict_result};
ghost use Rattle.desk_impact.specs.Places.{place_of};
ghost use Rattle.desk_expect.specs.Judging.{judged_section};
ghost use Rattle.desk_expect.specs.Report.{broken_value};
ghost use Rattle.cli_expectations.specs.BreachesJson as spec;
ghost use Rattle.cli_expectations.specs.BreachesJson.{breach_value};
ghost use Rattle.cli_expectations.specs.PrivateBreachesJson as private;

use desk_check::{add_number, add_text, push_json};
use desk_expect::{Broken, Expectation, Judged};
use desk_impact::{Place, Section};
use desk_policy::{Policy, Verdict, verdict_text};
use desk_text::{Addr, Path};
use desk_who::Run;
use serde_json::{Map, Value, put};
use std::alloc::{AllocError, Global};

/// A range of addresses for which an expectation is broken at a place.
#[derive(Clone, Copy)]
pub struct Breach<'a> {
    pub expectation: &'a Expectation,
    pub place: Place<'a>,
    pub range: Run<Judged<'a>>,
}

/// Prints what breaks the expectations of a file as one compact JSON list and a line end, an object for each range: `[]` if nothing
/// does. An object has `by` (`mountd`, if the verdict is that of the server alone), `dir`, `expectation` (the words of its line),
/// `first`, `kind` (`broken`), `last`, `line`, `others` (whether it is about the other directories of `dir`), `path` and `verdict`.
pub fn breaches_json(
    alloc: Global,
    policy: &Policy,
    file: &str,
    broken: &[Broken<'_>],
) -> Result<String, AllocError>
    ensures { IfOk result (λ text. string_bytes text ≡ spec.breaches_json policy.now file.now (map broken_value broken.now)) }
{
    let breaches = breaches_of(alloc, broken)?;
    list_text(alloc, policy, file, breaches.as_slice())
}

/// Gathers the ranges of what is broken, in their order.
fn breaches_of<'a>(alloc: Global, broken: &[Broken<'a>]) -> Result<Vec<Breach<'a>>, AllocError>
    ensures { IfOk result (λ found. map breach_value found.items ≡ spec.breaches_in (map broken_value broken.now)) }
{
    let mut found = Vec::new(alloc);
    for one in broken {
        push_broken(one, &mut found)?;
    }
    Ok(found)
}

/// Adds those of an expectation.
pub(crate) fn push_broken<'a>(
    broken: &Broken<'a>,
    found: &mut Vec<Breach<'a>>,
) -> Result<(), AllocError>
    ensures { OnOk result (map breach_value found.new.items ≡ map breach_value found.old.items ++ spec.breaches_of (broken_value broken.now)) }
{
    for section in broken.sections.as_slice() {
        push_section(broken.expectation, section, found)?;
    }
    Ok(())
}

/// Adds those of a section.
fn push_section<'a>(
    expectation: &'a Expectation,
    section: &Section<'a, Judged<'a>>,
    found: &mut Vec<Breach<'a>>,
) -> Result<(), AllocError>
    ensures { OnOk result (map breach_value found.new.items
        ≡ map breach_value found.old.items ++ spec.breaches_at expectation.now (judged_section section.now)) }
{
    for range in section.ranges.as_slice() {
        found.push(Breach {
            expectation,
            place: section.place,
            range: *range,
        })?;
    }
    Ok(())
}

/// Prints a list.
fn list_text(
    alloc: Global,
    policy: &Policy,
    file: &str,
    breaches: &[Breach<'_>],
) -> Result<String, AllocError>
    ensures { IfOk result (λ text. string_bytes text ≡ private.list_of policy.now file.now breaches.now) }
{
    let mut text = String::new(alloc);
    text.push('[')?;
    push_elements(alloc, policy, file, breaches, &mut text)?;
    text.push_str("]\n")?;
    Ok(text)
}

/// Adds the objects of a list.
fn push_elements(
    alloc: Global,
    policy: &Policy,
    file: &str,
    breaches: &[Breach<'_>],
    text: &mut String,
) -> Result<(), AllocError>
    ensures { OnOk result (string_bytes text.new ≡ string_bytes text.old ++ private.elements_of policy.now file.now breaches.now) }
{
    match breaches {
        [] => Ok(()),
        [first, more @ ..] => {
            push_object(alloc, policy, file, *first, text)?;
            push_later(alloc, policy, file, more, text)
        }
    }
}

/// Adds those after the first.
fn push_later(
    alloc: Global,
    policy: &Policy,
    file: &str,
    breaches: &[Breach<'_>],
    text: &mut String,
) -> Result<(), AllocError>
    ensures { OnOk result (string_bytes text.new
        ≡ string_bytes text.old ++ flat_map (private.later_of policy.now file.now) breaches.now) }
{
    for breach in breaches {
        text.push(',')?;
        push_object(alloc, policy, file, *breach, text)?;
    }
    Ok(())
}

/// Adds an object.
fn push_object(
    alloc: Global,
    policy: &Policy,
    file: &str,
    breach: Breach<'_>,
    text: &mut String,
) -> Result<(), AllocError>
    ensures { OnOk result (string_bytes text.new ≡ string_bytes text.old ++ spec.object_text policy.now file.now (breach_value breach.entry)) }
{
    let object = object_text(alloc, policy, file, breach)?;
    push_json(object.as_str(), text)
}

/// Writes an object.
fn object_text(
    alloc: Global,
    policy: &Policy,
    file: &str,
    breach: Breach<'_>,
) -> Result<String, AllocError>
    ensures { IfOk result (λ text. string_bytes text ≡ compact_text (spec.value_of policy.now file.now (breach_value breach.entry))) }
{
    let value = value_of(alloc, policy, file, breach)?;
    value.to_string(alloc)
}

/// Makes an object.
fn value_of(
    alloc: Global,
    policy: &Policy,
    file: &str,
    breach: Breach<'_>,
) -> Result<Value, AllocError>
    ensures { IfOk result (λ value. view value ≡ spec.value_of policy.now file.now (breach_value breach.entry)) }
{
    let mut members = Map::new(alloc);
    add_members(alloc, policy, file, breach, &mut members)?;
    Ok(Value::Object(members))
}

/// Adds the members of a breach to an object that has none. (The map is lent, so that its proof is cheap.)
fn add_members(
    alloc: Global,
    policy: &Policy,
    file: &str,
    breach: Breach<'_>,
    members: &mut Map<String, Value>,
) -> Result<(), AllocError>
    requires { members.old.entries ≡ [] }
    ensures { OnOk result (object (members_view members.new.entries) ≡ spec.value_of policy.now file.now (breach_value breach.entry)) }
{
    add_by(alloc, breach.range.value.by_server, members)?;
    add_text(alloc, "dir", dir_of(breach.place).text(), members)?;
    add_text(
        alloc,
        "expectation",
        breach.expectation.text.as_str(),
        members,
    )?;
    add_address(alloc, "first", breach.range.first, members)?;
    add_text(alloc, "kind", "broken", members)?;
    add_address(alloc, "last", breach.range.last, members)?;
    add_number(alloc, "line", breach.expectation.line as usize, members)?;
    add_flag(alloc, "others", is_others(breach.place), members)?;
    add_text(alloc, "path", file, members)?;
    add_verdict(alloc, policy, &breach.range.value.verdict, members)
}

/// Adds who gives the verdict, if it is that of the server alone, to an object that has no members.
fn add_by(
    alloc: Global,
    by_server: bool,
    members: &mut Map<String, Value>,
) -> Result<(), AllocError>
    requires { members.old.entries ≡ [] }
    ensures { OnOk result (members_view members.new.entries ≡ spec.with_by by_server no_members) }
{
    if by_server {
        add_text(alloc, "by", "mountd", members)?;
    }
    Ok(())
}

/// Returns the directory of a place.
fn dir_of<'a>(place: Place<'a>) -> &'a Path
    ensures { result.now ≡ spec.dir_of (place_of place.entry) }
{
    match place {
        Place::Directory(dir) => dir,
        Place::Others(root) => root,
    }
}

/// Tests whether a place is the other directories of its directory.
fn is_others(place: Place<'_>) -> bool
    ensures { result ≡ spec.is_others (place_of place.entry) }
{
    match place {
        Place::Directory(_) => false,
        Place::Others(_) => true,
    }
}

/// Adds a member that is an address.
fn add_address(
    alloc: Global,
    key: &str,
    address: Addr,
    members: &mut Map<String, Value>,
) -> Result<(), AllocError>
    ensures { OnOk result (members_view members.new.entries
        ≡ put_member key.now (string (addr_text (number_of address))) (members_view members.old.entries)) }
{
    let text = format!(in alloc; "{address}")?;
    add_text(alloc, key, text.as_str(), members)
}

/// Adds the verdict.
fn add_verdict(
    alloc: Global,
    policy: &Policy,
    verdict: &Verdict<'_>,
    members: &mut Map<String, Value>,
) -> Result<(), AllocError>
    ensures { OnOk result (members_view members.new.entries
        ≡ put_member (codes "verdict") (string (verdict_line policy.now (verdict_result verdict.now))) (members_view members.old.entries)) }
{
    let text = verdict_text(alloc, policy, verdict, &None)?;
    add_text(alloc, "verdict", text.as_str(), members)
}

/// Adds a member that is true or false.
fn add_flag(
    alloc: Global,
    key: &str,
    flag: bool,
    members: &mut Map<String, Value>,
) -> Result<(), AllocError>
    ensures { OnOk result (members_view members.new.entries ≡ put_member key.now (boolean flag) (members_view members.old.entries)) }
{
    put(members, alloc, key, Value::from(flag))
}
