//! What breaks expectations, as a log of SARIF.

ghost use Rattle.std.specs.Prelude.{◌≡◌, ◌++◌, IfOk, OnOk, map};
ghost use Rattle.std.specs.Option.{option_map};
ghost use Rattle.std.specs.String.{string_bytes};
ghost use Rattle.serde_json.specs.View.{view};
ghost use Rattle.desk_expect.specs.Report.{broken_value};
ghost use Rattle.cli_expectations.specs.BreachesLog as spec;
ghost use Rattle.cli_expectations.specs.NamedLines.{breaking_lines};

use crate::log_rules::{LogRule, all_rule_values};
use crate::named_lines::{NamedLine, breaking_lines};
use cli_output::shown_lines::shown_lines;
use desk_expect::{Broken, push_sections};
use desk_origins::own_place;
use desk_policy::{Policy, exports_file_name, mount_text};
use desk_sarif::{line_place, line_value, log_text, message_value};
use serde_json::{Value, json};
use std::alloc::{AllocError, Global};

/// What stands at a line of the exports that breaks an expectation.
const BREAKS: &str = "a line that breaks it";

/// Prints what breaks the expectations of the file of a path as the results of one log, one for each expectation that is broken. A result
/// has `level` (`error`), one of `locations` (the first physical line of the expectation), `message` (what a report as text has of it),
/// `relatedLocations` (the lines of the exports that break it) and `ruleId`. The lines are those of the exports text of the other path; if
/// there is none, of the exports file of their file system.
pub(crate) fn broken_log(
    alloc: Global,
    policy: &Policy,
    exports: Option<&str>,
    path: &str,
    broken: &[Broken<'_>],
) -> Result<String, AllocError>
    ensures { IfOk result (λ text. string_bytes text
        ≡ spec.broken_log (option_map (λ path. path.now) exports.entry) policy.now path.now (map broken_value broken.now)) }
{
    let rules = all_rule_values(alloc)?;
    let results = broken_results(alloc, policy, exports, path, broken)?;
    log_text(alloc, rules, results)
}

/// Makes the results.
fn broken_results(
    alloc: Global,
    policy: &Policy,
    exports: Option<&str>,
    path: &str,
    broken: &[Broken<'_>],
) -> Result<Vec<Value>, AllocError>
    ensures { IfOk result (λ values. map view values.items
        ≡ map (spec.broken_result (option_map (λ path. path.now) exports.entry) policy.now path.now) (map broken_value broken.now)) }
{
    let mut values = Vec::new(alloc);
    for one in broken {
        values.push(broken_result(alloc, policy, exports, path, one)?)?;
    }
    Ok(values)
}

/// Makes the result of an expectation.
fn broken_result(
    alloc: Global,
    policy: &Policy,
    exports: Option<&str>,
    path: &str,
    broken: &Broken<'_>,
) -> Result<Value, AllocError>
    ensures { IfOk result (λ value. view value
        ≡ spec.broken_result (option_map (λ path. path.now) exports.entry) policy.now path.now (broken_value broken.now)) }
{
    let place = line_place(alloc, path, broken.expectation.line as usize)?;
    let message = broken_message(alloc, policy, broken)?;
    let lines = breaking_values(alloc, policy, exports, broken)?;
    let id = LogRule::Broken.id(alloc)?;
    json!(in alloc; {
        "level": "error",
        "locations": [{"physicalLocation": place}],
        "message": message,
        "relatedLocations": lines,
        "ruleId": id,
    })
}

/// Makes the message of an expectation.
fn broken_message(alloc: Global, policy: &Policy, broken: &Broken<'_>) -> Result<Value, AllocError>
    ensures { IfOk result (λ value. view value ≡ spec.broken_message policy.now (broken_value broken.now)) }
{
    let mut told = String::new(alloc);
    push_words(broken.expectation.text.as_str(), &mut told)?;
    push_sections(alloc, policy, broken, &mut told)?;
    let shown = shown_lines(alloc, without_line_end(told.as_str()))?;
    message_value(alloc, shown.as_str())
}

/// Adds that these words are broken.
fn push_words(words: &str, told: &mut String) -> Result<(), AllocError>
    ensures { OnOk result (string_bytes told.new ≡ string_bytes told.old ++ spec.broken_words words.now) }
{
    write!(told, "broken: {words}\n")
}

/// Drops the line end at the end of a text, if it has one.
fn without_line_end(text: &str) -> &str
    ensures { result.now ≡ spec.without_line_end text.now }
{
    text.strip_suffix('\n').unwrap_or(text)
}

/// Makes the places of the lines that break an expectation.
fn breaking_values(
    alloc: Global,
    policy: &Policy,
    exports: Option<&str>,
    broken: &Broken<'_>,
) -> Result<Vec<Value>, AllocError>
    ensures { IfOk result (λ values. map view values.items
        ≡ map (spec.line_data (option_map (λ path. path.now) exports.entry) policy.now) (breaking_lines (broken_value broken.now))) }
{
    let lines = breaking_lines(alloc, broken)?;
    line_values(alloc, policy, exports, lines.as_slice())
}

/// Makes the places of these lines.
fn line_values(
    alloc: Global,
    policy: &Policy,
    exports: Option<&str>,
    lines: &[NamedLine],
) -> Result<Vec<Value>, AllocError>
    ensures { IfOk result (λ values. map view values.items ≡ map (spec.line_data (option_map (λ path. path.now) exports.entry) policy.now) lines.now) }
{
    let mut values = Vec::new(alloc);
    for line in lines {
        values.push(named_value(alloc, policy, exports, *line)?)?;
    }
    Ok(values)
}

/// Makes the place of a line: in the exports text, or in the exports file of its file system.
fn named_value(
    alloc: Global,
    policy: &Policy,
    exports: Option<&str>,
    named: NamedLine,
) -> Result<Value, AllocError>
    ensures { IfOk result (λ value. view value ≡ spec.line_data (option_map (λ path. path.now) exports.entry) policy.now named) }
{
    match exports {
        Some(path) => breaking_value(alloc, policy, path, named.line),
        None => {
            let name = exports_file_name(alloc, mount_text(policy, named.fs))?;
            breaking_value(alloc, policy, name.as_str(), named.line)
        }
    }
}

/// Makes the place of a line of the file of a path; if several texts were read as one, in its own text.
fn breaking_value(
    alloc: Global,
    policy: &Policy,
    path: &str,
    line: u32,
) -> Result<Value, AllocError>
    ensures { IfOk result (λ value. view value ≡ spec.place_of_line policy.now path.now line) }
{
    let own = own_place(policy.origins(), path, line);
    line_value(alloc, own.path, own.line, BREAKS)
}
