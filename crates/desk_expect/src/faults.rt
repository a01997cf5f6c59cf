//! The place of the slice at fault of a line.

ghost use Rattle.std.specs.Prelude.{◌≡◌, ◌≤◌, ℕ, IfOk, List, Ok, is_none, length};
ghost use Rattle.std.specs.List.{IsAmong, position_or_len};
ghost use Rattle.desk_text.specs.Lines.{logical_lines};
ghost use Rattle.desk_text.specs.Place.{IsOfLine, LiesIn};
ghost use Rattle.desk_expect.specs.Faults as spec;
ghost use Rattle.desk_expect.specs.Faults.{IsAtWord};
ghost use Rattle.desk_expect.specs.Form.{IsFormOf};
ghost use Rattle.desk_expect.specs.PrivateFaults.{IsFirst, first_among, test_of};
ghost use Rattle.desk_expect.specs.Reading as reading;
ghost use Rattle.desk_expect.specs.Scope.{read_scope};

use crate::form::{Form, form_of, has_subject, index_of, named};
use crate::meaning::is_unknown;
use crate::names::is_bad_address;
use crate::reading::line_values;
use crate::rules::{PlacedFault, Rule};
use crate::scope::Scope;
use desk_netgroup::Netgroups;
use desk_tables::Hosts;
use desk_text::{Line, LineFault, Place, ReadError, Text, words};
use std::alloc::{AllocError, Global};

/// Makes the fault of a line that breaks this rule first, at its place.
pub(crate) fn make_fault(
    alloc: Global,
    netgroups: &Netgroups,
    hosts: &Hosts,
    line: &Line,
    rule: Rule,
) -> Result<PlacedFault, AllocError>
    ensures fault { IfOk result (λ made. made.fault ≡ record { line = line.now.number; rule = rule }) }
    ensures lies { IfOk result (λ made. (text : List ℕ) → IsAmong (logical_lines text) line.now → LiesIn text made.place) }
    ensures own { IfOk result (λ made. (text : List ℕ) → IsAmong (logical_lines text) line.now → IsOfLine line.now made.place) }
    ensures word { IfOk result (λ made. (words : List (List ℕ)) → reading.line_values line.now ≡ Ok words → IsFirst netgroups.now hosts.now words rule
        → IsAtWord line.now (spec.word_at_fault netgroups.now hosts.now words rule) made.place) }
{
    let index = word_at_fault(alloc, netgroups, hosts, line, rule)?;
    let place = place_of(alloc, line, index)?;
    Ok(PlacedFault {
        fault: LineFault {
            line: line.number(),
            rule,
        },
        place,
    })
}

/// Makes the place of a word of a line, or of the quote that does not close.
fn place_of(alloc: Global, line: &Line, index: usize) -> Result<Place, AllocError>
    ensures lies { IfOk result (λ place. (text : List ℕ) → IsAmong (logical_lines text) line.now → LiesIn text place) }
    ensures own { IfOk result (λ place. (text : List ℕ) → IsAmong (logical_lines text) line.now → IsOfLine line.now place) }
    ensures word { IfOk result (IsAtWord line.now index) }
{
    match words(alloc, line) {
        Ok(words) => match words.get(index) {
            Some(word) => Ok(Place::of_word(line, word)),
            None => Ok(Place::of_first_line(line)),
        },
        Err(ReadError::Fault(_)) => Ok(open_quote(line)),
        Err(ReadError::Memory) => Err(AllocError),
    }
}

/// Makes the place of the quote that does not close.
fn open_quote(line: &Line) -> Place
    ensures lies { (text : List ℕ) → IsAmong (logical_lines text) line.now → LiesIn text result }
    ensures own { (text : List ℕ) → IsAmong (logical_lines text) line.now → IsOfLine line.now result }
{
    match Place::of_open_quote(line) {
        Some(place) => place,
        None => Place::of_first_line(line),
    }
}

/// Finds the word of a line that breaks a rule. (Of a quote that does not close any will do.)
fn word_at_fault(
    alloc: Global,
    netgroups: &Netgroups,
    hosts: &Hosts,
    line: &Line,
    rule: Rule,
) -> Result<usize, AllocError>
    ensures { IfOk result (λ index. (words : List (List ℕ)) → reading.line_values line.now ≡ Ok words → IsFirst netgroups.now hosts.now words rule
        → index ≡ spec.word_at_fault netgroups.now hosts.now words rule) }
{
    match ReadError::split(line_values(alloc, line))? {
        Ok(values) => word_among(alloc, netgroups, hosts, values.as_slice(), rule),
        Err(_) => Ok(0),
    }
}

/// Finds the word that breaks a rule among these.
fn word_among(
    alloc: Global,
    netgroups: &Netgroups,
    hosts: &Hosts,
    words: &[Text],
    rule: Rule,
) -> Result<usize, AllocError>
    ensures { IfOk result (λ index. IsFirst netgroups.now hosts.now words.now rule → index ≡ spec.word_at_fault netgroups.now hosts.now words.now rule) }
{
    match form_of(words) {
        Some(form) => word_in_form(alloc, netgroups, hosts, words, &form, rule),
        None => Ok(word_out_of_form(words)),
    }
}

/// Finds the word at which a line stops having the form of one: a `may` or `but` with nothing before it, a `but` with nothing
/// after it, or the last word, after which more has to stand.
fn word_out_of_form(words: &[Text]) -> usize
    ensures { result ≡ spec.word_out_of_form words.now }
{
    let may = index_of(words, "may");
    if may < words.len() {
        let subject = &words[..may];
        if !has_subject(subject) {
            return index_of(subject, "but");
        }
    }
    words.len().saturating_sub(1)
}

/// Finds the word that breaks a rule in a line with the form of one.
fn word_in_form(
    alloc: Global,
    netgroups: &Netgroups,
    hosts: &Hosts,
    words: &[Text],
    form: &Form<'_>,
    rule: Rule,
) -> Result<usize, AllocError>
    requires { IsFormOf words.now form.now }
    ensures { IfOk result (λ index. index ≡ spec.word_at_fault netgroups.now hosts.now words.now rule) }
{
    let first_dir = words.len() - form.dirs.len();
    match rule {
        Rule::Form => Ok(word_out_of_form(words)),
        Rule::BadAction => Ok(first_dir.saturating_sub(1)),
        Rule::BadPath => Ok(first_dir + bad_dir(alloc, form.dirs)?),
        Rule::BadAddress | Rule::UnknownName => name_at_fault(alloc, netgroups, hosts, form, rule),
        Rule::OpenQuote | Rule::Nobody => Ok(0),
    }
}

/// Finds the first directory that cannot be read, or how many there are.
fn bad_dir(alloc: Global, dirs: &[Text]) -> Result<usize, AllocError>
    ensures first { IfOk result (λ place. place ≡ position_or_len (λ dir. is_none (read_scope dir)) dirs.now) }
    ensures bound { IfOk result (λ place. place ≤ length dirs.now) }
{
    for (place, dir) in dirs.iter().enumerate() {
        let scope = Scope::read(alloc, dir.as_str())?;
        let is_bad = scope.is_none();
        drop(scope);
        if is_bad {
            return Ok(place);
        }
    }
    Ok(dirs.len())
}

/// Finds the first name that breaks a rule, by its place among the words.
fn name_at_fault(
    alloc: Global,
    netgroups: &Netgroups,
    hosts: &Hosts,
    form: &Form<'_>,
    rule: Rule,
) -> Result<usize, AllocError>
    ensures { IfOk result (λ index. index ≡ first_among (test_of netgroups.now hosts.now rule) form.now.whom.now form.now.but.now) }
{
    let names = named(form.whom);
    let place = first_at_fault(alloc, netgroups, hosts, names, rule)?;
    if place < names.len() {
        return Ok(place);
    }
    Ok(form.whom.len() + 1 + first_at_fault(alloc, netgroups, hosts, form.but, rule)?)
}

/// Finds the first of names that breaks a rule, or how many there are.
fn first_at_fault(
    alloc: Global,
    netgroups: &Netgroups,
    hosts: &Hosts,
    names: &[Text],
    rule: Rule,
) -> Result<usize, AllocError>
    ensures first { IfOk result (λ place. place ≡ position_or_len (test_of netgroups.now hosts.now rule) names.now) }
    ensures bound { IfOk result (λ place. place ≤ length names.now) }
{
    for (place, name) in names.iter().enumerate() {
        if is_at_fault(alloc, netgroups, hosts, name.as_str(), rule)? {
            return Ok(place);
        }
    }
    Ok(names.len())
}

/// Tests whether a name breaks a rule: it is a bad address, or not known.
fn is_at_fault(
    alloc: Global,
    netgroups: &Netgroups,
    hosts: &Hosts,
    name: &str,
    rule: Rule,
) -> Result<bool, AllocError>
    ensures { IfOk result (λ bad. bad ≡ test_of netgroups.now hosts.now rule name.now) }
{
    match rule {
        Rule::BadAddress => Ok(is_bad_address(name)),
        _ => is_unknown(alloc, netgroups, hosts, name),
    }
}
