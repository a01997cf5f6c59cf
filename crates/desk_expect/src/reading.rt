//! Expectations, as a text writes them.

ghost use Rattle.std.specs.Prelude.{◌≡◌, ◌++◌, ◌∷◌, ℕ, IfOk, OnOk, map};
ghost use Rattle.std.specs.List.{flat_map, list_any};
ghost use Rattle.std.specs.String.{string_bytes};
ghost use Rattle.desk_text.specs.Lines.{IsReadable};
ghost use Rattle.desk_text.specs.Reading.{ReadsAs};
ghost use Rattle.desk_text.specs.Views.{word_of};
ghost use Rattle.desk_text.specs.Word.{word_value};
ghost use Rattle.desk_expect.specs.Meaning.{are_for};
ghost use Rattle.desk_expect.specs.Names as by_name;
ghost use Rattle.desk_expect.specs.PrivateReading.{HoldsWhom, IsAudienceOf, ReadsAudience, ReadsLine, ReadsScopes, subject_with};
ghost use Rattle.desk_expect.specs.Reading as spec;
ghost use Rattle.desk_expect.specs.Reading.{ReadsExpectations};
ghost use Rattle.desk_expect.specs.Spans.{is_held};

use crate::action::Action;
use crate::audience::Audience;
use crate::expectation::Expectation;
use crate::faults::make_fault;
use crate::form::{Form, form_of, is_everybody, named};
use crate::meaning::{has_unknown, spans_of_names};
use crate::names::is_bad_address;
use crate::rules::{PlacedFault, Rule};
use crate::scope::Scope;
use crate::span::Span;
use crate::spans::SpanSet;
use desk_netgroup::Netgroups;
use desk_tables::Hosts;
use desk_text::{Addr, Line, ReadError, Sequence, Text, Word, logical_lines, unquote, words};
use std::alloc::{AllocError, Global};

/// Reads expectations, one a line: WHOM [but NAME..] may [not] ACTION DIR.. WHOM is `everybody`, or names as in a line of an
/// exports file, networks and ranges of addresses. Names are looked up in these netgroups and hosts. The first faulty line is
/// refused with the first rule that it breaks. The text has at most 4,294,967,294 bytes.
pub fn read_expectations(
    alloc: Global,
    text: &str,
    netgroups: &Netgroups,
    hosts: &Hosts,
) -> Result<Sequence<Expectation>, ReadError<PlacedFault>>
    requires { IsReadable text.now }
    ensures { ReadsExpectations netgroups.now hosts.now text.now result }
{
    let lines = logical_lines(alloc, text)?;
    let mut found = Sequence::new(alloc);
    for line in &lines {
        match ReadError::split(read_line(alloc, netgroups, hosts, line))? {
            Ok(expectation) => found.push(expectation)?,
            Err(rule) => {
                drop(found);
                return Err(ReadError::Fault(make_fault(alloc, netgroups, hosts, line, rule)?));
            }
        }
    }
    Ok(found)
}

/// Reads what a line expects, or the first rule that it breaks.
pub(crate) fn read_line(
    alloc: Global,
    netgroups: &Netgroups,
    hosts: &Hosts,
    line: &Line,
) -> Result<Expectation, ReadError<Rule>>
    ensures { ReadsLine netgroups.now hosts.now (spec.line_answer netgroups.now hosts.now line.now) result }
{
    let words = line_values(alloc, line)?;
    read_words(alloc, netgroups, hosts, line.number(), words.as_slice())
}

/// Reads the values of the words of a line. A quote that does not close is a fault.
pub(crate) fn line_values(alloc: Global, line: &Line) -> Result<Vec<Text>, ReadError<Rule>>
    ensures { ReadsAs (λ v. v.items) result (spec.line_values line.now) }
{
    match words(alloc, line) {
        Ok(words) => Ok(values_of(alloc, words.as_slice())?),
        Err(error) => Err(error.map_fault(|_| Rule::OpenQuote)),
    }
}

/// Resolves the quotes and escapes of words.
fn values_of(alloc: Global, words: &[Word]) -> Result<Vec<Text>, AllocError>
    ensures { IfOk result (λ v. v.items ≡ map (λ w. word_value w.raw) (map word_of words.now)) }
{
    let mut values = Vec::new(alloc);
    for word in words {
        let value = unquote(alloc, word)?;
        values.push(Text::from_string(value))?;
    }
    Ok(values)
}

/// Reads what a line of these words expects, or the first rule that it breaks.
fn read_words(
    alloc: Global,
    netgroups: &Netgroups,
    hosts: &Hosts,
    number: u32,
    words: &[Text],
) -> Result<Expectation, ReadError<Rule>>
    ensures { ReadsLine netgroups.now hosts.now (spec.words_answer netgroups.now hosts.now number words.now) result }
{
    let Some(form) = form_of(words) else {
        return Err(ReadError::Fault(Rule::Form));
    };
    let Some(action) = Action::of(form.action) else {
        return Err(ReadError::Fault(Rule::BadAction));
    };
    let text = joined(alloc, words)?;
    let scopes = read_scopes(alloc, form.dirs)?;
    match read_audience(alloc, netgroups, hosts, form.whom, form.but) {
        Ok(audience) => Ok(Expectation {
            line: number,
            text,
            audience,
            forbids: form.forbids,
            action,
            scopes,
        }),
        Err(error) => {
            drop(scopes);
            drop(text);
            Err(error)
        }
    }
}

/// Joins words, with a blank between them.
fn joined(alloc: Global, words: &[Text]) -> Result<Text, AllocError>
    ensures { IfOk result (λ text. text ≡ spec.joined words.now) }
{
    let mut text = String::new(alloc);
    let Some((first, others)) = words.split_first() else {
        return Ok(Text::from_string(text));
    };
    text.push_str(first.as_str())?;
    push_words(&mut text, others)?;
    Ok(Text::from_string(text))
}

/// Adds words, each after a blank.
fn push_words(text: &mut String, words: &[Text]) -> Result<(), AllocError>
    ensures { OnOk result (string_bytes text.new ≡ string_bytes text.old ++ flat_map (λ word. 32 ∷ word) words.now) }
{
    for word in words {
        text.push_str(" ")?;
        text.push_str(word.as_str())?;
    }
    Ok(())
}

/// Reads the directories of a line.
fn read_scopes(alloc: Global, dirs: &[Text]) -> Result<Sequence<Scope>, ReadError<Rule>>
    ensures { ReadsScopes dirs.now result }
{
    let mut scopes = Sequence::new(alloc);
    for dir in dirs {
        match Scope::read(alloc, dir.as_str())? {
            Some(scope) => scopes.push(scope)?,
            None => return Err(ReadError::Fault(Rule::BadPath)),
        }
    }
    Ok(scopes)
}

/// Reads whom a line is about, by its words before and after `but`.
fn read_audience(
    alloc: Global,
    netgroups: &Netgroups,
    hosts: &Hosts,
    whom: &[Text],
    but: &[Text],
) -> Result<Audience, ReadError<Rule>>
    ensures { ReadsAudience netgroups.now hosts.now whom.now but.now result }
{
    if has_bad_address(named(whom)) || has_bad_address(but) {
        return Err(ReadError::Fault(Rule::BadAddress));
    }
    if has_unknown(alloc, netgroups, hosts, named(whom))?
        || has_unknown(alloc, netgroups, hosts, but)?
    {
        return Err(ReadError::Fault(Rule::UnknownName));
    }
    let audience = audience_of(alloc, netgroups, hosts, whom, but)?;
    if audience.is_nobody() {
        drop(audience);
        return Err(ReadError::Fault(Rule::Nobody));
    }
    Ok(audience)
}

/// Makes the audience of a line, by its words before and after `but`.
fn audience_of(
    alloc: Global,
    netgroups: &Netgroups,
    hosts: &Hosts,
    whom: &[Text],
    but: &[Text],
) -> Result<Audience, AllocError>
    ensures { IfOk result (IsAudienceOf netgroups.now hosts.now (subject_with whom.now but.now)) }
{
    let whom = whom_set(alloc, netgroups, hosts, whom)?;
    let but = set_of_names(alloc, netgroups, hosts, but)?;
    Audience::new(alloc, whom, but)
}

/// Makes the set of all addresses, or of those that the names of a line mean.
fn whom_set(
    alloc: Global,
    netgroups: &Netgroups,
    hosts: &Hosts,
    whom: &[Text],
) -> Result<SpanSet, AllocError>
    ensures { IfOk result (HoldsWhom netgroups.now hosts.now whom.now) }
{
    if !is_everybody(whom) {
        return set_of_names(alloc, netgroups, hosts, whom);
    }
    let all = Span {
        first: Addr::from_number(0),
        last: Addr::from_number(u32::MAX),
    };
    SpanSet::of(alloc, &[all])
}

/// Makes the set of the addresses that names mean.
fn set_of_names(
    alloc: Global,
    netgroups: &Netgroups,
    hosts: &Hosts,
    names: &[Text],
) -> Result<SpanSet, AllocError>
    ensures { IfOk result (λ set. (address : ℕ) → is_held set address ≡ are_for netgroups.now hosts.now names.now address) }
{
    let spans = spans_of_names(alloc, netgroups, hosts, names)?;
    SpanSet::of(alloc, spans.as_slice())
}

fn has_bad_address(names: &[Text]) -> bool
    ensures { result ≡ list_any by_name.is_bad_address names.now }
{
    names.iter().any(|name| is_bad_address(name.as_str()))
}
