//! The parameters of a query.

ghost use Rattle.std.specs.Prelude.{◌≡◌, ◌++◌, ◌∷◌, [], IfOk, List, ℕ, Option, Some, map, option_and_then};
ghost use Rattle.std.specs.Option.{option_map};
ghost use Rattle.desk_text.specs.Bytes.{read_decimal};
ghost use Rattle.desk_http_requests.specs.Calls.{largest_id, one_of};
ghost use Rattle.desk_http_requests.specs.Parameters as spec;
ghost use Rattle.desk_http_requests.specs.PrivateParameters as private;
ghost use Rattle.desk_http_requests.specs.Parameters.{at_most_one, each_read, pairs, text_of};
ghost use Rattle.desk_http_requests.specs.Target.{query_of};

use crate::target::query_of;
use desk_text::{Text, read_decimal};
use form_urlencoded::{decode, raw_pairs};
use std::alloc::{AllocError, Global};

/// A parameter: its name and its value.
#[derive(Drop)]
pub struct Parameter {
    pub name: Text,
    pub value: Text,
}

/// Decodes the text of a name or a value.
fn decoded(alloc: Global, encoded: &[u8]) -> Result<Text, AllocError>
    ensures { IfOk result (λ text. text ≡ text_of encoded.now) }
{
    let text = decode(alloc, encoded)?.into_owned(alloc)?;
    Ok(Text::from_string(text))
}

/// Lists the parameters of a target's query, in their order. Each is decoded once.
pub fn parameters_of(alloc: Global, target: &[u8]) -> Result<Vec<Parameter>, AllocError>
    ensures { IfOk result (λ parameters. pairs parameters.items ≡ spec.parameters_of (query_of target.now)) }
{
    parameters_in(alloc, query_of(target))
}

/// Lists the parameters of a query.
#[tactic(auto, unfolding(crate::specs::Parameters::parameters_of))]
fn parameters_in(alloc: Global, query: &[u8]) -> Result<Vec<Parameter>, AllocError>
    ensures { IfOk result (λ parameters. pairs parameters.items ≡ spec.parameters_of query.now) }
{
    let mut parameters = Vec::new(alloc);
    for (name, value) in raw_pairs(query) {
        let name = decoded(alloc, name)?;
        let value = decoded(alloc, value)?;
        parameters.push(Parameter { name, value })?;
    }
    Ok(parameters)
}

/// How often a parameter is given, and its value if that is once.
#[derive(Clone, Copy)]
pub enum Given<'a> {
    Missing,
    Once(&'a str),
    Many,
}

/// Finds how often a parameter is given, and its value if that is once.
fn value_given<'a>(parameters: &'a [Parameter], name: &str) -> Given<'a>
    ensures { private.IsGiven (spec.values_of name.now (pairs parameters.now)) result }
{
    let mut given = Given::Missing;
    for parameter in parameters {
        if parameter.name.as_str() == name {
            given = match given {
                Given::Missing => Given::Once(parameter.value.as_str()),
                _ => Given::Many,
            };
        }
    }
    given
}

/// Finds the only value of a parameter.
pub(crate) fn one_of<'a>(parameters: &'a [Parameter], name: &str) -> Option<&'a str>
    ensures { option_map (λ text. text.now) result ≡ one_of name.now (pairs parameters.now) }
{
    match value_given(parameters, name) {
        Given::Once(value) => Some(value),
        _ => None,
    }
}

/// Reads a number that may be left out. `None` if it cannot be read, or is given twice.
pub(crate) fn number_if_given(
    parameters: &[Parameter],
    name: &str,
    most: u32,
) -> Option<Option<u32>>
    ensures { result ≡ at_most_one (read_decimal most) (spec.values_of name.now (pairs parameters.now)) }
{
    match value_given(parameters, name) {
        Given::Missing => Some(None),
        Given::Once(text) => match read_decimal(text, most) {
            Some(number) => Some(Some(number)),
            None => None,
        },
        Given::Many => None,
    }
}

/// Reads the only value of a parameter as a number.
pub(crate) fn number_in(parameters: &[Parameter], name: &str, most: u32) -> Option<u32>
    ensures { result ≡ option_and_then (read_decimal most) (one_of name.now (pairs parameters.now)) }
{
    match one_of(parameters, name) {
        Some(text) => read_decimal(text, most),
        None => None,
    }
}

/// Reads all values of a parameter as numbers. `None` if one cannot be read.
pub(crate) fn numbers_in(
    alloc: Global,
    parameters: &[Parameter],
    name: &str,
    most: u32,
) -> Result<Option<Vec<u32>>, AllocError>
    ensures { IfOk result (λ numbers. option_map (λ v. v.items) numbers
        ≡ each_read (read_decimal most) (spec.values_of name.now (pairs parameters.now))) }
{
    let mut numbers = Some(Vec::new(alloc));
    for parameter in parameters {
        if parameter.name.as_str() == name {
            numbers = with_number(numbers, parameter.value.as_str(), most)?;
        }
    }
    Ok(numbers)
}

/// Adds the number that a text writes. `None` if it writes none, or there was none before.
fn with_number(
    numbers: Option<Vec<u32>>,
    text: &str,
    most: u32,
) -> Result<Option<Vec<u32>>, AllocError>
    ensures { IfOk result (λ more. option_map (λ v. v.items) more
        ≡ private.put_last (option_map (λ v. v.items) numbers) (read_decimal most text.now)) }
{
    let Some(mut numbers) = numbers else {
        return Ok(None);
    };
    let Some(number) = read_decimal(text, most) else {
        return Ok(None);
    };
    numbers.push(number)?;
    Ok(Some(numbers))
}
