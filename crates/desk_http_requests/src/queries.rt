//! What the parameters of a query say.

ghost use Rattle.std.specs.Prelude.{◌≡◌, ℕ, List, IfOk, Option, map, option_and_then};
ghost use Rattle.std.specs.List.{list_any};
ghost use Rattle.std.specs.Option.{option_map};
ghost use Rattle.std.specs.Str.{bytes_eq};
ghost use Rattle.desk_text.specs.Address.{number_of};
ghost use Rattle.desk_tables.specs.Credentials.{at_most_16};
ghost use Rattle.desk_http_requests.specs.Calls as spec;
ghost use Rattle.desk_service.specs.Questions.{question_of};
ghost use Rattle.desk_http_requests.specs.Parameters.{pairs};

use crate::parameters::{Parameter, number_if_given, numbers_in, one_of};
use crate::routes::Reader;
use desk_core::LAST_REVISION;
use desk_service::Question;
use desk_tables::Cred;
use desk_text::{Addr, Path, ReadError};
use std::alloc::{AllocError, Global};

/// The largest number of a user or a group.
const LARGEST_ID: u32 = 4_294_967_295;

/// Reads the address that is asked about.
fn address_in(parameters: &[Parameter]) -> Option<Addr>
    ensures { option_map number_of result ≡ spec.address_in (pairs parameters.now) }
{
    match one_of(parameters, "host") {
        Some(text) => Addr::read(text).ok(),
        None => None,
    }
}

/// Reads the path that is asked about, which a question lends.
pub fn path_in(alloc: Global, parameters: &[Parameter]) -> Result<Option<Path>, AllocError>
    ensures { IfOk result (λ path. path ≡ spec.path_in (pairs parameters.now)) }
{
    match one_of(parameters, "dir") {
        Some(text) => match Path::read(alloc, text) {
            Ok(path) => Ok(Some(path)),
            Err(ReadError::Fault(_)) => Ok(None),
            Err(ReadError::Memory) => Err(AllocError),
        },
        None => Ok(None),
    }
}

/// Makes a client's credential of its numbers: there is none of more than sixteen groups, and none of groups without a user.
fn cred_in(uid: Option<u32>, gids: &[u32]) -> Option<Option<Cred>>
    ensures { result ≡ option_and_then (spec.cred_in uid) (at_most_16 gids.now) }
{
    match uid {
        Some(uid) => match Cred::of_numbers(uid, gids) {
            Some(cred) => Some(Some(cred)),
            None => None,
        },
        None if gids.is_empty() => Some(None),
        None => None,
    }
}

/// Reads the client's credential, if the query tells one.
pub(crate) fn credential_in(
    alloc: Global,
    parameters: &[Parameter],
) -> Result<Option<Option<Cred>>, AllocError>
    ensures { IfOk result (λ own. own ≡ spec.credential_in (pairs parameters.now)) }
{
    let Some(uid) = number_if_given(parameters, "uid", LARGEST_ID) else {
        return Ok(None);
    };
    match numbers_in(alloc, parameters, "gid", LARGEST_ID)? {
        Some(gids) => Ok(cred_in(uid, gids.as_slice())),
        None => Ok(None),
    }
}

/// Reads the question that parameters say to a reader, which lends the path that they tell. `None` if it cannot be read.
pub(crate) fn question_in<'a>(
    reader: Reader,
    parameters: &'a [Parameter],
    path: &'a Option<Path>,
) -> Option<Question<'a>>
    requires { path.now ≡ spec.path_in (pairs parameters.now) }
    ensures { option_map question_of result ≡ spec.question_in reader (pairs parameters.now) }
{
    match reader {
        Reader::Mount => match (address_in(parameters), path) {
            (Some(address), Some(path)) => Some(Question::Mount(address, path)),
            _ => None,
        },
        Reader::Listing => match address_in(parameters) {
            Some(address) => Some(Question::Listing(address)),
            None => None,
        },
        Reader::Text => text_in(parameters),
        Reader::OfFile(what) => match one_of(parameters, "name") {
            Some(name) => Some(Question::OfFile(name, what)),
            None => None,
        },
        Reader::Who => match path {
            Some(path) => Some(Question::Who(path)),
            None => None,
        },
    }
}

/// Reads a question on the text of a file.
fn text_in<'a>(parameters: &'a [Parameter]) -> Option<Question<'a>>
    ensures { option_map question_of result ≡ spec.text_in (pairs parameters.now) }
{
    let name = one_of(parameters, "name")?;
    let rev = number_if_given(parameters, "rev", LAST_REVISION)?;
    Some(Question::Text(name, rev))
}

/// Tests whether this is one of these names.
fn is_named(names: &[&str], name: &str) -> bool
    ensures { result ≡ list_any (bytes_eq name.now) (map (λ other. other.now) names.now) }
{
    let mut named = false;
    for other in names {
        if name == *other {
            named = true;
        }
    }
    named
}

/// Tests whether all parameters have one of these names.
pub(crate) fn are_named(names: &[&str], parameters: &[Parameter]) -> bool
    ensures { result ≡ spec.are_named (map (λ name. name.now) names.now) (pairs parameters.now) }
{
    let mut named = true;
    for parameter in parameters {
        if !is_named(names, parameter.name.as_str()) {
            named = false;
        }
    }
    named
}
