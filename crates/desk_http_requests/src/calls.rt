//! What a request calls for.

ghost use Rattle.std.specs.Prelude.{◌≡◌, ◌≤◌, All, IfOk, IfSome, Some, is_some, length, true};
ghost use Rattle.std.specs.Option.{option_map};
ghost use Rattle.std.specs.Str.{is_utf8};
ghost use Rattle.httparse.specs.Spans.{IsHeaderWithin};
ghost use Rattle.desk_core.specs.Head.{last_revision};
ghost use Rattle.desk_http_messages.specs.Asked.{asked_of};
ghost use Rattle.desk_http_requests.specs.Calls.{IsCall, Puts, action_of, asked_in, base_in, header_text, is_put, path_in, put_in, query_asked, utf8_text};
ghost use Rattle.desk_http_requests.specs.Parameters.{pairs};
ghost use Rattle.desk_http_requests.specs.Parameters as spec;
ghost use Rattle.desk_http_requests.specs.PrivateCalls.{AsksFor};
ghost use Rattle.desk_http_requests.specs.Routes.{action_in};
ghost use Rattle.desk_http_requests.specs.Target.{query_of};

use crate::faults::RequestFault;
use crate::parameters::{Parameter, number_in, one_of};
use crate::queries::{are_named, credential_in, question_in};
use crate::routes::{Action, Purpose, Reader};
use desk_core::{Edit, LAST_REVISION};
use desk_http_messages::{Request, Values, values_of};
use desk_service::Question;
use desk_tables::Cred;
use desk_text::Path;
use std::alloc::{AllocError, Global};

/// What a request calls for.
#[derive(Drop)]
pub enum Call<'a> {
    /// Nothing: it has this fault.
    Refused(RequestFault),
    /// A question, and the client's credential, if it is told with a mount.
    Asks(Question<'a>, Option<Cred>),
    Edits(Edit<'a>),
}

/// Finds the only value of a header, if it is text.
fn header_text<'a>(request: &Request<'a>, name: &[u8]) -> Option<&'a str>
    requires { All (IsHeaderWithin (length request.now.head.now)) request.now.headers.now }
    ensures { option_map (λ text. text.now) result ≡ header_text name.now (asked_of request.now).headers }
{
    match values_of(request.head, request.headers, name) {
        Values::One(value) => utf8_text(value),
        _ => None,
    }
}

/// Returns the text that bytes are.
fn utf8_text(bytes: &[u8]) -> Option<&str>
    ensures value { option_map (λ text. text.now) result ≡ utf8_text bytes.now }
    ensures text { IfSome result (λ text. text.now ≡ bytes.now) }
    ensures tested { is_some result ≡ is_utf8 bytes.now }
{
    match std::str::from_utf8(bytes) {
        Ok(text) => Some(text),
        Err(_) => None,
    }
}

/// Reads what a request calls for that does this, by its parameters, and by the path that they tell, which a question lends.
pub fn read_call<'a>(
    alloc: Global,
    action: Action,
    request: &Request<'a>,
    parameters: &'a [Parameter],
    path: &'a Option<Path>,
) -> Result<Call<'a>, AllocError>
    requires headers { All (IsHeaderWithin (length request.now.head.now)) request.now.headers.now }
    requires action { action_of (asked_of request.now) ≡ Some (action_in action) }
    requires path { path.now ≡ path_in (pairs parameters.now) }
    requires parameters { pairs parameters.now ≡ spec.parameters_of (query_of request.now.target.now) }
    ensures { IfOk result (IsCall (asked_of request.now)) }
{
    if !are_named(action.names, parameters) {
        return Ok(Call::Refused(RequestFault::BadQuery));
    }
    match action.purpose {
        Purpose::Ask(reader) => asked_in(alloc, reader, parameters, path),
        Purpose::Put => Ok(edit_in(request, parameters)),
    }
}

/// Reads what a request asks: a question, and the client's credential, if it is told.
fn asked_in<'a>(
    alloc: Global,
    reader: Reader,
    parameters: &'a [Parameter],
    path: &'a Option<Path>,
) -> Result<Call<'a>, AllocError>
    requires { path.now ≡ path_in (pairs parameters.now) }
    ensures { IfOk result (AsksFor (asked_in reader (pairs parameters.now))) }
{
    let Some(question) = question_in(reader, parameters, path) else {
        return Ok(Call::Refused(RequestFault::BadQuery));
    };
    match credential_in(alloc, parameters)? {
        Some(own) => Ok(Call::Asks(question, own)),
        None => Ok(Call::Refused(RequestFault::BadQuery)),
    }
}

/// Reads the edit that a request asks for.
fn edit_in<'a>(request: &Request<'a>, parameters: &'a [Parameter]) -> Call<'a>
    requires headers { All (IsHeaderWithin (length request.now.head.now)) request.now.headers.now }
    requires action { is_put (action_of (asked_of request.now)) ≡ true }
    requires query { query_asked (asked_of request.now) ≡ put_in (pairs parameters.now) }
    ensures { IsCall (asked_of request.now) result }
{
    match one_of(parameters, "name") {
        Some(file) => edit_after(request, parameters, file),
        None => Call::Refused(RequestFault::BadQuery),
    }
}

/// Reads the edit of a file that a request asks for: it follows the revision of the number that the parameters tell.
fn edit_after<'a>(request: &Request<'a>, parameters: &'a [Parameter], file: &'a str) -> Call<'a>
    requires headers { All (IsHeaderWithin (length request.now.head.now)) request.now.headers.now }
    requires action { is_put (action_of (asked_of request.now)) ≡ true }
    requires query { query_asked (asked_of request.now) ≡ option_map (Puts file.now) (base_in (pairs parameters.now)) }
    ensures { IsCall (asked_of request.now) result }
{
    match number_in(parameters, "base", LAST_REVISION) {
        Some(base) => edit_of(request, file, base),
        None => Call::Refused(RequestFault::BadQuery),
    }
}

/// Makes the edit of a file that a request asks for.
fn edit_of<'a>(request: &Request<'a>, file: &'a str, base: u32) -> Call<'a>
    requires headers { All (IsHeaderWithin (length request.now.head.now)) request.now.headers.now }
    requires action { is_put (action_of (asked_of request.now)) ≡ true }
    requires query { query_asked (asked_of request.now) ≡ Some (Puts file.now base) }
    requires base { base ≤ last_revision }
    ensures { IsCall (asked_of request.now) result }
{
    let (Some(caller), Some(key)) = (
        header_text(request, b"x-custodian"),
        header_text(request, b"x-key"),
    ) else {
        return Call::Refused(RequestFault::BadHeader);
    };
    match utf8_text(request.body) {
        Some(text) => Call::Edits(Edit {
            file,
            base,
            caller,
            key,
            text,
        }),
        None => Call::Refused(RequestFault::BadBody),
    }
}
