//! The texts of replies.

ghost use Rattle.std.specs.Prelude.{◌≡◌, IfOk};
ghost use Rattle.std.specs.String.{string_bytes};
ghost use Rattle.desk_http_messages.specs.Replies.{print_reply, reply_with};
ghost use Rattle.desk_service.specs.Refused.{refused_by};
ghost use Rattle.desk_http_bodies.specs.Edits.{done_data, proposed_data};
ghost use Rattle.desk_http.specs.Replies as spec;

use desk_core::Refusal;
use desk_http_bodies::{done_body, proposed_body, refusal_body};
use desk_http_messages::{refusal_text, reply_text};
use desk_http_requests::RequestFault;
use desk_service::Refused;
use desk_store::DeskError;
use http::StatusCode;
use std::alloc::{AllocError, Global};

/// Writes the reply to a request with this fault, which calls for nothing.
pub(crate) fn request_fault_text(
    alloc: Global,
    fault: RequestFault,
    ends: bool,
) -> Result<String, AllocError>
    ensures { IfOk result (λ text. string_bytes text ≡ print_reply ends (spec.request_fault_reply fault)) }
{
    let status = request_fault_status(fault);
    let name = request_fault_name(fault);
    refusal_text(alloc, status, name, request_fault_number(fault), ends)
}

/// Returns the status of the reply to a request with this fault.
fn request_fault_status(fault: RequestFault) -> StatusCode
    ensures { result ≡ spec.request_fault_status fault }
{
    match fault {
        RequestFault::NoRoute => StatusCode::NOT_FOUND,
        RequestFault::BadMethod => StatusCode::METHOD_NOT_ALLOWED,
        RequestFault::BadQuery | RequestFault::BadHeader | RequestFault::BadBody => {
            StatusCode::BAD_REQUEST
        }
    }
}

/// Returns the name of the fault of a request.
fn request_fault_name(fault: RequestFault) -> &'static str
    ensures { result.now ≡ spec.request_fault_name fault }
{
    match fault {
        RequestFault::NoRoute => "NoRoute",
        RequestFault::BadMethod => "BadMethod",
        RequestFault::BadQuery => "BadQuery",
        RequestFault::BadHeader => "BadHeader",
        RequestFault::BadBody => "BadBody",
    }
}

/// Returns the number of the fault of a request.
fn request_fault_number(fault: RequestFault) -> u32
    ensures { result ≡ spec.request_fault_number fault }
{
    match fault {
        RequestFault::NoRoute => 106,
        RequestFault::BadMethod => 107,
        RequestFault::BadQuery => 108,
        RequestFault::BadHeader => 109,
        RequestFault::BadBody => 110,
    }
}

/// Writes the reply to an edit that was stored as a revision, or that is the newest revision already.
pub(crate) fn done_text(
    alloc: Global,
    already: bool,
    rev: u32,
    ends: bool,
) -> Result<String, AllocError>
    ensures { IfOk result (λ text. string_bytes text ≡ print_reply ends (reply_with 200 (done_data already rev))) }
{
    let body = done_body(alloc, already, rev)?;
    reply_text(alloc, StatusCode::OK, body.as_str(), ends)
}

/// Writes the reply to an edit that is proposed, or that was before.
pub(crate) fn proposed_text(
    alloc: Global,
    already: bool,
    rev: u32,
    ends: bool,
) -> Result<String, AllocError>
    ensures { IfOk result (λ text. string_bytes text ≡ print_reply ends (reply_with 200 (proposed_data already rev))) }
{
    let body = proposed_body(alloc, already, rev)?;
    reply_text(alloc, StatusCode::OK, body.as_str(), ends)
}

/// Writes the reply where a desk answers this error. If it is out of memory, so is this.
pub(crate) fn failed_text(alloc: Global, error: DeskError, ends: bool) -> Result<String, AllocError>
    ensures { IfOk result (λ text. string_bytes text ≡ print_reply ends (spec.refused_reply (refused_by error))) }
{
    match Refused::by(error) {
        Refused::Memory => Err(AllocError),
        refused => refused_text(alloc, &refused, ends),
    }
}

/// Writes the reply to a question or an edit that is refused.
pub(crate) fn refused_text(
    alloc: Global,
    refused: &Refused,
    ends: bool,
) -> Result<String, AllocError>
    ensures { IfOk result (λ text. string_bytes text ≡ print_reply ends (spec.refused_reply refused.now)) }
{
    match refused {
        Refused::Edit(refusal) => {
            let body = refusal_body(alloc, refusal)?;
            reply_text(alloc, edit_status(refusal), body.as_str(), ends)
        }
        other => refusal_text(
            alloc,
            refused_status(other),
            other.name(),
            other.number(),
            ends,
        ),
    }
}

/// Returns the status of the reply to a refusal.
fn refused_status(refused: &Refused) -> StatusCode
    ensures { result ≡ spec.refused_status refused.now }
{
    match refused {
        Refused::Edit(refusal) => edit_status(refusal),
        Refused::NoRevision => StatusCode::NOT_FOUND,
        Refused::OtherProposal => StatusCode::CONFLICT,
        Refused::Store | Refused::Schema | Refused::Memory => StatusCode::SERVICE_UNAVAILABLE,
    }
}

/// Returns the status of the reply to an edit that is refused.
fn edit_status(refusal: &Refusal) -> StatusCode
    ensures { result ≡ spec.edit_status refusal.now }
{
    match refusal {
        Refusal::UnknownCaller | Refusal::BadKey | Refusal::NotCustodian => StatusCode::FORBIDDEN,
        Refusal::UnknownFile => StatusCode::NOT_FOUND,
        Refusal::TooLarge => StatusCode::PAYLOAD_TOO_LARGE,
        Refusal::Stale(_) | Refusal::Full => StatusCode::CONFLICT,
        Refusal::Fault(_) => StatusCode::UNPROCESSABLE_ENTITY,
    }
}
