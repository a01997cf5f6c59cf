//! The bytes of replies.

ghost use Rattle.std.specs.Prelude.{◌≡◌, ◌<◌, true, IfOk, length};
ghost use Rattle.std.specs.String.{string_bytes};
ghost use Rattle.serde_json.specs.View.{view};
ghost use Rattle.desk_http_messages.specs.Replies as spec;
ghost use Rattle.desk_http_messages.specs.Replies.{fault_reply, memory_reply, print_reply, refusal_reply};

use crate::requests::StreamFault;
use http::StatusCode;
use serde_json::{Value, json};
use std::alloc::{AllocError, Global};

/// Writes a reply with a body of JSON. Ends says that the stream ends after it.
pub fn reply_text(
    alloc: Global,
    status: StatusCode,
    body: &str,
    ends: bool,
) -> Result<String, AllocError>
    ensures { IfOk result (λ text. string_bytes text ≡ print_reply ends (record { status = status; body = body.now })) }
{
    let length = body.len();
    if ends {
        format!(in alloc;
            "HTTP/1.1 {status}\r\ncontent-type: application/json\r\ncontent-length: {length}\r\nconnection: close\r\n\r\n{body}"
        )
    } else {
        format!(in alloc;
            "HTTP/1.1 {status}\r\ncontent-type: application/json\r\ncontent-length: {length}\r\n\r\n{body}"
        )
    }
}

/// Writes the reply to a refusal that has nothing but its name and number.
pub fn refusal_text(
    alloc: Global,
    status: StatusCode,
    name: &str,
    number: u32,
    ends: bool,
) -> Result<String, AllocError>
    ensures { IfOk result (λ text. string_bytes text ≡ print_reply ends (refusal_reply status name.now number)) }
{
    let value = refusal_value(alloc, name, number)?;
    let body = value.to_string(alloc)?;
    reply_text(alloc, status, body.as_str(), ends)
}

/// Makes the value of a refusal.
fn refusal_value(alloc: Global, name: &str, number: u32) -> Result<Value, AllocError>
    ensures { IfOk result (λ value. view value ≡ spec.refusal_data name.now number) }
{
    json!(in alloc; {"error": name, "number": number})
}

/// Returns the reply to want of memory. It takes no memory.
pub fn memory_text(ends: bool) -> &'static [u8]
    ensures { result.now ≡ print_reply ends memory_reply }
{
    if ends {
        b"HTTP/1.1 503 Service Unavailable\r\ncontent-type: application/json\r\ncontent-length: 31\r\nconnection: close\r\n\r\n{\"error\":\"Memory\",\"number\":203}"
    } else {
        b"HTTP/1.1 503 Service Unavailable\r\ncontent-type: application/json\r\ncontent-length: 31\r\n\r\n{\"error\":\"Memory\",\"number\":203}"
    }
}

/// Returns the reply to a fault of the stream, with which it ends. It takes no memory.
pub fn fault_text(fault: StreamFault) -> &'static [u8]
    ensures value { result.now ≡ print_reply true (fault_reply fault) }
    ensures short { length result.now < 1024 }
{
    match fault {
        StreamFault::BadHead => {
            b"HTTP/1.1 400 Bad Request\r\ncontent-type: application/json\r\ncontent-length: 32\r\nconnection: close\r\n\r\n{\"error\":\"BadHead\",\"number\":101}"
        }
        StreamFault::TransferEncoding => {
            b"HTTP/1.1 501 Not Implemented\r\ncontent-type: application/json\r\ncontent-length: 41\r\nconnection: close\r\n\r\n{\"error\":\"TransferEncoding\",\"number\":102}"
        }
        StreamFault::BadLength => {
            b"HTTP/1.1 400 Bad Request\r\ncontent-type: application/json\r\ncontent-length: 34\r\nconnection: close\r\n\r\n{\"error\":\"BadLength\",\"number\":103}"
        }
        StreamFault::BodyTooLarge => {
            b"HTTP/1.1 413 Payload Too Large\r\ncontent-type: application/json\r\ncontent-length: 37\r\nconnection: close\r\n\r\n{\"error\":\"BodyTooLarge\",\"number\":104}"
        }
        StreamFault::BodyCut => {
            b"HTTP/1.1 400 Bad Request\r\ncontent-type: application/json\r\ncontent-length: 32\r\nconnection: close\r\n\r\n{\"error\":\"BodyCut\",\"number\":105}"
        }
    }
}
