//! What header lines say of a body and of the connection.
ghost use Rattle.std.specs.Prelude.{◌≡◌, List, [], ◌∷◌, All, length, map};
ghost use Rattle.std.specs.Str.{str_eq_ignore_ascii_case};
ghost use Rattle.httparse.specs.Spans.{IsHeaderWithin, header_bytes};
ghost use Rattle.desk_http_messages.specs.Head as spec;
ghost use Rattle.desk_http_messages.specs.Head.{header_values};
ghost use Rattle.desk_http_messages.specs.Values.{AreValues};

use crate::requests::StreamFault;
use httparse::spans::HeaderSpan;

/// The longest body.
pub const BODY_LIMIT: usize = 65_536;

/// The values of the headers of one name.
#[derive(Clone, Copy)]
pub enum Values<'a> {
    None,
    One(&'a [u8]),
    Many,
}

/// Tests whether two names are one, without ASCII case.
fn is_same(a: &[u8], b: &[u8]) -> bool
    ensures { result ≡ str_eq_ignore_ascii_case a.now b.now }
{
    a.eq_ignore_ascii_case(b)
}

/// Finds the values of the headers of a name: none, the only one, or that there are more.
pub fn values_of<'a>(window: &'a [u8], headers: &[HeaderSpan], name: &[u8]) -> Values<'a>
    requires { All (IsHeaderWithin (length window.now)) headers.now }
    ensures { AreValues (header_values name.now (map (header_bytes window.now) headers.now)) result }
{
    let mut values = Values::None;
    for header in headers {
        if is_same(header.name.of(window), name) {
            values = match values {
                Values::None => Values::One(header.value.of(window)),
                _ => Values::Many,
            };
        }
    }
    values
}

/// Reads the length that digits write. More digits than a length can have are a body that is too large.
fn length_of(digits: &[u8]) -> Result<usize, StreamFault>
    ensures { result ≡ spec.limited_length (spec.given_length (digits.now ∷ [])) }
{
    if digits.is_empty() {
        return Err(StreamFault::BadLength);
    }
    let mut length = 0;
    for digit in digits {
        if !digit.is_ascii_digit() {
            return Err(StreamFault::BadLength);
        }
        length = (length * 10 + usize::from(*digit - b'0')).min(BODY_LIMIT + 1);
    }
    if length <= BODY_LIMIT {
        Ok(length)
    } else {
        Err(StreamFault::BodyTooLarge)
    }
}

/// Finds how long the body is, or the first fault of the headers.
pub fn body_length(window: &[u8], headers: &[HeaderSpan]) -> Result<usize, StreamFault>
    requires { All (IsHeaderWithin (length window.now)) headers.now }
    ensures { result ≡ spec.body_length (map (header_bytes window.now) headers.now) }
{
    match values_of(window, headers, b"transfer-encoding") {
        Values::None => {}
        _ => return Err(StreamFault::TransferEncoding),
    }
    match values_of(window, headers, b"content-length") {
        Values::None => Ok(0),
        Values::One(digits) => length_of(digits),
        Values::Many => Err(StreamFault::BadLength),
    }
}

/// Tests whether the headers ask to close the connection: a header Connection has no other value than `close`.
pub fn asks_to_close(window: &[u8], headers: &[HeaderSpan]) -> bool
    requires { All (IsHeaderWithin (length window.now)) headers.now }
    ensures { result ≡ spec.asks_to_close (map (header_bytes window.now) headers.now) }
{
    let mut asks = false;
    for header in headers {
        if is_same(header.name.of(window), b"connection")
            && is_same(header.value.of(window), b"close")
        {
            asks = true;
        }
    }
    asks
}
