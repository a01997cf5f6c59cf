//! Paths of files as references of URIs, as a log of SARIF names files.

ghost use Rattle.std.specs.Prelude.{◌≡◌, ◌++◌, IfOk, OnOk};
ghost use Rattle.std.specs.List.{flat_map};
ghost use Rattle.std.specs.String.{string_bytes};
ghost use Rattle.desk_sarif.specs.SarifUri as spec;

use percent_encoding::percent_encode_byte;
use std::alloc::{AllocError, Global};

/// Makes the reference to the file of a path: `stdin` for `-`, else the path with all that a path of a URI cannot have as it
/// is, such as a blank or a colon, by its bytes: `%20`. (RFC 3986)
pub(crate) fn uri_of(alloc: Global, path: &str) -> Result<String, AllocError>
    ensures { IfOk result (λ uri. string_bytes uri ≡ spec.uri_of path.now) }
{
    if path == "-" {
        return String::from_str(alloc, "stdin");
    }
    let mut uri = String::new(alloc);
    push_path(path.as_bytes(), &mut uri)?;
    Ok(uri)
}

/// Adds a path.
fn push_path(path: &[u8], uri: &mut String) -> Result<(), AllocError>
    ensures { OnOk result (string_bytes uri.new ≡ string_bytes uri.old ++ (spec.front path.now ++ flat_map spec.escaped path.now)) }
{
    push_front(path, uri)?;
    push_escaped(path, uri)
}

/// Adds what has to stand before a path.
fn push_front(path: &[u8], uri: &mut String) -> Result<(), AllocError>
    ensures { OnOk result (string_bytes uri.new ≡ string_bytes uri.old ++ spec.front path.now) }
{
    if path.starts_with(b"//") {
        uri.push_str("/.")
    } else {
        Ok(())
    }
}

/// Adds the bytes of a path.
fn push_escaped(path: &[u8], uri: &mut String) -> Result<(), AllocError>
    ensures { OnOk result (string_bytes uri.new ≡ string_bytes uri.old ++ flat_map spec.escaped path.now) }
{
    for byte in path {
        push_escaped_byte(*byte, uri)?;
    }
    Ok(())
}

/// Adds a byte of a path.
fn push_escaped_byte(byte: u8, uri: &mut String) -> Result<(), AllocError>
    ensures { OnOk result (string_bytes uri.new ≡ string_bytes uri.old ++ spec.escaped byte) }
{
    if is_kept(byte) {
        uri.push(byte as char)
    } else {
        uri.push_str(percent_encode_byte(byte))
    }
}

/// Tests whether a byte stands for itself in a path.
fn is_kept(byte: u8) -> bool
    ensures { result ≡ spec.is_kept byte }
{
    byte.is_ascii_alphanumeric() || matches!(byte, b'-' | b'.' | b'_' | b'~' | b'/')
}
