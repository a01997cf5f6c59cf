//! Edits that were refused for who sent them: only whoever reads standard error learns that keys are tried.

ghost use Rattle.std.specs.Prelude.{◌≡◌, OnOk};
ghost use Rattle.std.specs.Io.KnownBytes.{Appends};
ghost use Rattle.cli_serve.specs.Refusals.{is_refusal, refused_line};

use std::io;
use std::io::Write;

/// The front of a reply to an edit that is refused for who sends it.
const REFUSAL: &[u8] = b"HTTP/1.1 403 ";

/// Tells whether bytes begin as a reply to an edit that is refused for who sends it.
pub fn is_refusal(reply: &[u8]) -> bool
    ensures { result ≡ is_refusal reply.now }
{
    reply.starts_with(REFUSAL)
}

/// Reports how many edits of a connection were refused for who sent them, if any were. It takes no memory.
pub fn report_refused<E: Write>(count: u64, err: &mut E) -> io::Result<()>
    ensures { OnOk result (Appends (E.contents err.old) (E.contents err.new) (refused_line count)) }
{
    match count {
        0 => Ok(()),
        1 => err.write_all(b"exportdesk: 1 edit refused\n"),
        _ => write!(err, "exportdesk: {count} edits refused\n"),
    }
}
