//! Edits that are kept: what a reply says of one is no longer true once the files of the database lost their names.

ghost use Rattle.std.specs.Prelude.{◌≡◌, ◌==◌, ◌<◌, IfSome, length, position};
ghost use Rattle.cli_serve.specs.KeptEdits.{is_kept};

/// The front of the body of a reply that an edit is stored or proposed, now or before.
const KEPT: &[u8] = b"{\"already\":";

/// Tells whether bytes are a reply that an edit is stored or proposed, now or before. No head has a brace.
pub fn is_kept(reply: &[u8]) -> bool
    ensures { result ≡ is_kept reply.now }
{
    match body_start(reply) {
        Some(start) => reply[start..].starts_with(KEPT),
        None => false,
    }
}

/// Finds the first brace.
fn body_start(reply: &[u8]) -> Option<usize>
    ensures place { result ≡ position (λ byte. byte == 123) reply.now }
    ensures within { IfSome result (λ place. place < length reply.now) }
{
    reply.iter().position(|byte| *byte == b'{')
}
