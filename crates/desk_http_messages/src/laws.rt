//! A law of the streams that are served.
ghost use Rattle.std.specs.Prelude.{◌≡◌, ℕ, List};
ghost use Rattle.desk_http_messages.specs.declared.requests.End.{End};
ghost use Rattle.desk_http_messages.specs.Stream.{Message, Splits, EndsSo};

/// Bytes are these messages and no others, and their stream ends in one way.
pub fn one_reading()
    ensures { (bytes r s : List ℕ) (messages others : List Message) (a b : End)
        → Splits bytes messages r → EndsSo messages r a → Splits bytes others s → EndsSo others s b
        → (messages ≡ others) × (a ≡ b) }
{}
