//! Spans of addresses.

ghost use Rattle.std.specs.Prelude.{◌≤◌};
ghost use Rattle.desk_text.specs.Address.{number_of};

use desk_text::Addr;

/// The addresses from the first to the last.
#[derive(Clone, Copy)]
pub struct Span {
    pub first: Addr,
    pub last: Addr,
    ghost proper: { number_of first ≤ number_of last },
}
