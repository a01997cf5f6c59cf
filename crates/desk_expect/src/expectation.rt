//! A line of expectations, as it is read.

use crate::action::Action;
use crate::audience::Audience;
use crate::scope::Scope;
use desk_text::{Sequence, Text};

/// What a line expects: that clients may do something in directories, or that they may not.
#[derive(Drop)]
pub struct Expectation {
    /// The number of its first physical line, from 1.
    pub line: u32,
    /// Its words, without quotes and escapes, with a blank between them.
    pub text: Text,
    pub audience: Audience,
    pub forbids: bool,
    pub action: Action,
    pub scopes: Sequence<Scope>,
}
