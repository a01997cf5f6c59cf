//! An argument that cannot be parsed: which one, its word, and why.

use desk_tables::CredFault;
use desk_text::{AddrFault, PathFault};
use std::fmt;

/// Why an argument cannot be parsed.
#[derive(Clone, Copy)]
pub enum ArgumentFault {
    Address(AddrFault),
    Path(PathFault),
    Credential(CredFault),
    /// It is not a number from the first to the second.
    Number(u32, u32),
    /// It does not list numbers of warnings, each once.
    Warnings,
    /// It is not a digest as `proposal` tells it.
    Digest,
}

/// An argument that cannot be parsed.
#[derive(Drop)]
pub struct BadArgument {
    /// The argument as the usage names it, such as `HOST` or `--base`.
    pub argument: &'static str,
    pub word: String,
    pub fault: ArgumentFault,
}

impl fmt::Display for BadArgument {
    fn fmt<W: fmt::Write>(&self, f: &mut fmt::Formatter<W>) -> fmt::Result {
        let name = self.argument;
        let word = self.word.as_str();
        let fault = self.fault;
        write!(f, "{name} {word:?}: {fault}")
    }
}

impl fmt::Display for ArgumentFault {
    fn fmt<W: fmt::Write>(&self, f: &mut fmt::Formatter<W>) -> fmt::Result {
        match self {
            ArgumentFault::Address(fault) => write!(f, "{fault:?}: {fault}"),
            ArgumentFault::Path(fault) => write!(f, "{fault:?}: {fault}"),
            ArgumentFault::Credential(fault) => write!(f, "{fault:?}: {fault}"),
            ArgumentFault::Number(least, most) => {
                write!(f, "it is not a number from {least} to {most}")
            }
            ArgumentFault::Warnings => f.write_str(
                "it does not list numbers of warnings, each once, with commas between them, as 2,11",
            ),
            ArgumentFault::Digest => f.write_str(
                "it is not a SHA-256 of 64 hexadecimal digits with small letters, as proposal tells it",
            ),
        }
    }
}
