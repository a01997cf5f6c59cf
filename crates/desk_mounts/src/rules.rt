//! The rules that a line of a text of mount points may break.

ghost use Rattle.std.specs.Prelude.{◌≡◌};
ghost use Rattle.desk_mounts.specs.Rules.{path_name, rule_name, rule_number, rule_word};

use desk_text::{LineFault, PathFault};
use std::fmt;

/// A rule that a line may break. A line that breaks one breaks no other.
#[derive(Clone, Copy)]
pub enum Rule {
    /// A quote does not close on its physical line.
    OpenQuote,
    /// The line has three words.
    Words,
    /// The only word of the line is not a path.
    Only(PathFault),
    /// The second word of the line is not a path.
    Second(PathFault),
}

impl Rule {
    /// Returns the number of the rule, from 1.
    pub fn number(self) -> u32
        ensures { result ≡ rule_number self }
    {
        match self {
            Rule::OpenQuote => 1,
            Rule::Words => 2,
            Rule::Only(fault) | Rule::Second(fault) => 2 + fault.number(),
        }
    }

    /// Returns the name of the rule.
    pub fn name(self) -> &'static str
        ensures { result.now ≡ rule_name self }
    {
        match self {
            Rule::OpenQuote => "OpenQuote",
            Rule::Words => "Words",
            Rule::Only(fault) | Rule::Second(fault) => path_name(fault),
        }
    }

    /// Returns the number of the word that breaks the rule, from 1, if it is one word.
    pub fn word(self) -> Option<u32>
        ensures { result ≡ rule_word self }
    {
        match self {
            Rule::OpenQuote => None,
            Rule::Words => Some(3),
            Rule::Only(_) => Some(1),
            Rule::Second(_) => Some(2),
        }
    }
}

/// Returns the name of a fault of a path.
fn path_name(fault: PathFault) -> &'static str
    ensures { result.now ≡ path_name fault }
{
    match fault {
        PathFault::NotAbsolute => "NotAbsolute",
        PathFault::DotComponent => "DotComponent",
        PathFault::TooLong => "TooLong",
        PathFault::NulByte => "NulByte",
    }
}

impl fmt::Display for Rule {
    fn fmt<W: fmt::Write>(&self, f: &mut fmt::Formatter<W>) -> fmt::Result {
        match self {
            Rule::OpenQuote => f.write_str("a quote is not closed on its physical line"),
            Rule::Words => f.write_str(
                "it is the last of three words: write a path, a line of zfs mount or a line of mount -p, and a path with a blank in quotes",
            ),
            Rule::Only(fault) | Rule::Second(fault) => fault.fmt(f),
        }
    }
}

/// The first faulty line of a text of mount points, and the rule that it breaks.
pub type MountsFault = LineFault<Rule>;
