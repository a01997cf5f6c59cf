//! What is wrong with a line of a netgroup file.

ghost use Rattle.std.specs.Prelude.{◌≡◌};
ghost use Rattle.desk_netgroup.specs.Faults.{rule_name, rule_number, rule_sentence, rules_in_order};

use desk_text::{Place, Said};
use thiserror::Error;

/// Why a line is refused.
#[derive(Clone, Copy, Debug, PartialEq, Eq, Error)]
#[error("{}", self.sentence())]
pub enum GroupRule {
    BadTriple,
    Unclosed,
    Duplicate,
    StrayComment,
}

/// All rules. Of several that a line breaks the first in this order is reported.
const RULES: &[GroupRule] = &[
    GroupRule::StrayComment,
    GroupRule::Unclosed,
    GroupRule::BadTriple,
    GroupRule::Duplicate,
];

impl GroupRule {
    /// Returns all rules, in the order in which a broken one is reported.
    pub fn all() -> &'static [GroupRule]
        ensures { result.now ≡ rules_in_order }
    {
        RULES
    }

    /// Gives the number of the rule, from 1.
    pub fn number(self) -> u32
        ensures { result ≡ rule_number self }
    {
        self.said().number
    }

    /// Gives the name of the rule.
    pub fn name(self) -> &'static str
        ensures { result.now ≡ rule_name self }
    {
        self.said().name
    }

    /// Gives what is said of the slice that breaks the rule, behind the slice.
    pub fn sentence(self) -> &'static str
        ensures { result.now ≡ rule_sentence self }
    {
        self.said().sentence
    }

    /// Gives what is printed of the rule.
    pub fn said(self) -> Said
        ensures number { result.number ≡ rule_number self }
        ensures name { result.name.now ≡ rule_name self }
        ensures sentence { result.sentence.now ≡ rule_sentence self }
    {
        match self {
            GroupRule::BadTriple => Said {
                number: 1,
                name: "BadTriple",
                sentence: "does not fit: a line is a netgroup and its members, each a netgroup or (host,user,domain), in words of at most 255 bytes",
            },
            GroupRule::Unclosed => Said {
                number: 2,
                name: "Unclosed",
                sentence: "is a parenthesis that is not closed",
            },
            GroupRule::Duplicate => Said {
                number: 3,
                name: "Duplicate",
                sentence: "is defined on an earlier line already",
            },
            GroupRule::StrayComment => Said {
                number: 4,
                name: "StrayComment",
                sentence: "begins with # but is not the first word: put a comment on a line of its own",
            },
        }
    }
}

/// The first faulty line of a netgroup file, by the number of its first physical line, and the rule
/// that is reported of it; with Duplicate also the earlier line that defines the group.
#[derive(Clone, Copy, Debug, PartialEq, Eq, Error)]
#[error("line {line}: {rule}")]
pub struct GroupFault {
    pub line: u32,
    pub rule: GroupRule,
    pub other: Option<u32>,
}

/// A faulty line with the first rule that it breaks, and the place of the slice at fault.
#[derive(Clone, Copy)]
pub struct PlacedFault {
    pub fault: GroupFault,
    pub place: Place,
}
