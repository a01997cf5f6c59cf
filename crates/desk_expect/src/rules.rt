//! The rules that a line of expectations may break.

ghost use Rattle.std.specs.Prelude.{◌≡◌};
ghost use Rattle.desk_expect.specs.Rules.{rule_name, rule_number, rule_sentence};

use desk_text::{LineFault, Place, Said};

/// A rule that a line may break. Of a line that breaks several the first in this order is reported.
#[derive(Clone, Copy)]
pub enum Rule {
    OpenQuote,
    Form,
    BadAction,
    BadPath,
    BadAddress,
    UnknownName,
    Nobody,
}

impl Rule {
    /// Returns the number of the rule, from 1.
    pub fn number(self) -> u32
        ensures { result ≡ rule_number self }
    {
        self.said().number
    }

    /// Returns the name of the rule.
    pub fn name(self) -> &'static str
        ensures { result.now ≡ rule_name self }
    {
        self.said().name
    }

    /// Returns what is said of the slice that breaks the rule, after the slice.
    pub fn sentence(self) -> &'static str
        ensures { result.now ≡ rule_sentence self }
    {
        self.said().sentence
    }

    /// Returns what is printed of the rule.
    fn said(self) -> Said
        ensures number { result.number ≡ rule_number self }
        ensures name { result.name.now ≡ rule_name self }
        ensures sentence { result.sentence.now ≡ rule_sentence self }
    {
        match self {
            Rule::OpenQuote => Said {
                number: 1,
                name: "OpenQuote",
                sentence: "begins with a quote that is not closed on its physical line: close it, or write a backslash before a quote in a name",
            },
            Rule::Form => Said {
                number: 2,
                name: "Form",
                sentence: "is not where it belongs: write WHOM [but NAME..] may [not] ACTION DIR.., as in everybody but adm may not write /usr/...",
            },
            Rule::BadAction => Said {
                number: 3,
                name: "BadAction",
                sentence: "is not an action: write mount, write, root, sys, krb5, krb5i or krb5p",
            },
            Rule::BadPath => Said {
                number: 4,
                name: "BadPath",
                sentence: "is not a directory: one begins with /, has no component . or .., has ... after its last / alone, no NUL byte, and at most 1024 bytes before /...",
            },
            Rule::BadAddress => Said {
                number: 5,
                name: "BadAddress",
                sentence: "is not an address, a network or a range: write them as 10.0.0.5, 10.0.0.0/8 or 10.0.0.5-10.0.0.9",
            },
            Rule::UnknownName => Said {
                number: 6,
                name: "UnknownName",
                sentence: "is not a known netgroup or host: correct it, write blanks between names, or give the tables that have it",
            },
            Rule::Nobody => Said {
                number: 7,
                name: "Nobody",
                sentence: "is whom the line is about, and that is nobody: no address is meant",
            },
        }
    }
}

/// A faulty line with the first rule that it breaks, and the place of the slice at fault.
#[derive(Clone, Copy)]
pub struct PlacedFault {
    pub fault: LineFault<Rule>,
    pub place: Place,
}
