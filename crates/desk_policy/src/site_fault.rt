//! The faults of a site: of a file, or of the lines of an exports file against each other.

ghost use Rattle.std.specs.Prelude.{◌≡◌};
ghost use Rattle.desk_policy.specs.SiteFault.{rule_name, rule_number, rule_sentence};

use desk_exports::Rule;
use desk_netgroup::GroupRule;
use desk_origins::{LineName, Origin};
use desk_tables::TableRule;
use desk_text::{Addr, Said, Text};
use std::fmt;

/// What a line of a site's files breaks.
#[derive(Clone, Copy, PartialEq, Eq)]
pub enum SiteRule {
    Table(TableRule),
    Group(GroupRule),
    Line(Rule),
    /// Two lines of a file system match an address with equal weight, and have different terms.
    Contradiction,
}

impl SiteRule {
    /// Gives the number of the rule among those of its file.
    pub fn number(self) -> u32
        ensures { result ≡ rule_number self }
    {
        self.said().number
    }

    /// Gives the name of the rule.
    pub fn name(self) -> &'static str
        ensures { result.now ≡ rule_name self }
    {
        self.said().name
    }

    /// Gives what is said of the slice that breaks the rule, or of the file, behind it.
    pub fn sentence(self) -> &'static str
        ensures { result.now ≡ rule_sentence self }
    {
        self.said().sentence
    }

    /// Gives what is printed of the rule.
    fn said(self) -> Said
        ensures number { result.number ≡ rule_number self }
        ensures name { result.name.now ≡ rule_name self }
        ensures sentence { result.sentence.now ≡ rule_sentence self }
    {
        match self {
            SiteRule::Table(rule) => rule.said(),
            SiteRule::Group(rule) => rule.said(),
            SiteRule::Line(rule) => rule.said(),
            SiteRule::Contradiction => Said {
                number: 26,
                name: "Contradiction",
                sentence: "has other terms than an earlier line",
            },
        }
    }
}

/// The fault of a site: the file, the first faulty line in it, and the first rule that the line breaks. An exports file is
/// named `exports:` and its mount point, and a whole exports text `exports`.
#[derive(Drop)]
pub struct SiteFault {
    pub file: Text,
    pub line: u32,
    pub rule: SiteRule,
    /// The earlier line of a netgroup that is defined twice, or of a contradiction.
    pub other: Option<u32>,
    /// The least address of a contradiction.
    pub address: Option<Addr>,
}

/// The fault as it is printed, with its file: `fault netgroup line 3 rule 3 Duplicate line 1`.
impl fmt::Display for SiteFault {
    ghost use Rattle.std.specs.Prelude.{Some};
    ghost use Rattle.desk_policy.specs.SiteFault.{fault_line};

    ghost output = { λ fault. Some (fault_line fault) };

    fn fmt<W: fmt::Write>(&self, f: &mut fmt::Formatter<W>) -> fmt::Result {
        let file = self.file.as_str();
        let place = FaultPlace {
            fault: self,
            origins: &[],
        };
        write!(f, "fault {file} {place}")
    }
}

/// Where a fault is in its file, as it is printed: `line 2 rule 26 Contradiction line 1 address 10.0.0.5`.
#[derive(Clone, Copy)]
pub struct FaultPlace<'a> {
    pub fault: &'a SiteFault,
    /// The texts that are read as one, if the fault is one of several.
    pub origins: &'a [Origin],
}

impl<'a> fmt::Display for FaultPlace<'a> {
    ghost use Rattle.std.specs.Prelude.{Some};
    ghost use Rattle.desk_policy.specs.SiteFault.{place_text};

    ghost output = { λ place. Some (place_text place.origins.now place.fault.now) };

    fn fmt<W: fmt::Write>(&self, f: &mut fmt::Formatter<W>) -> fmt::Result {
        let line = LineName {
            origins: self.origins,
            line: self.fault.line,
        };
        let number = self.fault.rule.number();
        let name = self.fault.rule.name();
        let behind = Behind {
            origins: self.origins,
            other: self.fault.other,
            address: self.fault.address,
        };
        write!(f, "line {line} rule {number} {name}{behind}")
    }
}

/// What is printed behind the rule of a fault: the earlier line and the address, if it has them.
#[derive(Clone, Copy)]
struct Behind<'a> {
    origins: &'a [Origin],
    other: Option<u32>,
    address: Option<Addr>,
}

impl<'a> fmt::Display for Behind<'a> {
    ghost use Rattle.std.specs.Prelude.{◌++◌, Some};
    ghost use Rattle.desk_policy.specs.SiteFault.{address_text, other_text};

    ghost output = { λ behind. Some (other_text behind.origins.now behind.other ++ address_text behind.address) };

    fn fmt<W: fmt::Write>(&self, f: &mut fmt::Formatter<W>) -> fmt::Result {
        match self.other {
            Some(line) => {
                let name = LineName {
                    origins: self.origins,
                    line,
                };
                match self.address {
                    Some(address) => write!(f, " line {name} address {address}"),
                    None => write!(f, " line {name}"),
                }
            }
            None => match self.address {
                Some(address) => write!(f, " address {address}"),
                None => Ok(()),
            },
        }
    }
}
