//! What `check` finds: the faults and the warnings of files, each with its place.

ghost use Rattle.std.specs.Prelude.{◌≡◌};
ghost use Rattle.std.specs.List.{list_any};
ghost use Rattle.desk_findings.specs.Finding as spec;

use desk_origins::Origin;
use desk_policy::{SiteRule, WarningKind};
use desk_remarks::{Example, Remark};
use desk_text::{Addr, Path, Place};

/// What a finding is about.
#[derive(Clone, Copy)]
pub enum Matter {
    /// A line breaks a rule of its file; a netgroup that is defined twice also has its earlier line.
    Fault(SiteRule, Option<u32>),
    /// A line has other terms than this earlier one for this address.
    Contradiction(u32, Addr),
    /// A word is accepted, but odd.
    Warning(WarningKind),
    /// A line breaks no rule, but this is said of it, with what shows it, if anything does.
    Remark(Remark, Option<Example>),
}

/// A fault or a warning of a file, as `check` tells it.
#[derive(Drop)]
pub struct Finding<'a> {
    /// The path of the file, as it was given.
    pub path: &'a str,
    /// If several texts were read as one: where the lines of each begin.
    pub origins: &'a [Origin],
    /// The physical line that has the slice, without its line end.
    pub source: &'a str,
    /// Where the slice is; `None` for a fault of the file as a whole, which is told at 1:1.
    pub place: Option<Place>,
    /// The column of the slice in its line, from 1, in characters; of a file as a whole 1.
    pub column: usize,
    pub matter: Matter,
    /// The physical line, without its line end, of the other line of a file system by which mountd(8) grants more, or which it
    /// takes alone; `None` for what is about no such line.
    pub beside: Option<&'a str>,
    /// The directory that mountd(8) grants more, if it is one.
    pub directory: Option<Path>,
}

impl Matter {
    /// Tests whether a finding about this is a fault, and not a warning.
    pub fn is_fault(self) -> bool
        ensures { result ≡ spec.is_fault self }
    {
        match self {
            Matter::Fault(_, _) | Matter::Contradiction(_, _) => true,
            Matter::Warning(_) | Matter::Remark(_, _) => false,
        }
    }

    /// Returns `fault` or `warning`.
    pub fn kind(self) -> &'static str
        ensures { result.now ≡ spec.kind_word self }
    {
        match self {
            Matter::Fault(_, _) | Matter::Contradiction(_, _) => "fault",
            Matter::Warning(_) | Matter::Remark(_, _) => "warning",
        }
    }

    /// Returns the number of the rule among those of its file, or of the kind of warning.
    pub fn number(self) -> u32
        ensures { result ≡ spec.number_of self }
    {
        match self {
            Matter::Fault(rule, _) => rule.number(),
            Matter::Contradiction(_, _) => SiteRule::Contradiction.number(),
            Matter::Warning(kind) => kind.number(),
            Matter::Remark(remark, _) => remark.number(),
        }
    }

    /// Returns the name of the rule, or of the kind of warning.
    pub fn name(self) -> &'static str
        ensures { result.now ≡ spec.name_of self }
    {
        match self {
            Matter::Fault(rule, _) => rule.name(),
            Matter::Contradiction(_, _) => SiteRule::Contradiction.name(),
            Matter::Warning(kind) => kind.name(),
            Matter::Remark(remark, _) => remark.name(),
        }
    }
}

impl<'a> Finding<'a> {
    /// Returns the physical line of the slice; of a file as a whole 1.
    pub fn line(&self) -> u32
        ensures { result ≡ spec.line_at self.now.place }
    {
        match self.place {
            Some(place) => place.line,
            None => 1,
        }
    }

    /// Returns the slice; of a file as a whole an empty one.
    pub fn slice(&self) -> &'a str
        requires { spec.HasSlice self.now }
        ensures { result.now ≡ spec.slice_at self.now.source.now self.now.place }
    {
        match self.place {
            Some(place) => &self.source[place.start..place.end],
            None => "",
        }
    }
}

/// Tests whether one of the findings is a fault.
pub fn has_fault(findings: &[Finding]) -> bool
    ensures { result ≡ list_any (λ finding. spec.is_fault finding.matter) findings.now }
{
    findings.iter().any(|finding| finding.matter.is_fault())
}
