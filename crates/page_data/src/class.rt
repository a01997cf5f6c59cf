//! What a mount comes to for a client.

ghost use Rattle.std.specs.Prelude.{◌≡◌};
ghost use Rattle.std.specs.Bool.{Decides};
ghost use Rattle.desk_policy.specs.Verdict.{verdict_result};
ghost use Rattle.page_data.specs.Class as spec;
ghost use Rattle.page_data.specs.declared.class.Class.{Class};

use desk_exports::{Mapping, Terms};
use desk_policy::Verdict;
use desk_who::Alike;

/// What a client may in a directory, from the least to the most.
#[derive(Clone, Copy)]
pub enum Class {
    /// It may not mount it.
    Denied,
    /// The mount is read-only.
    ReadOnly,
    /// The mount is read-write.
    ReadWrite,
    /// Root of the client, or each of its users, acts as root, be the mount read-only or not.
    RootKept,
}

impl Alike for Class {
    ghost Meaning = { Class };

    ghost meaning = { λ class. class };

    fn is_alike(&self, other: &Class) -> bool
        ensures { Decides result (self.now ≡ other.now) }
    {
        self.rank() == other.rank()
    }
}

impl Class {
    /// Returns what a verdict comes to.
    pub fn of(verdict: &Verdict<'_>) -> Class
        ensures { result ≡ spec.class_of (verdict_result verdict.now) }
    {
        match verdict {
            Verdict::Granted { terms, .. } => Class::of_terms(terms),
            Verdict::Denied(_) => Class::Denied,
        }
    }

    /// Returns what a mount on these terms comes to.
    pub fn of_terms(terms: &Terms) -> Class
        ensures { result ≡ spec.class_of_terms terms.now }
    {
        if keeps_root(terms) {
            Class::RootKept
        } else if terms.ro {
            Class::ReadOnly
        } else {
            Class::ReadWrite
        }
    }

    /// Returns its place in the order, from 0.
    pub fn rank(self) -> u8
        ensures { result ≡ spec.rank_of self }
    {
        match self {
            Class::Denied => 0,
            Class::ReadOnly => 1,
            Class::ReadWrite => 2,
            Class::RootKept => 3,
        }
    }

    /// Returns the greater of two.
    pub fn most(self, other: Class) -> Class
        ensures { result ≡ spec.most_of self other }
    {
        if self.rank() < other.rank() {
            other
        } else {
            self
        }
    }
}

/// Tests whether root of the client, or each of its users, acts as root.
pub fn keeps_root(terms: &Terms) -> bool
    ensures { result ≡ spec.keeps_root terms.now }
{
    match terms.map.get() {
        Mapping::Root(acted) | Mapping::All(acted) => acted.uid == 0,
    }
}
