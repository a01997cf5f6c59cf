//! What may be done in a directory.

ghost use Rattle.std.specs.Prelude.{◌≡◌};
ghost use Rattle.std.specs.List.{list_any};
ghost use Rattle.desk_exports.specs.Flavours.{same_flavour};
ghost use Rattle.desk_policy.specs.Verdict.{verdict_result};
ghost use Rattle.desk_expect.specs.Action as spec;

use desk_exports::{Flavour, Mapping, Terms};
use desk_policy::Verdict;

/// What a line expects of clients. Each but the first asks for more than a mount.
#[derive(Clone, Copy)]
pub enum Action {
    /// The mount is granted.
    Mount,
    /// It is granted, and not read-only.
    Write,
    /// It is granted, and uid 0 acts as uid 0.
    Root,
    /// It is granted, and by a line that accepts the flavour.
    Flavour(Flavour),
}

impl Action {
    /// Returns the action of a word, if it is one.
    pub fn of(word: &str) -> Option<Action>
        ensures { result ≡ spec.action_of word.now }
    {
        match word {
            "mount" => Some(Action::Mount),
            "write" => Some(Action::Write),
            "root" => Some(Action::Root),
            _ => Flavour::of(word).map(Action::Flavour),
        }
    }

    /// Tests whether a verdict allows it.
    pub fn is_allowed_by(self, verdict: &Verdict<'_>) -> bool
        ensures { result ≡ spec.is_allowed_by self (verdict_result verdict.now) }
    {
        match verdict {
            Verdict::Granted { terms, .. } => self.is_within(terms),
            Verdict::Denied(_) => false,
        }
    }

    /// Tests whether a mount on these terms allows it.
    fn is_within(self, terms: &Terms) -> bool
        ensures { result ≡ spec.is_within self terms.now }
    {
        match self {
            Action::Mount => true,
            Action::Write => !terms.ro,
            Action::Root => keeps_root(terms),
            Action::Flavour(flavour) => accepts(terms, flavour),
        }
    }
}

/// Tests whether uid 0 acts as uid 0.
fn keeps_root(terms: &Terms) -> bool
    ensures { result ≡ spec.keeps_root terms.now }
{
    match terms.map.get() {
        Mapping::Root(acted) | Mapping::All(acted) => acted.uid == 0,
    }
}

/// Tests whether a flavour is accepted.
fn accepts(terms: &Terms, flavour: Flavour) -> bool
    ensures { result ≡ list_any (λ other. same_flavour other flavour) terms.now.flavours }
{
    terms
        .flavours
        .as_slice()
        .iter()
        .any(|other| *other == flavour)
}
