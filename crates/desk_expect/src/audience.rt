//! Whom a line is about.

ghost use Rattle.std.specs.Prelude.{◌≡◌, IfOk, not};
ghost use Rattle.std.specs.Bool.{Decides};
ghost use Rattle.std.specs.List.{list_all};
ghost use Rattle.desk_text.specs.Address.{number_of};
ghost use Rattle.desk_expect.specs.Audience.{IsNobody, contains};
ghost use Rattle.desk_expect.specs.PrivateAudience.{AreAudienceStarts};

use crate::spans::SpanSet;
use desk_text::laws::sorted_sets_are_unique;
use desk_text::{Addr, AddrSet};
use std::alloc::{AllocError, Global};
use std::marker::Model;

/// The addresses that a line is about: those that it names, but for others.
pub struct Audience {
    named: SpanSet,
    but: SpanSet,
    starts: AddrSet,
}

// It is written out, so that the crates above do not prove again how each part is dropped.
impl Drop for Audience {
    fn drop(self) {
        let Audience {
            named: _,
            but: _,
            starts: _,
        } = self;
    }
}

impl Model for Audience {
    ghost use Rattle.desk_expect.specs.Audience.{AudienceValue};
    ghost use Rattle.desk_expect.specs.PrivateAudience.{AreAudienceStarts};

    ghost Value = { AudienceValue };

    ghost view = { λ a. record { named = a.named; but = a.but } };

    ghost invariant = { λ a. AreAudienceStarts (record { named = a.named; but = a.but }) a.starts };
}

impl Audience {
    /// Makes the audience of the addresses of a set, but for those of another.
    pub fn new(alloc: Global, named: SpanSet, but: SpanSet) -> Result<Audience, AllocError>
        ensures { IfOk result (λ audience. audience ≡ record { named = named; but = but }) }
    {
        match starts_of(alloc, &named, &but) {
            Ok(starts) => Ok(Audience { named, but, starts }),
            Err(error) => {
                drop(named);
                drop(but);
                Err(error)
            }
        }
    }

    /// Tests whether the line is about an address.
    pub fn contains(&self, address: Addr) -> bool
        ensures { result ≡ contains self.now (number_of address) }
    {
        self.named.contains(address) && !self.but.contains(address)
    }

    /// Lends the addresses at which it changes whether the line is about them, but for the first address of all.
    pub fn starts(&self) -> &AddrSet
        ensures { AreAudienceStarts self.now result.now }
    {
        &self.starts
    }

    /// Tests whether the line is about no address.
    pub fn is_nobody(&self) -> bool
        ensures { Decides result (IsNobody self.now) }
    {
        let starts = self.starts();
        !self.contains(Addr::from_number(0)) && self.has_none_of(starts.as_slice())
    }

    /// Tests whether the line is about none of these addresses.
    fn has_none_of(&self, addresses: &[Addr]) -> bool
        ensures { result ≡ list_all (λ address. not (contains self.now (number_of address))) addresses.now }
    {
        addresses.iter().all(|address| !self.contains(*address))
    }
}

/// Gathers the addresses at which it changes whether some of the sets have them.
fn starts_of(alloc: Global, named: &SpanSet, but: &SpanSet) -> Result<AddrSet, AllocError>
    ensures { IfOk result (λ starts. AreAudienceStarts (record { named = named.now; but = but.now }) starts) }
{
    sorted_sets_are_unique();
    let mut starts = Vec::new(alloc);
    named.push_starts(&mut starts)?;
    but.push_starts(&mut starts)?;
    Ok(AddrSet::from_vec(starts))
}
