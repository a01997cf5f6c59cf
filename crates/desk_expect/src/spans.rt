//! Sets of addresses that spans hold.

ghost use Rattle.std.specs.Prelude.{◌≡◌, ℕ, ◌++◌, ◌+◌, ◌≤◌, IfOk, OnOk, count_by, map, nat_le, nat_lt};
ghost use Rattle.std.specs.List.{flat_map, list_any};
ghost use Rattle.std.specs.List.Sorted.{IsNonDecreasing};
ghost use Rattle.desk_text.specs.Address.{number_of};
ghost use Rattle.desk_expect.specs.Spans.{holds, is_held};
ghost use Rattle.desk_expect.specs.PrivateSpans.{set_starts, start_if};

use crate::span::Span;
use desk_text::Addr;
use std::alloc::{AllocError, Global};
use std::marker::Model;

/// The addresses that spans hold. Where the spans begin, and where they end, is kept in ascending order each: one of them holds
/// an address if more of them begin up to it than end before it.
#[derive(Drop)]
pub struct SpanSet {
    firsts: Vec<u32>,
    lasts: Vec<u32>,
}

impl Model for SpanSet {
    ghost use Rattle.std.specs.List.Sorted.{IsNonDecreasing};
    ghost use Rattle.desk_expect.specs.Spans.{SpanEnds};

    ghost Value = { SpanEnds };

    ghost view = { λ set. record { firsts = set.firsts.items; lasts = set.lasts.items } };

    ghost invariant = { λ set. IsNonDecreasing set.firsts.items × IsNonDecreasing set.lasts.items };
}

impl SpanSet {
    /// Makes the set of the addresses that these spans hold, which may come in any order and overlap.
    pub fn of(alloc: Global, spans: &[Span]) -> Result<SpanSet, AllocError>
        ensures { IfOk result (λ set. (address : ℕ) → is_held set address ≡ list_any (holds address) spans.now) }
    {
        let mut firsts = firsts_of(alloc, spans)?;
        let mut lasts = lasts_of(alloc, spans)?;
        firsts.sort_unstable();
        lasts.sort_unstable();
        Ok(SpanSet { firsts, lasts })
    }

    /// Tests whether the set has an address, by two binary searches.
    pub fn contains(&self, address: Addr) -> bool
        ensures { result ≡ is_held self.now (number_of address) }
    {
        let number = address.number();
        ended_before(self.lasts.as_slice(), number) < begun_up_to(self.firsts.as_slice(), number)
    }

    /// Adds the addresses at which it changes whether the set has them, but for the first address of all.
    pub(crate) fn push_starts(&self, starts: &mut Vec<Addr>) -> Result<(), AllocError>
        ensures { OnOk result (map number_of starts.new.items ≡ map number_of starts.old.items ++ set_starts self.now) }
    {
        push_all(starts, self.firsts.as_slice(), 0)?;
        push_all(starts, self.lasts.as_slice(), 1)
    }
}

fn firsts_of(alloc: Global, spans: &[Span]) -> Result<Vec<u32>, AllocError>
    ensures { IfOk result (λ firsts. firsts.items ≡ map (λ span. number_of span.first) spans.now) }
{
    spans.iter().map(|span| span.first.number()).collect(alloc)
}

fn lasts_of(alloc: Global, spans: &[Span]) -> Result<Vec<u32>, AllocError>
    ensures { IfOk result (λ lasts. lasts.items ≡ map (λ span. number_of span.last) spans.now) }
{
    spans.iter().map(|span| span.last.number()).collect(alloc)
}

/// Counts those of ascending numbers that are at most a number.
fn begun_up_to(numbers: &[u32], number: u32) -> usize
    requires { IsNonDecreasing numbers.now }
    ensures { result ≡ count_by (λ first. nat_le first number) numbers.now }
{
    numbers.partition_point(|first| *first <= number)
}

/// Counts those of ascending numbers that are less than a number.
fn ended_before(numbers: &[u32], number: u32) -> usize
    requires { IsNonDecreasing numbers.now }
    ensures { result ≡ count_by (λ last. nat_lt last number) numbers.now }
{
    numbers.partition_point(|last| *last < number)
}

/// Adds the addresses that stand so many after these numbers, those without an address before them left out.
fn push_all(starts: &mut Vec<Addr>, numbers: &[u32], step: u32) -> Result<(), AllocError>
    ensures { OnOk result (map number_of starts.new.items ≡ map number_of starts.old.items ++ flat_map (λ number. start_if (number + step)) numbers.now) }
{
    for number in numbers {
        push_start(starts, u64::from(*number) + u64::from(step))?;
    }
    Ok(())
}

/// Adds the address with this number, if there is one, and one before it.
fn push_start(starts: &mut Vec<Addr>, number: u64) -> Result<(), AllocError>
    ensures { OnOk result (map number_of starts.new.items ≡ map number_of starts.old.items ++ start_if number) }
{
    if 0 < number && number < 1 << 32 {
        starts.push(Addr::from_number(number as u32))?;
    }
    Ok(())
}
