//! A filter before a list of keys.

ghost use Rattle.std.specs.Prelude.{◌≡◌, ℕ, All, IfOk, IsTrue};
ghost use Rattle.desk_index.specs.PrivateFilter.{Passes, mark_of};

use std::alloc::{AllocError, Global};

/// How many keys share a word at most, on average.
const KEYS_A_WORD: usize = 4;

/// An odd number without a pattern, by which keys are spread: 2^64 divided by the golden ratio.
const SPREADING: u64 = 11_400_714_819_323_198_485;

/// Bits by which most keys that are not in a list are told without a search of it. Each key of the list has three bits
/// in one word, and all are set.
#[derive(Drop)]
pub struct Filter {
    words: Vec<u64>,
}

impl Filter {
    /// Makes the filter of these keys.
    pub fn of_keys(alloc: Global, keys: &[u32]) -> Result<Filter, AllocError>
        ensures { IfOk result (λ filter. All (Passes filter.words.items) keys.now) }
    {
        let count = (keys.len() / KEYS_A_WORD + 1).next_power_of_two();
        let mut words = vec![in alloc; 0; count]?;
        for key in keys {
            set_bits(&mut words, *key);
        }
        Ok(Filter { words })
    }

    /// Tests whether a key may be in the list. Each that is passes.
    pub fn passes(&self, key: u32) -> bool
        ensures { Passes self.now.words.items key → IsTrue result }
    {
        let (place, bits) = mark_of(key, self.words.len());
        match self.words.get(place) {
            Some(word) => *word & bits == bits,
            None => true,
        }
    }
}

/// Sets the bits of a key. Those that are set stay.
fn set_bits(words: &mut Vec<u64>, key: u32)
    ensures sets { Passes words.new.items key }
    ensures keeps { (other : ℕ) → Passes words.old.items other → Passes words.new.items other }
{
    let (place, bits) = mark_of(key, words.len());
    if let Some(word) = words.get_mut(place) {
        *word |= bits;
    }
}

/// Gives the place of a key's word among so many, a power of 2, and its three bits there. Keys are spread, so that
/// those which differ little have other bits.
#[tactic(auto, unfolding(crate::specs::PrivateFilter::mark_of))]
fn mark_of(key: u32, count: usize) -> (usize, u64)
    ensures { result ≡ mark_of key count }
{
    let spread = u64::from(key).wrapping_mul(SPREADING);
    let bits = 1 << (spread >> 58) | 1 << (spread >> 52 & 63) | 1 << (spread >> 46 & 63);
    ((spread >> 32) as usize & count.wrapping_sub(1), bits)
}
