//! What a copy keeps of a log that was read twice, one reading after the other, while it may have been written.
//!
//! A log grows at its end alone, behind a byte that is set last, until its pages are in the database file. Only then is it written from its
//! front on again, with a new header. So as long as the header stays, both readings have the same bytes up to what was written meanwhile,
//! and each commit up to there is whole.

ghost use Rattle.std.specs.Prelude.{◌≡◌, ◌≢◌, ◌<◌, ◌≤◌, ℕ, IfSome, length, slice_index};
ghost use Rattle.cli_database_files.specs.Kept.{IsKept};

/// How many bytes the header of a log has.
pub const HEADER_LEN: usize = 32;

/// Returns up to where two readings have the same bytes.
pub fn agreed(first: &[u8], second: &[u8]) -> usize
    ensures first { result ≤ length first.now }
    ensures second { result ≤ length second.now }
    ensures same { (k : ℕ) → k < result → slice_index first.now k ≡ slice_index second.now k }
    ensures longest { result < length first.now → result < length second.now → slice_index first.now result ≢ slice_index second.now result }
{
    let len = first.len().min(second.len());
    for i in 0..len {
        if first[i] != second[i] {
            return i;
        }
    }
    len
}

/// Returns what a copy keeps of a log: what two readings have alike, if its header was the same before them and after them.
pub fn kept<'a>(before: &[u8], first: &'a [u8], second: &[u8], after: &[u8]) -> Option<&'a [u8]>
    ensures { IfSome result (λ kept. IsKept before.now first.now second.now after.now kept.now) }
{
    if before != after {
        return None;
    }
    let len = agreed(first, second);
    let found = &first[..len];
    if found.starts_with(before) {
        Some(found)
    } else {
        None
    }
}
