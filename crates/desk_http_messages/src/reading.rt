//! Reading on, until more may be at the front of the bytes that wait.

ghost use Rattle.std.specs.Prelude.{◌≡◌, ◌++◌, ◌+◌, ◌<◌, ◌≤◌, ◌^◌, true, false, List, ℕ, length, take};
ghost use Rattle.std.specs.Io.KnownBytes.{Consumes};
ghost use Rattle.desk_http_messages.specs.Front.{IsWaiting};
ghost use Rattle.desk_http_messages.specs.Reading.{IsDue, ReadOn};

use crate::buffer::Buffer;
use crate::framing::{HEAD_LIMIT, Pending};
use crate::transport::Source;

/// What reading on came to.
#[derive(Clone, Copy)]
pub enum Outcome {
    /// More may be at the front now.
    More,
    /// The bytes wait as before, and no more come.
    AtEnd,
    /// The bytes wait as before, and a read failed.
    Failed,
    /// The bytes wait as before, and no more reads are allowed.
    Bound,
}

/// Reads until more may be at the front of the bytes that wait, which wait so, and returns how many reads it took. So the bytes
/// are looked at anew only when that is due, in whatever pieces they come: a head once for each read that brings bytes of it, since
/// each of these may be its fault; a byte of a body that does not end it, or of a head that is never to come, costs no more than
/// its own reading.
#[tactic(auto, using(crate::proofs::WaitLemmas::due_earlier))]
pub fn read_on<R: Source>(
    buffer: &mut Buffer,
    reader: &mut R,
    pending: Pending,
    most: u32,
) -> (u32, Outcome)
    requires waiting { IsWaiting buffer.old pending }
    requires reads { R.reads reader.old + most < 2 ^ 64 }
    requires good { R.has_failed reader.old ≡ false }
    ensures counted { R.reads reader.new ≡ R.reads reader.old + result.0 }
    ensures few { result.0 ≤ most }
    ensures read { (bytes : List ℕ) × (buffer.new ≡ buffer.old ++ bytes) × Consumes (R.left reader.old) (R.left reader.new) bytes }
    ensures fits { length buffer.new ≤ 73728 }
    ensures outcome { ReadOn pending result.1 (length buffer.old) buffer.new result.0 most (R.has_failed reader.new) (R.left reader.new) }
{
    let mut reads = 0u32;
    loop {
        if reads == most {
            return (reads, Outcome::Bound);
        }
        reads += 1;
        let seen = buffer.waiting().len();
        match buffer.read_from(reader) {
            Err(_) => return (reads, Outcome::Failed),
            Ok(0) => return (reads, Outcome::AtEnd),
            Ok(_) => {
                if !waits_still(buffer.waiting(), seen, pending) {
                    return (reads, Outcome::More);
                }
            }
        }
    }
}

/// Tests whether bytes wait as their first ones did, at which was looked.
#[tactic(auto, using(crate::proofs::WaitLemmas::waits_without, crate::proofs::WaitLemmas::waits_body))]
fn waits_still(bytes: &[u8], seen: usize, pending: Pending) -> bool
    requires seen { seen ≤ length bytes.now }
    requires waiting { IsWaiting (take seen bytes.now) pending }
    ensures still { result ≡ true → IsWaiting bytes.now pending }
    ensures due { result ≡ false → IsDue pending seen bytes.now }
{
    match pending {
        Pending::Message | Pending::Head => bytes.len() == seen,
        Pending::NoHead => bytes.len() < HEAD_LIMIT,
        Pending::Body(whole) => bytes.len() < whole,
    }
}
