//! What decides how long a connection goes on: functions of moments, which ask nothing of the system. A moment is how many
//! milliseconds after the start of the service it is.

ghost use Rattle.std.specs.Prelude.{◌≡◌, ℕ, ◌-◌, ◌^◌, Bool, min};
ghost use Rattle.std.specs.Option.{option_map};
ghost use Rattle.cli_serve.specs.Limits.{ComesAt, begun, has_to_end, is_over, makes_room_before, with_bytes};
ghost use Rattle.cli_serve.specs.PrivateLimits.{earlier};

/// How long is read on behind the end of a connection.
const UNREAD_MILLIS: u64 = 2000;

/// What a connection does, and since when.
#[derive(Clone, Copy)]
pub enum Phase {
    /// It is idle, since its accept or its last reply.
    Idle(u64),
    /// A message comes, since its first byte.
    Message(u64),
    /// A reply is sent, since that began.
    Reply(u64),
    /// Its stream has ended since then, and what still comes is read and dropped.
    Ended(u64),
}

/// Returns when a connection has to end, unless it does something else before. A limit of 0 is none.
pub fn end_of(limit: u64, phase: Phase) -> Option<u128>
    ensures { ComesAt (has_to_end limit phase) result }
{
    match phase {
        Phase::Ended(since) => limit_end(UNREAD_MILLIS, since),
        _ => limit_end(limit, begun(phase)),
    }
}

/// Returns since when a connection does what it does.
pub fn begun(phase: Phase) -> u64
    ensures { result ≡ begun phase }
{
    match phase {
        Phase::Idle(since) => since,
        Phase::Message(since) => since,
        Phase::Reply(since) => since,
        Phase::Ended(since) => since,
    }
}

/// Returns when a limit of time since a moment is over. 0 is no limit.
fn limit_end(limit: u64, since: u64) -> Option<u128>
    ensures { ComesAt (is_over limit since) result }
{
    if limit > 0 {
        Some(u128::from(since) + u128::from(limit))
    } else {
        None
    }
}

/// Tells whether a moment has come, if it ever comes.
pub fn has_come(moment: Option<u128>, now: u64) -> bool
    ensures { (is_so : ℕ → Bool) → ComesAt is_so moment → result ≡ is_so now }
{
    match moment {
        Some(moment) => moment <= u128::from(now),
        None => false,
    }
}

/// Returns the earlier of two moments that may never come.
pub fn earlier(one: Option<u128>, other: Option<u128>) -> Option<u128>
    ensures { result ≡ earlier one other }
{
    match (one, other) {
        (Some(one), Some(other)) => Some(one.min(other)),
        (Some(one), None) => Some(one),
        (None, other) => other,
    }
}

/// Returns how long it is until a moment: 0 if it has come, and none if it never comes.
pub fn time_until(moment: Option<u128>, now: u64) -> Option<u64>
    ensures { result ≡ option_map (λ moment. min (moment - now) (2 ^ 64 - 1)) moment }
{
    let moment = moment?;
    Some(
        moment
            .saturating_sub(u128::from(now))
            .min(u128::from(u64::MAX)) as u64,
    )
}

/// Tells whether, where room has to be made, a connection that has been so since then makes it before any that are known.
pub fn makes_room_before(since: u64, first: Option<u64>) -> bool
    ensures { result ≡ makes_room_before since first }
{
    match first {
        Some(first) => since < first,
        None => true,
    }
}

/// Returns what a connection does once bytes came.
pub fn with_bytes(phase: Phase, now: u64) -> Phase
    ensures { result ≡ with_bytes phase now }
{
    match phase {
        Phase::Idle(_) => Phase::Message(now),
        _ => phase,
    }
}
