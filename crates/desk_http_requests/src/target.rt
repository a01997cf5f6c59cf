//! The two parts of a target.

ghost use Rattle.std.specs.Prelude.{◌≡◌};
ghost use Rattle.desk_http_requests.specs.Target as spec;

/// Finds the first `?`.
fn query_place(target: &[u8]) -> Option<usize>
    ensures { result ≡ spec.query_place target.now }
{
    target.iter().position(|byte| *byte == b'?')
}

/// Returns the target up to its first `?`.
pub(crate) fn path_of(target: &[u8]) -> &[u8]
    ensures { result.now ≡ spec.path_of target.now }
{
    match query_place(target) {
        Some(place) => &target[..place],
        None => target,
    }
}

/// Returns the target after its first `?`.
pub(crate) fn query_of(target: &[u8]) -> &[u8]
    ensures { result.now ≡ spec.query_of target.now }
{
    match query_place(target) {
        Some(place) => &target[place + 1..],
        None => &[],
    }
}
