//! The rule on the names of a line. (exports(5))

ghost use Rattle.std.specs.Prelude.{◌≡◌, ◌==◌, ◌||◌, ◌&&◌, not};
ghost use Rattle.std.specs.List.{list_any};
ghost use Rattle.desk_text.specs.Address.{is_address, is_dotted};
ghost use Rattle.desk_exports.specs.Rules as spec;

use crate::names::Names;
use desk_text::{Addr, is_dotted};

/// Tests whether a name is neither a name nor an address.
pub(crate) fn has_bad_name(names: &Names) -> bool
    ensures { result ≡ list_any spec.is_bad_name names.now }
{
    for index in 0..names.len() {
        if is_bad_name(names.get(index)) {
            return true;
        }
    }
    false
}

pub(crate) fn is_bad_name(name: &str) -> bool
    ensures { result ≡ spec.is_bad_name name.now }
{
    name.is_empty() || name.len() > 255 || is_badly_spelled(name)
}

/// Tests whether a name has a separator, or consists of digits and dots but is not an address.
fn is_badly_spelled(name: &str) -> bool
    ensures { result ≡ (list_any (λ b. b == 44 || b == 61) name.now || (is_dotted name.now && not (is_address name.now))) }
{
    if is_dotted(name) {
        !is_address(name)
    } else {
        has_separator(name)
    }
}

fn has_separator(name: &str) -> bool
    ensures { result ≡ list_any (λ b. b == 44 || b == 61) name.now }
{
    let bytes = name.as_bytes();
    bytes.contains(&b',') || bytes.contains(&b'=')
}

fn is_address(name: &str) -> bool
    ensures { result ≡ is_address name.now }
{
    Addr::read(name).is_ok()
}
