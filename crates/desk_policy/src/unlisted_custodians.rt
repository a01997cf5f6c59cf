//! File systems that name a custodian who is not listed.

ghost use Rattle.std.specs.Prelude.{◌≡◌, min};
ghost use Rattle.std.specs.Option.{option_map_or};
ghost use Rattle.desk_policy.specs.UnlistedCustodians.{has_unlisted, unlisted_line};

use desk_tables::{Custodians, FileSystems, Mount};

/// Finds the first line of the file systems that names a custodian who is not listed.
pub fn unlisted_line(custodians: &Custodians, filesystems: &FileSystems) -> Option<u32>
    ensures { result ≡ unlisted_line custodians.now filesystems.now }
{
    let mut found = None;
    for mount in filesystems.as_slice() {
        if has_unlisted(custodians, mount) {
            found = Some(lesser(mount.line, found));
        }
    }
    found
}

/// Gives the number, or the other one if that is less.
fn lesser(number: u32, other: Option<u32>) -> u32
    ensures { result ≡ option_map_or (min number) other number }
{
    match other {
        Some(other) => number.min(other),
        None => number,
    }
}

/// Tests whether a custodian of a mount point is not listed.
fn has_unlisted(custodians: &Custodians, mount: &Mount) -> bool
    ensures { result ≡ has_unlisted custodians.now mount.now }
{
    mount
        .custodians
        .as_slice()
        .iter()
        .any(|name| custodians.digest_of(name.as_str()).is_none())
}
