//! What mountd(8) grants more than this desk by one policy that it did not by another.

ghost use Rattle.std.specs.Prelude.{◌≡◌, ◌++◌, ◌==◌, IfOk, None, OnOk, Some, ℕ, if◌then◌else◌};
ghost use Rattle.std.specs.BTreeMap as tree;
ghost use Rattle.std.specs.List.{flat_map};
ghost use Rattle.std.specs.Option.{option_copied, option_map};
ghost use Rattle.std.specs.Ordering.{nat_cmp};
ghost use Rattle.std.specs.String.{string_bytes};
ghost use Rattle.desk_text.specs.Address.{number_of};
ghost use Rattle.desk_server_notes.specs.NewsNote as spec;
ghost use Rattle.desk_server_notes.specs.NewsNote.{TellsNews};
ghost use Rattle.desk_server_notes.specs.PrivateNews.{AddsNews, AddsNewsAt, AreApart, AreKnown, is_known, line_if_new};

use crate::mount_findings::wider_at;
use desk_index::Index;
use desk_policy::PolicyView;
use desk_server::WiderGrant;
use desk_tables::Mount;
use desk_text::{Addr, Path};
use std::alloc::{AllocError, Global};
use std::collections::BTreeMap;

/// Names what mountd(8) grants more than this desk by the later policy, and did not by the earlier one, in a line each: by mount
/// points, and then by lines.
pub fn news_note(alloc: Global, before: &Index, after: &Index) -> Result<String, AllocError>
    ensures { IfOk result (λ note. TellsNews before.now after.now (string_bytes note)) }
{
    let mut note = String::new(alloc);
    push_mounts(
        alloc,
        before,
        after,
        after.policy().filesystems().as_slice(),
        &mut note,
    )?;
    Ok(note)
}

/// Adds what is new in the file system of each of these mount points.
fn push_mounts(
    alloc: Global,
    before: &Index,
    after: &Index,
    mounts: &[Mount],
    note: &mut String,
) -> Result<(), AllocError>
    ensures { OnOk result (AddsNews before.now after.now mounts.now (string_bytes note.old) (string_bytes note.new)) }
{
    for mount in mounts {
        push_mount(alloc, before, after, &mount.path, note)?;
    }
    Ok(())
}

/// Adds what is new in the file system of a mount point.
fn push_mount(
    alloc: Global,
    before: &Index,
    after: &Index,
    mount: &Path,
    note: &mut String,
) -> Result<(), AllocError>
    ensures { OnOk result (AddsNewsAt before.now after.now mount.now (string_bytes note.old) (string_bytes note.new)) }
{
    let earlier = wider_at(alloc, before, mount)?;
    let later = wider_at(alloc, after, mount)?;
    let known = known_of(alloc, earlier.as_slice())?;
    push_new(mount, &known, later.as_slice(), note)
}

/// Maps each address to what was granted there.
fn known_of<'a>(
    alloc: Global,
    found: &[WiderGrant<'a>],
) -> Result<BTreeMap<u32, WiderGrant<'a>>, AllocError>
    requires { AreApart found.now }
    ensures { IfOk result (AreKnown found.now) }
{
    let mut known = BTreeMap::new(alloc);
    for one in found {
        keep(&mut known, one.address.number(), *one)?;
    }
    Ok(known)
}

/// Keeps what was granted at an address.
fn keep<'a>(
    known: &mut BTreeMap<u32, WiderGrant<'a>>,
    address: u32,
    one: WiderGrant<'a>,
) -> Result<(), AllocError>
    ensures { OnOk result ((other : ℕ) → tree.get nat_cmp known.new other
        ≡ (if address == other then Some one.entry else tree.get nat_cmp known.old other)) }
{
    known.insert(address, one)?;
    Ok(())
}

/// Adds each of these that is not known.
fn push_new(
    mount: &Path,
    known: &BTreeMap<u32, WiderGrant<'_>>,
    found: &[WiderGrant<'_>],
    note: &mut String,
) -> Result<(), AllocError>
    ensures { OnOk result (string_bytes note.new ≡ string_bytes note.old ++ flat_map (line_if_new mount.now known.now) found.now) }
{
    for one in found {
        push_if_new(mount, known, *one, note)?;
    }
    Ok(())
}

/// Adds one, unless it is known.
fn push_if_new(
    mount: &Path,
    known: &BTreeMap<u32, WiderGrant<'_>>,
    one: WiderGrant<'_>,
    note: &mut String,
) -> Result<(), AllocError>
    ensures { OnOk result (string_bytes note.new ≡ string_bytes note.old ++ line_if_new mount.now known.now one.entry) }
{
    if is_known(known, one) {
        Ok(())
    } else {
        push_line(mount, one, note)
    }
}

/// Tests whether it is known that its directory was granted at its address.
fn is_known(known: &BTreeMap<u32, WiderGrant<'_>>, one: WiderGrant<'_>) -> bool
    ensures { result ≡ is_known known.now one.entry }
{
    match known.get(&one.address.number()).copied() {
        Some(old) => is_same_directory(old.directory, one.directory),
        None => false,
    }
}

/// Tests whether two are the same directory, or both none.
fn is_same_directory(directory: Option<&Path>, other: Option<&Path>) -> bool
    ensures { result ≡ spec.is_same_directory (option_map (λ path. path.now) directory.entry) (option_map (λ path. path.now) other.entry) }
{
    match (directory, other) {
        (None, None) => true,
        (Some(directory), Some(other)) => *directory == *other,
        (Some(_), None) | (None, Some(_)) => false,
    }
}

/// Adds the line of one.
fn push_line(mount: &Path, one: WiderGrant<'_>, note: &mut String) -> Result<(), AllocError>
    ensures { OnOk result (string_bytes note.new ≡ string_bytes note.old ++ spec.news_line mount.now one.entry) }
{
    push_address(one.address, note)?;
    push_granted(mount, one.other, one.directory, note)
}

/// Adds to whom mountd(8) now grants something.
fn push_address(address: Addr, note: &mut String) -> Result<(), AllocError>
    ensures { OnOk result (string_bytes note.new ≡ string_bytes note.old ++ spec.now_grants (number_of address)) }
{
    write!(note, "exportdesk: mountd(8) now grants {address} ")
}

/// Adds what a line grants, and ends the line.
fn push_granted(
    mount: &Path,
    line: u32,
    directory: Option<&Path>,
    note: &mut String,
) -> Result<(), AllocError>
    ensures { OnOk result (string_bytes note.new ≡ string_bytes note.old ++ spec.granted_text mount.now line (option_map (λ path. path.now) directory.entry)) }
{
    match directory {
        Some(directory) => push_directory(mount, line, directory, note),
        None => push_any(mount, line, note),
    }
}

/// Adds that a line grants a directory, and ends the line.
fn push_directory(
    mount: &Path,
    line: u32,
    directory: &Path,
    note: &mut String,
) -> Result<(), AllocError>
    ensures { OnOk result (string_bytes note.new ≡ string_bytes note.old ++ spec.granted_text mount.now line (Some directory.now)) }
{
    note.push_str(directory.text())?;
    write!(note, " by line {line} of ")?;
    note.push_str(mount.text())?;
    note.push('\n')
}

/// Adds that a line grants any directory of a mount point, and ends the line.
fn push_any(mount: &Path, line: u32, note: &mut String) -> Result<(), AllocError>
    ensures { OnOk result (string_bytes note.new ≡ string_bytes note.old ++ spec.granted_text mount.now line None) }
{
    note.push_str("any directory of ")?;
    note.push_str(mount.text())?;
    write!(note, " by line {line}\n")
}
