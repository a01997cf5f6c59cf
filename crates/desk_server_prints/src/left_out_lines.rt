//! What is said of the lines that mountd(8) may leave out.

ghost use Rattle.std.specs.Prelude.{◌≡◌, ◌++◌, IfOk, OnOk};
ghost use Rattle.std.specs.String.{string_bytes};
ghost use Rattle.desk_tables.specs.FileSystems.{fs_of};
ghost use Rattle.desk_server_prints.specs.LeftOutNote as spec;
ghost use Rattle.desk_server_prints.specs.LeftOutNote.{AreRepeatedIn, TellsLeftOut};
ghost use Rattle.desk_server_prints.specs.PrivateLeftOut.{AddsNote};

use desk_index::Index;
use desk_origins::{LineName, Origin};
use desk_policy::PolicyView;
use desk_server::{RepeatedClient, repeated_clients};
use desk_tables::Mount;
use desk_text::{Addr, Path};
use std::alloc::{AllocError, Global};

/// Names of each file system the first line that mountd(8) may leave out, since an earlier one has a client of it, in a line each.
pub fn left_out_note(alloc: Global, index: &Index) -> Result<String, AllocError>
    ensures { IfOk result (λ note. TellsLeftOut index.now (string_bytes note)) }
{
    let mut note = String::new(alloc);
    push_files(
        alloc,
        index,
        index.policy().filesystems().as_slice(),
        &mut note,
    )?;
    Ok(note)
}

/// Adds the first such line of the file system of each of these mount points.
fn push_files(
    alloc: Global,
    index: &Index,
    mounts: &[Mount],
    note: &mut String,
) -> Result<(), AllocError>
    ensures { OnOk result (AddsNote index.now mounts.now (string_bytes note.old) (string_bytes note.new)) }
{
    for mount in mounts {
        let found = repeated_at(alloc, index, &mount.path)?;
        push_first(
            index.policy().origins(),
            &mount.path,
            found.as_slice(),
            note,
        )?;
        drop(found);
    }
    Ok(())
}

/// Finds the lines of the file system of a mount point that have a client of an earlier one.
fn repeated_at(
    alloc: Global,
    index: &Index,
    mount: &Path,
) -> Result<Vec<RepeatedClient>, AllocError>
    ensures { IfOk result (λ found. AreRepeatedIn index.now (fs_of index.now.table mount.now) found.items) }
{
    match index.policy().filesystems().of(mount) {
        Some(fs) => repeated_clients(alloc, index, fs),
        None => Ok(Vec::new(alloc)),
    }
}

/// Adds the first of these lines of the file system of a mount point, if there is one.
fn push_first(
    origins: &[Origin],
    mount: &Path,
    found: &[RepeatedClient],
    note: &mut String,
) -> Result<(), AllocError>
    ensures { OnOk result (string_bytes note.new ≡ string_bytes note.old ++ spec.first_note origins.now mount.now found.now) }
{
    match found.first() {
        Some(one) => push_line(origins, mount, *one, note),
        None => Ok(()),
    }
}

/// Adds a line of the file system of a mount point that mountd(8) may leave out.
fn push_line(
    origins: &[Origin],
    mount: &Path,
    one: RepeatedClient,
    note: &mut String,
) -> Result<(), AllocError>
    ensures { OnOk result (string_bytes note.new ≡ string_bytes note.old ++ spec.line_note origins.now mount.now one) }
{
    let line = one.line;
    push_left_out(mount, LineName { origins, line }, note)?;
    let line = one.other;
    push_client(LineName { origins, line }, one.address, note)
}

/// Adds that mountd(8) may leave out a line of the file system of a mount point.
fn push_left_out(mount: &Path, line: LineName<'_>, note: &mut String) -> Result<(), AllocError>
    ensures { OnOk result (string_bytes note.new ≡ string_bytes note.old ++ spec.left_out_text line.entry.origins.now mount.now line.entry.line) }
{
    write!(
        note,
        "exportdesk: mountd(8) may answer otherwise, since it may leave out line {line} of "
    )?;
    note.push_str(mount.text())
}

/// Adds that a line has a client, and ends the line.
fn push_client(line: LineName<'_>, address: Addr, note: &mut String) -> Result<(), AllocError>
    ensures { OnOk result (string_bytes note.new ≡ string_bytes note.old ++ spec.client_text line.entry.origins.now line.entry.line address) }
{
    write!(note, ": line {line} has {address}")?;
    note.push('\n')
}
