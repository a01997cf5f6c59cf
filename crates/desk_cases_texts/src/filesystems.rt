//! Questions on file systems.

ghost use Rattle.desk_text.specs.Lines.{IsReadable};

use crate::answers::{Asked, number, say, say_found, say_whether, split};
use crate::site::{Site, set_some};
use desk_tables::{FileSystems, FsId};
use desk_text::{Path, PathFault, ReadError};
use std::alloc::{AllocError, Global};

/// Answers a question on the file systems. `filesystems TEXT`: `read`, or the fault.
pub fn answer(alloc: Global, site: &mut Site, out: &mut String, question: &str, text: &str) -> Asked
    requires { IsReadable text.now }
{
    match (question, &site.filesystems) {
        ("filesystems", _) => set_some(&mut site.filesystems, out, FileSystems::read(alloc, text)),
        ("mounts", _) => of_mounts(alloc, site, out, text),
        ("mount", Some(table)) => mount(table, out, text),
        ("of", Some(table)) => of(alloc, table, out, text),
        ("keeps", Some(table)) => keeps(table, out, text),
        ("guarded", Some(table)) => guarded(table, out, text),
        _ => Ok(false),
    }
}

/// `mounts PATH PATH ..`: `read`, or `too many`. Sets the table of these mount points, which nobody keeps.
fn of_mounts(alloc: Global, site: &mut Site, out: &mut String, text: &str) -> Asked {
    match mounted(alloc, text) {
        Ok(Some(table)) => {
            site.filesystems = Some(table);
            say(out, "read")
        }
        Ok(None) => say(out, "too many"),
        Err(ReadError::Fault(_)) => Ok(false),
        Err(ReadError::Memory) => Err(AllocError),
    }
}

/// Returns the table of the mount points that words write; none if they are too many.
pub fn mounted(alloc: Global, text: &str) -> Result<Option<FileSystems>, ReadError<PathFault>> {
    let paths = paths(alloc, text)?;
    Ok(FileSystems::from_mounts(alloc, paths)?)
}

/// Returns the paths that words write.
fn paths(alloc: Global, text: &str) -> Result<Vec<Path>, ReadError<PathFault>> {
    let mut paths = Vec::new(alloc);
    for path in text.split_whitespace() {
        paths.push(Path::read(alloc, path)?)?;
    }
    Ok(paths)
}

/// Returns the file system with the number that a text writes.
pub fn fs_id(text: &str) -> Option<FsId> {
    Some(FsId(number(text)?))
}

/// `mount NUMBER`: the mount point at the place, or `none`.
pub fn mount(table: &FileSystems, out: &mut String, text: &str) -> Asked {
    match fs_id(text) {
        Some(id) => say_path(out, table.mount(id)),
        None => Ok(false),
    }
}

fn say_path(out: &mut String, found: Option<&Path>) -> Asked {
    match found {
        Some(path) => say(out, path.text()),
        None => Ok(true),
    }
}

/// `of PATH`: the place of its file system, or `none`.
fn of(alloc: Global, table: &FileSystems, out: &mut String, text: &str) -> Asked {
    match Path::read(alloc, text) {
        Ok(path) => say_place(out, table.of(&path)),
        Err(_) => Ok(false),
    }
}

fn say_place(out: &mut String, found: Option<FsId>) -> Asked {
    match found {
        Some(id) => say_found(out, Some(id.0)),
        None => Ok(true),
    }
}

/// `keeps NUMBER NAME`: whether the custodian keeps the exports file of the file system at the place, `yes` or `no`.
fn keeps(table: &FileSystems, out: &mut String, text: &str) -> Asked {
    let (place, name) = split(text);
    match fs_id(place) {
        Some(id) => say_whether(out, table.keeps(name, id)),
        None => Ok(false),
    }
}

/// `guarded NUMBER`: whether the exports file of the file system at the place is guarded, `yes` or `no`.
fn guarded(table: &FileSystems, out: &mut String, text: &str) -> Asked {
    match fs_id(text) {
        Some(id) => say_whether(out, table.guarded(id)),
        None => Ok(false),
    }
}
