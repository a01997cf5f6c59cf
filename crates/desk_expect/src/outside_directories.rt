//! Directories of lines that no file system has anything of.

ghost use Rattle.std.specs.Prelude.{◌≡◌, ◌++◌, IfOk, OnOk, map};
ghost use Rattle.std.specs.List.{list_any};
ghost use Rattle.std.specs.String.{string_bytes};
ghost use Rattle.desk_expect.specs.OutsideDirectories as spec;

use crate::expectation::Expectation;
use crate::scope::Scope;
use desk_tables::{FileSystems, Mount};
use desk_text::Path;
use std::alloc::{AllocError, Global};

/// A directory of which neither it nor anything below it is in a file system, and the line that is about it. What the line
/// forbids there is denied to everybody, whatever the policy says: the directory may be misspelled.
#[derive(Clone, Copy)]
pub struct Outside<'a> {
    pub expectation: &'a Expectation,
    pub path: &'a Path,
}

/// Finds the directories of these lines of which neither they nor anything below them is in one of these file systems, in the
/// order of the lines and of the directories on each.
pub fn find_outside<'a>(
    alloc: Global,
    filesystems: &FileSystems,
    expectations: &'a [Expectation],
) -> Result<Vec<Outside<'a>>, AllocError>
    ensures { IfOk result (λ found. map spec.outside_value found.items ≡ spec.outside_in filesystems.now expectations.now) }
{
    let mut found = Vec::new(alloc);
    for expectation in expectations {
        push_outside(filesystems, expectation, &mut found)?;
    }
    Ok(found)
}

/// Adds those of a line.
fn push_outside<'a>(
    filesystems: &FileSystems,
    expectation: &'a Expectation,
    found: &mut Vec<Outside<'a>>,
) -> Result<(), AllocError>
    ensures { OnOk result (map spec.outside_value found.new.items ≡ map spec.outside_value found.old.items ++ spec.outside_of filesystems.now expectation.now) }
{
    for scope in expectation.scopes.as_slice() {
        push_if_outside(filesystems, expectation, scope, found)?;
    }
    Ok(())
}

/// Adds a directory of a line, if it is one of those.
fn push_if_outside<'a>(
    filesystems: &FileSystems,
    expectation: &'a Expectation,
    scope: &'a Scope,
    found: &mut Vec<Outside<'a>>,
) -> Result<(), AllocError>
    ensures { OnOk result (map spec.outside_value found.new.items
        ≡ map spec.outside_value found.old.items ++ spec.outside_scope filesystems.now expectation.now scope.now) }
{
    if is_outside(filesystems, &scope.path) {
        found.push(Outside {
            expectation,
            path: &scope.path,
        })?;
    }
    Ok(())
}

/// Tests whether a directory is under no mount point, and no mount point is under it.
fn is_outside(filesystems: &FileSystems, dir: &Path) -> bool
    ensures { result ≡ spec.is_outside filesystems.now dir.now }
{
    !has_beside(filesystems.as_slice(), dir)
}

fn has_beside(mounts: &[Mount], dir: &Path) -> bool
    ensures { result ≡ list_any (spec.is_beside dir.now) mounts.now }
{
    mounts.iter().any(|mount| is_beside(dir, mount))
}

/// Tests whether a mount point is above a directory, is it, or lies below it.
fn is_beside(dir: &Path, mount: &Mount) -> bool
    ensures { result ≡ spec.is_beside dir.now mount.now }
{
    dir.is_under(&mount.path) || mount.path.is_under(dir)
}

/// Writes a line for each of these directories of the lines of a file.
pub fn outside_text(
    alloc: Global,
    file: &str,
    outside: &[Outside<'_>],
) -> Result<String, AllocError>
    ensures { IfOk result (λ text. string_bytes text ≡ spec.outside_text file.now (map spec.outside_value outside.now)) }
{
    let mut text = String::new(alloc);
    for one in outside {
        push_line(file, *one, &mut text)?;
    }
    Ok(text)
}

fn push_line(file: &str, outside: Outside<'_>, text: &mut String) -> Result<(), AllocError>
    ensures { OnOk result (string_bytes text.new ≡ string_bytes text.old ++ spec.outside_line file.now (spec.outside_value outside.entry)) }
{
    push_place(file, outside, text)?;
    text.push_str(" is in no file system, nor is anything below it\n")?;
    Ok(())
}

fn push_place(file: &str, outside: Outside<'_>, text: &mut String) -> Result<(), AllocError>
    ensures { OnOk result (string_bytes text.new ≡ string_bytes text.old ++ spec.outside_place file.now (spec.outside_value outside.entry)) }
{
    let line = outside.expectation.line;
    let path = outside.path.text();
    write!(text, "{file}:{line}: {path}")
}
