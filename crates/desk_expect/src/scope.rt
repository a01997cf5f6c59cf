//! The directories that a line is about.

ghost use Rattle.std.specs.Prelude.{◌≡◌, IfOk, codes};
ghost use Rattle.std.specs.Option.{option_copied};
ghost use Rattle.std.specs.Str.{bytes_eq};
ghost use Rattle.desk_expect.specs.Scope as spec;

use desk_text::{Path, ReadError};
use std::alloc::{AllocError, Global};

/// A directory, or it and all below it.
#[derive(Drop)]
pub struct Scope {
    pub path: Path,
    /// Whether all directories below it are meant too, in whatever file system.
    pub below: bool,
}

impl Scope {
    /// Reads a directory, or a directory with `/...` after it. None if it is not one.
    pub fn read(alloc: Global, text: &str) -> Result<Option<Scope>, AllocError>
        ensures { IfOk result (λ scope. scope ≡ spec.read_scope text.now) }
    {
        match before_dots(text) {
            Some(dir) => Scope::of(alloc, or_root(dir), true),
            None => Scope::of(alloc, text, false),
        }
    }

    fn of(alloc: Global, dir: &str, below: bool) -> Result<Option<Scope>, AllocError>
        ensures { IfOk result (λ scope. scope ≡ spec.scope_of dir.now below) }
    {
        if has_dots(dir) {
            return Ok(None);
        }
        match Path::read(alloc, dir) {
            Ok(path) => Ok(Some(Scope { path, below })),
            Err(ReadError::Fault(_)) => Ok(None),
            Err(ReadError::Memory) => Err(AllocError),
        }
    }
}

/// Returns what stands before `/...` at the end of a text, if it ends so.
fn before_dots(text: &str) -> Option<&str>
    ensures { option_copied result ≡ spec.before_dots text.now }
{
    text.strip_suffix("/...")
}

fn or_root(dir: &str) -> &str
    ensures { result.now ≡ spec.or_root dir.now }
{
    if dir.is_empty() { "/" } else { dir }
}

/// Tests whether a component of a text is `...`.
fn has_dots(text: &str) -> bool
    ensures { result ≡ spec.has_dots text.now }
{
    text.split('/').any(|part| is_dots(part))
}

fn is_dots(part: &str) -> bool
    ensures { result ≡ bytes_eq part.now (codes "...") }
{
    part == "..."
}
