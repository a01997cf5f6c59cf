//! Paths of directories. A path is the list of its components, however many slashes its text has between them.

ghost use Rattle.std.specs.Prelude.{◌≡◌, ℕ, ◌++◌, ◌∷◌, [], ◌<◌, IfOk, IfErr, List, length};
ghost use Rattle.std.specs.List.{list_any, slice_split};
ghost use Rattle.std.specs.String.{string_bytes};
ghost use Rattle.std.specs.Bool.{◌==◌};
ghost use Rattle.std.specs.Fmt.{decimal};
ghost use Rattle.desk_text.specs.Path.{IsPath, components, is_absolute, is_dot_component, is_under, path_fault_number, path_text, read_path, same_path};
ghost use Rattle.desk_text.specs.Reading.{Reads};
ghost use Rattle.desk_text.specs.PrivatePath.{ends_before, goes_below, is_empty, kept_text};

use crate::reading::ReadError;
use std::alloc::{AllocError, Global};
use std::cmp::Ordering;
use std::marker::Model;
use thiserror::Error;

/// The most bytes that the text of a path may have, slashes counted.
pub const LONGEST_PATH: usize = 1024;

/// An absolute path, seen as its components. Each is kept behind a slash, so that `/` takes no memory.
#[derive(Clone, Debug, Drop)]
pub struct Path {
    text: String,
}

impl Model for Path {
    ghost use Rattle.std.specs.Prelude.{◌≡◌, ℕ, List};
    ghost use Rattle.std.specs.String.{string_bytes};
    ghost use Rattle.desk_text.specs.Path.{components};
    ghost use Rattle.desk_text.specs.PrivatePath.{kept_text};

    ghost Value = { List (List ℕ) };

    ghost view = { λ p. components (string_bytes p.text) };

    ghost invariant = { λ p. kept_text (components (string_bytes p.text)) ≡ string_bytes p.text };
}

impl PartialEq for Path {
    ghost use Rattle.std.proofs.Common.{rules};
    ghost use Rattle.std.specs.Bool.{◌==◌};
    ghost use Rattle.std.specs.Cmp.Rules.{comparing};
    ghost use Rattle.std.specs.Cmp.Lexicographic.{pointwise};
    ghost use Rattle.std.specs.Ordering.{on};
    ghost use Rattle.desk_text.specs.Path.{path_text, same_path};

    ghost eq = { on path_text (pointwise ◌==◌) };

    ghost laws = { Prim.search (comparing, rules) };

    fn eq(&self, other: &Path) -> bool
        ensures printed { result ≡ on path_text (pointwise ◌==◌) self.now other.now }
        ensures same { result ≡ same_path self.now other.now }
    {
        self.text() == other.text()
    }
}

impl Eq for Path {
    ghost use Rattle.std.proofs.Common.{rules};
    ghost use Rattle.std.specs.Cmp.Rules.{comparing};

    ghost laws = { Prim.search (comparing, rules) };
}

/// Paths are in byte order of their printed forms, so that their order is that of a sorted listing.
impl Ord for Path {
    ghost use Rattle.std.proofs.Common.{rules};
    ghost use Rattle.std.specs.Cmp.Rules.{comparing};
    ghost use Rattle.std.specs.Cmp.Lexicographic.{slice_cmp};
    ghost use Rattle.std.specs.Ordering.{nat_cmp, on};
    ghost use Rattle.desk_text.specs.Path.{path_text};

    ghost cmp = { on path_text (slice_cmp nat_cmp) };

    ghost total = { Prim.search (comparing, rules) };

    ghost matches_partial_cmp = { Prim.search (comparing, rules) };

    ghost matches_eq = { Prim.search (comparing, rules) };

    fn cmp(&self, other: &Path) -> Ordering {
        self.text().cmp(other.text())
    }
}

impl PartialOrd for Path {
    ghost use Rattle.std.proofs.Common.{rules};
    ghost use Rattle.std.specs.Cmp.{partial_order_from_own_ties};
    ghost use Rattle.std.specs.Cmp.Rules.{comparing};
    ghost use Rattle.std.specs.Cmp.Lexicographic.{slice_cmp};
    ghost use Rattle.std.specs.Ordering.{as_partial_cmp, nat_cmp, on};
    ghost use Rattle.desk_text.specs.Path.{path_text};

    ghost partial_cmp = { as_partial_cmp (on path_text (slice_cmp nat_cmp)) };

    ghost laws = { partial_order_from_own_ties (Prim.search (comparing, rules)) (Prim.search (comparing, rules)) };

    fn partial_cmp(&self, other: &Path) -> Option<Ordering> {
        Some(self.cmp(other))
    }
}

/// Why a text is not a path. Of several faults the first in this order is reported.
#[derive(Clone, Copy, Debug, PartialEq, Eq, Error)]
pub enum PathFault {
    #[error("a path begins with a slash")]
    NotAbsolute,
    #[error("a component of a path is `.` or `..`")]
    DotComponent,
    #[error("a path is longer than 1024 bytes")]
    TooLong,
    #[error("a path has a NUL byte")]
    NulByte,
}

impl PathFault {
    /// Returns the number of the fault, from 1.
    pub fn number(self) -> u32
        ensures { result ≡ path_fault_number self }
    {
        self as u32 + 1
    }
}

impl Path {
    /// Reads an absolute path. Slashes in a row count as one, and one at the end counts for nothing. The length is that of
    /// the text as given, and only absolute paths without `.` and `..` are read, so that no path is another one in disguise.
    pub fn read(alloc: Global, text: &str) -> Result<Path, ReadError<PathFault>>
        ensures { Reads result (read_path text.now) }
    {
        if text == "/" {
            return Ok(Path::root(alloc));
        }
        let bytes = text.as_bytes();
        if bytes.is_empty() || bytes[0] != b'/' {
            return Err(ReadError::Fault(PathFault::NotAbsolute));
        }
        let parts = look_at_parts(&bytes[1..]);
        if parts.has_dots {
            return Err(ReadError::Fault(PathFault::DotComponent));
        }
        if text.len() > LONGEST_PATH {
            return Err(ReadError::Fault(PathFault::TooLong));
        }
        if bytes.contains(&0) {
            return Err(ReadError::Fault(PathFault::NulByte));
        }
        let text = if parts.has_empty {
            rejoined(alloc, text)?
        } else {
            String::from_str(alloc, text)?
        };
        Ok(Path { text })
    }

    /// Makes the path `/`, which takes no memory.
    fn root(alloc: Global) -> Path
        ensures { result ≡ [] }
    {
        Path {
            text: String::new(alloc),
        }
    }

    /// Makes the path right below this one whose name is this number. It may be longer than a path that can be read.
    pub fn child(&self, alloc: Global, number: usize) -> Result<Path, AllocError>
        ensures { IfOk result (λ path. path ≡ self.now ++ decimal number ∷ []) }
    {
        let text = format!(in alloc; "{}/{number}", self.text)?;
        Ok(Path { text })
    }

    /// Tests whether the path is the other one or lies below it: `/a/b` is under `/a`, and `/ab` is not.
    pub fn is_under(&self, above: &Path) -> bool
        ensures { result ≡ is_under self.now above.now }
    {
        goes_below(self.text.as_bytes(), above.text.as_bytes())
    }

    /// Returns the path as it is printed.
    pub fn text(&self) -> &str
        ensures printed { result.now ≡ path_text self.now }
        ensures path { IsPath self.now }
    {
        if self.text.is_empty() {
            "/"
        } else {
            self.text.as_str()
        }
    }
}

/// Tests whether a kept path is another one, or goes on behind it with a slash. The byte behind the other one is asked
/// first: mostly it tells.
fn goes_below(path: &[u8], above: &[u8]) -> bool
    ensures { result ≡ goes_below path.now above.now }
{
    ends_component(path, above.len()) && path.starts_with(above)
}

/// Tests whether a component of a kept path ends before this place.
fn ends_component(path: &[u8], place: usize) -> bool
    ensures { result ≡ ends_before path.now place }
{
    place == path.len() || place < path.len() && path[place] == b'/'
}

/// What stands between the slashes of a text.
#[derive(Clone, Copy)]
struct PathParts {
    has_dots: bool,
    has_empty: bool,
}

/// Looks at the parts between the slashes of a text, in one walk.
fn look_at_parts(text: &[u8]) -> PathParts
    ensures dots { result.has_dots ≡ list_any is_dot_component (slice_split (λ b. b == 47) text.now) }
    ensures empty { result.has_empty ≡ list_any is_empty (slice_split (λ b. b == 47) text.now) }
{
    let mut has_dots = false;
    let mut has_empty = false;
    for part in text.split(|b| *b == b'/') {
        has_dots |= is_dot_component(part);
        has_empty |= part.is_empty();
    }
    PathParts {
        has_dots,
        has_empty,
    }
}

fn is_dot_component(part: &[u8]) -> bool
    ensures { result ≡ is_dot_component part.now }
{
    part == b".".as_slice() || part == b"..".as_slice()
}

/// Joins the components of an absolute text behind a slash each. One of its slashes, or more, counts for nothing.
fn rejoined(alloc: Global, text: &str) -> Result<String, AllocError>
    requires { 0 < length text.now }
    ensures { IfOk result (λ s. string_bytes s ≡ kept_text (components text.now)) }
{
    let mut out = String::with_capacity(alloc, text.len() - 1)?;
    for part in text.split('/') {
        if !part.is_empty() {
            out.push('/')?;
            out.push_str(part)?;
        }
    }
    Ok(out)
}
