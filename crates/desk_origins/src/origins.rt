//! The texts that lines are of, and the names of lines.

ghost use Rattle.std.specs.Prelude.{◌≡◌, IfOk};
ghost use Rattle.std.specs.Option.{option_copied};
ghost use Rattle.desk_shown.specs.ShownText.{shown_text};
ghost use Rattle.desk_origins.specs.Origins as spec;

use desk_shown::push_shown;
use desk_text::{Sequence, Text};
use std::alloc::{AllocError, Global};
use std::fmt;

/// A text of several that are read one behind another.
#[derive(Drop)]
pub struct Origin {
    /// The path of its file, as it was given.
    pub path: Text,
    /// The same, as it is shown.
    pub shown: Text,
    /// How many lines of all stand before its own.
    pub before: usize,
}

impl Origin {
    /// Makes the text of this path, before which so many lines stand.
    pub fn new(alloc: Global, path: &str, before: usize) -> Result<Origin, AllocError>
        ensures { IfOk result (λ origin. origin ≡ spec.origin path.now before) }
    {
        let shown = shown_path(alloc, path)?;
        let path = Text::copy(alloc, path)?;
        Ok(Origin {
            path,
            shown,
            before,
        })
    }
}

/// Writes a path as it is shown.
fn shown_path(alloc: Global, path: &str) -> Result<Text, AllocError>
    ensures { IfOk result (λ shown. shown ≡ shown_text path.now) }
{
    let mut shown = String::new(alloc);
    push_shown(path, &mut shown)?;
    Ok(Text::from_string(shown))
}

/// Finds the text that a line is of, by its number among the lines of all: none, if one text alone is read.
pub fn origin_of(origins: &[Origin], line: u32) -> Option<&Origin>
    ensures { option_copied result ≡ spec.origin_of origins.now line }
{
    origins
        .iter()
        .rev()
        .find(|origin| origin.before < line as usize)
}

/// Copies the texts that lines are of.
pub fn copied(alloc: Global, origins: &[Origin]) -> Result<Sequence<Origin>, AllocError>
    ensures { IfOk result (λ copies. copies ≡ origins.now) }
{
    let mut copies = Sequence::new(alloc);
    for origin in origins {
        copies.push(copy_of(alloc, origin)?)?;
    }
    Ok(copies)
}

/// Copies one of them.
fn copy_of(alloc: Global, origin: &Origin) -> Result<Origin, AllocError>
    ensures { IfOk result (λ copy. copy ≡ origin.now) }
{
    let path = Text::copy(alloc, origin.path.as_str())?;
    let shown = Text::copy(alloc, origin.shown.as_str())?;
    Ok(Origin {
        path,
        shown,
        before: origin.before,
    })
}

/// The number of a line, as it is printed: `3`, or `3 of zfs/exports` if more than one text is read.
#[derive(Clone, Copy)]
pub struct LineName<'a> {
    pub origins: &'a [Origin],
    /// Its number among the lines of all.
    pub line: u32,
}

impl<'a> fmt::Display for LineName<'a> {
    ghost use Rattle.std.specs.Prelude.{Some};
    ghost use Rattle.desk_origins.specs.Origins.{line_name};

    ghost output = { λ name. Some (line_name name.origins.now name.line) };

    fn fmt<W: fmt::Write>(&self, f: &mut fmt::Formatter<W>) -> fmt::Result {
        let line = self.line;
        match origin_of(self.origins, line) {
            Some(origin) => {
                let own = own_line(origin, line);
                let path = origin.shown.as_str();
                write!(f, "{own} of {path}")
            }
            None => write!(f, "{line}"),
        }
    }
}

/// Gives the number of a line in its own text.
pub fn own_line(origin: &Origin, line: u32) -> usize
    ensures { result ≡ spec.own_line origin.now line }
{
    (line as usize).saturating_sub(origin.before)
}

/// A line as its own file has it: the path as it was given, and its number there.
#[derive(Clone, Copy)]
pub struct OwnPlace<'a> {
    pub path: &'a str,
    pub line: usize,
}

/// Finds where a line is in its own text, given the path of a text that is read alone.
pub fn own_place<'a>(origins: &'a [Origin], path: &'a str, line: u32) -> OwnPlace<'a>
    ensures path { result.path.now ≡ spec.own_path origins.entry.now path.entry.now line }
    ensures line { result.line ≡ spec.own_number origins.entry.now line }
{
    match origin_of(origins, line) {
        Some(origin) => OwnPlace {
            path: origin.path.as_str(),
            line: own_line(origin, line),
        },
        None => OwnPlace {
            path,
            line: line as usize,
        },
    }
}
