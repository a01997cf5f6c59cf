//! Texts, one behind another, in one text.

ghost use Rattle.std.specs.Prelude.{◌≡◌, ◌++◌, [], OnOk, count_by};
ghost use Rattle.std.specs.String.{string_bytes};
ghost use Rattle.desk_split.specs.Joining as split;
ghost use Rattle.desk_joined.specs.Joining as spec;
ghost use Rattle.desk_joined.specs.Joining.{Adds, IsJoined, bytes_of, is_feed};

use desk_origins::Origin;
use desk_text::Sequence;
use std::alloc::{AllocError, Global};

/// A text, and the path of its file.
#[derive(Clone, Copy)]
pub struct NamedText<'a> {
    pub path: &'a str,
    pub text: &'a str,
}

/// Texts that are joined, and where the lines of each begin.
#[derive(Drop)]
pub struct Joined {
    pub text: String,
    pub origins: Sequence<Origin>,
}

impl Joined {
    /// Joins no texts.
    pub fn new(alloc: Global) -> Joined
        ensures { IsJoined [] result }
    {
        Joined {
            text: String::new(alloc),
            origins: Sequence::new(alloc),
        }
    }

    /// Adds a text behind the others: it is ended, if nothing ends its last line, and stands before an empty line, in which a continued
    /// last line of it ends.
    pub fn add(&mut self, alloc: Global, file: NamedText<'_>) -> Result<(), AllocError>
        ensures { OnOk result (Adds (bytes_of file.entry) self.old self.new) }
    {
        let before = count_feeds(self.text.as_str());
        let origin = Origin::new(alloc, file.path, before)?;
        self.origins.push(origin)?;
        push_section(&mut self.text, file.text)
    }
}

/// Counts the line feeds of a text.
fn count_feeds(text: &str) -> usize
    ensures { result ≡ count_by is_feed text.now }
{
    let bytes = text.as_bytes();
    bytes.iter().filter(|b| **b == b'\n').count()
}

/// Adds a text with what ends it.
fn push_section(whole: &mut String, text: &str) -> Result<(), AllocError>
    ensures { OnOk result (string_bytes whole.new ≡ string_bytes whole.old ++ spec.section text.now) }
{
    whole.push_str(text)?;
    whole.push_str(last_line_end(text))?;
    whole.push_str("\n")?;
    Ok(())
}

/// Returns what ends the last line of a text, if nothing does. The reader drops one carriage return before a line feed, so a line that
/// ends with one gets another.
fn last_line_end(text: &str) -> &'static str
    ensures { result.now ≡ split.last_line_end text.now }
{
    if text.is_empty() || text.ends_with('\n') {
        ""
    } else if text.ends_with('\r') {
        "\r\n"
    } else {
        "\n"
    }
}
