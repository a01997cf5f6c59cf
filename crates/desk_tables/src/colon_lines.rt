//! Lines of fields with colons between them. (passwd(5), group(5))

ghost use Rattle.std.specs.Prelude.{◌≡◌, length};
ghost use Rattle.desk_tables.specs.ColonLines.{field, fields, number_in, skips_line};

use crate::faults::Slice;
use desk_text::{first_non_blank, read_decimal};

/// Counts the fields of a line.
pub(crate) fn field_count(line: &str) -> usize
    ensures { result ≡ length (fields line.now) }
{
    line.split(':').count()
}

/// Finds the field at a place, from 0; a line that has none there has the empty one.
pub(crate) fn field(line: &str, place: usize) -> &str
    ensures { result.now ≡ field place line.now }
{
    line.split(':').nth(place).unwrap_or("")
}

/// Finds where the field at a place, from 0, begins and ends; a line that has none there has the last one. An empty field
/// is shown by the colon behind it, and an empty last one by the colon before it.
pub(crate) fn field_slice(line: &str, place: usize) -> Slice {
    let bytes = line.as_bytes();
    let mut start = 0;
    let mut left = place;
    for (at, byte) in bytes.iter().enumerate() {
        if *byte == b':' {
            if left == 0 {
                return Slice {
                    start,
                    end: if start < at { at } else { at + 1 },
                };
            }
            left -= 1;
            start = at + 1;
        }
    }
    Slice {
        start: start.min(bytes.len().saturating_sub(1)),
        end: bytes.len(),
    }
}

/// Tests whether a line is a comment, or has only blanks.
pub(crate) fn is_skipped(line: &str) -> bool
    ensures { result ≡ skips_line line.now }
{
    match first_non_blank(line) {
        Some(b) => b == b'#',
        None => true,
    }
}

/// Reads a decimal up to 4294967295.
pub(crate) fn read_number(text: &str) -> Option<u32>
    ensures { result ≡ number_in text.now }
{
    read_decimal(text, u32::MAX)
}
