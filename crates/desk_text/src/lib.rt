//! The texts of an export policy: addresses, networks, paths, logical lines and their words. (exports(5))
//!
//! ```text
//! Addr::read("10.0.0.5")?.number()                // 167772165
//! Path::read(alloc, "/usr/local")?.is_under(&usr) // true, where `usr` is /usr
//! // With the text "/usr \\\n  -ro\n", one line that goes on behind its backslash:
//! let lines = logical_lines(alloc, text)?;        // one line, of number 1
//! words(alloc, &lines[0])?                        // `/usr` and `-ro`
//! ```
#![tactic(auto)]

pub mod addr_set;
pub mod address;
pub mod bytes;
pub mod laws;
pub mod lines;
pub mod network;
pub mod path;
pub mod place;
pub mod raw_word;
pub mod reading;
pub mod said;
pub mod sequence;
pub mod text;
pub mod word;

pub use addr_set::AddrSet;
pub use address::{Addr, AddrFault, is_dotted};
pub use bytes::{first_non_blank, has_leading_zero, is_blank, is_digits, is_ipv6, read_decimal};
pub use lines::{LONGEST_TEXT, Line, LogicalLines, Part, is_readable, logical_lines};
pub use network::{Net, NetText, Prefix};
pub use path::{Path, PathFault};
pub use place::Place;
pub use reading::{LineFault, ReadError};
pub use said::Said;
pub use sequence::Sequence;
pub use text::{Text, split_at};
pub use word::{OpenQuote, Word, unquote, words, words_into};
