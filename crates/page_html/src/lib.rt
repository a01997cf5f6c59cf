//! The HTML of the page: rows of typed parts and one renderer of them, over texts that are escaped, numbers, ranges and terms.
//!
//! ```text
//! push_table_start(alloc, &FILES, &[Title::Said("Files")], &mut page)?;
//! push_row(alloc, &FILES, &[&[Part::Code(name)], &[Part::Digits(revision), Part::Words(" by "), Part::Code(author)]], &mut page)?;
//! push_tag(Tag::TableEnd, &mut page)?;
//! ```
#![tactic(auto)]

pub mod amounts;
pub mod blocks;
pub mod escaping;
pub mod head;
pub mod images;
pub mod laws;
pub mod numbers;
mod part_amounts;
mod part_pieces;
pub mod parts;
pub mod pieces;
pub mod ranges;
mod style;
pub mod tables;
pub mod terms;
pub mod text_laws;
pub mod titles;

pub use amounts::{push_and_more, push_percent, push_plural, push_portion};
pub use blocks::{Element, Tag, push_element, push_facts, push_fixed, push_system_start, push_tag};
pub use escaping::{push_attribute, push_escaped, push_escaped_line};
pub use head::push_page_head;
pub use images::Drawn;
pub use laws::{
    lists_say_what_they_leave_out, nothing_is_fetched_or_run, pages_are_made_of_pieces,
};
pub use numbers::push_number;
pub use parts::{Part, push_part, push_parts};
pub use pieces::{push_code, push_code_list, push_line_link, push_system_link};
pub use ranges::{Span, push_network, push_range, push_ranges};
pub use tables::{
    Column, Frame, eight_cells, five_cells, four_cells, push_line_row, push_marked_row, push_row,
    push_short_row, push_table_start, seven_cells, six_cells,
};
pub use terms::{push_flavours, push_terms};
pub use text_laws::{no_text_is_markup, texts_are_told_apart};
pub use titles::Title;
