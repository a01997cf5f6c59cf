//! What each part of the page comes to.

ghost use Rattle.std.specs.Prelude.{◌≡◌, ◌++◌, OnOk};
ghost use Rattle.std.specs.String.{string_bytes};
ghost use Rattle.page_html.specs.PartPieces as spec;

use crate::amounts::push_and_more;
use crate::escaping::{push_attribute, push_escaped, push_escaped_line};
use crate::numbers::push_number;
use crate::part_amounts::{push_percent_of, push_plural};
use crate::pieces::{push_code, push_code_list};
use desk_tables::FsId;
use desk_text::Text;
use std::alloc::{AllocError, Global};

/// Adds words of the page's own between two tags.
pub(crate) fn push_within(
    start: &'static str,
    words: &'static str,
    end: &'static str,
    page: &mut String,
) -> Result<(), AllocError>
    ensures { OnOk result (string_bytes page.new ≡ string_bytes page.old ++ spec.within start.now words.now end.now) }
{
    page.push_str(start)?;
    push_attribute(words, page)?;
    page.push_str(end)
}

/// Adds words, with a word of the page's own in the tag before them.
pub(crate) fn push_classed(
    start: &'static str,
    class: &'static str,
    words: &'static str,
    end: &'static str,
    page: &mut String,
) -> Result<(), AllocError>
    ensures { OnOk result (string_bytes page.new ≡ string_bytes page.old ++ spec.classed start.now class.now words.now end.now) }
{
    page.push_str(start)?;
    push_attribute(class, page)?;
    push_within("\">", words, end, page)
}

/// Adds so many of what small words say.
pub(crate) fn push_small_count(
    alloc: Global,
    count: u64,
    words: &'static str,
    page: &mut String,
) -> Result<(), AllocError>
    ensures { OnOk result (string_bytes page.new ≡ string_bytes page.old ++ spec.small_count count words.now) }
{
    page.push_str("<small>")?;
    push_number(alloc, count, page)?;
    push_within(" ", words, "</small>", page)
}

/// Adds so many of what the first small words say of one, and the second of more.
pub(crate) fn push_small_plural(
    alloc: Global,
    count: u64,
    one: &'static str,
    more: &'static str,
    page: &mut String,
) -> Result<(), AllocError>
    ensures { OnOk result (string_bytes page.new ≡ string_bytes page.old ++ spec.small_plural count one.now more.now) }
{
    page.push_str("<small>")?;
    push_plural(alloc, count, one, more, page)?;
    page.push_str("</small>")
}

/// Adds how much of a whole a number is, as a small percentage.
pub(crate) fn push_small_percent(
    count: u64,
    whole: u64,
    page: &mut String,
) -> Result<(), AllocError>
    ensures { OnOk result (string_bytes page.new ≡ string_bytes page.old ++ spec.small_percent count whole) }
{
    page.push_str("<small>")?;
    push_percent_of(count, whole, page)?;
    page.push_str("</small>")
}

/// Adds a digest, for which the style sheet has a class.
pub(crate) fn push_digest(text: &str, page: &mut String) -> Result<(), AllocError>
    ensures { OnOk result (string_bytes page.new ≡ string_bytes page.old ++ spec.digest text.now) }
{
    page.push_str("<code class=\"sha\">")?;
    push_escaped(text, page)?;
    page.push_str("</code>")
}

/// Adds a line of a file, with its tabs.
pub(crate) fn push_line(line: &str, page: &mut String) -> Result<(), AllocError>
    ensures { OnOk result (string_bytes page.new ≡ string_bytes page.old ++ spec.code_line line.now) }
{
    page.push_str("<code>")?;
    push_escaped_line(line, page)?;
    page.push_str("</code>")
}

/// Adds at most so many texts, and how many more there are.
pub(crate) fn push_some_codes(
    alloc: Global,
    most: usize,
    texts: &[Text],
    page: &mut String,
) -> Result<(), AllocError>
    ensures { OnOk result (string_bytes page.new ≡ string_bytes page.old ++ spec.some_codes most texts.now) }
{
    if texts.len() <= most {
        push_code_list(texts, page)
    } else {
        let (some, others) = texts.split_at(most);
        push_code_list(some, page)?;
        push_and_more(alloc, others.len() as u64, page)
    }
}

/// Adds a link to a line of the text of a file system, with the name of the file system.
pub(crate) fn push_system_line(
    fs: FsId,
    name: &str,
    line: u32,
    page: &mut String,
) -> Result<(), AllocError>
    ensures { OnOk result (string_bytes page.new ≡ string_bytes page.old ++ spec.system_line fs.0 name.now line) }
{
    push_link_start(fs.0, line, page)?;
    push_code(name, page)?;
    push_link_end(line, page)
}

/// Begins the link.
fn push_link_start(fs: u32, line: u32, page: &mut String) -> Result<(), AllocError>
    ensures { OnOk result (string_bytes page.new ≡ string_bytes page.old ++ spec.link_start fs line) }
{
    write!(page, "<a href=\"#f{fs}-{line}\">")
}

/// Ends it.
fn push_link_end(line: u32, page: &mut String) -> Result<(), AllocError>
    ensures { OnOk result (string_bytes page.new ≡ string_bytes page.old ++ spec.link_end line) }
{
    write!(page, " line&nbsp;{line}</a>")
}
