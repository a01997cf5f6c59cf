//! Pieces of the page: texts and links.

ghost use Rattle.std.specs.Prelude.{◌≡◌, ◌++◌, OnOk, codes};
ghost use Rattle.std.specs.List.{flat_map};
ghost use Rattle.std.specs.String.{string_bytes};
ghost use Rattle.page_html.specs.Pieces as spec;

use crate::escaping::push_escaped;
use desk_tables::FsId;
use desk_text::Text;
use std::alloc::AllocError;

/// Adds a text in `code`.
pub fn push_code(text: &str, page: &mut String) -> Result<(), AllocError>
    ensures { OnOk result (string_bytes page.new ≡ string_bytes page.old ++ spec.code text.now) }
{
    page.push_str("<code>")?;
    push_escaped(text, page)?;
    page.push_str("</code>")
}

/// Adds texts in `code`, with commas between them.
pub fn push_code_list(texts: &[Text], page: &mut String) -> Result<(), AllocError>
    ensures { OnOk result (string_bytes page.new ≡ string_bytes page.old ++ spec.code_list texts.now) }
{
    match texts {
        [] => Ok(()),
        [first, others @ ..] => {
            push_code(first.as_str(), page)?;
            push_later(others, page)
        }
    }
}

/// Adds the texts behind the first.
fn push_later(texts: &[Text], page: &mut String) -> Result<(), AllocError>
    ensures { OnOk result (string_bytes page.new ≡ string_bytes page.old ++ flat_map (λ text. codes ", " ++ spec.code text) texts.now) }
{
    for text in texts {
        page.push_str(", ")?;
        push_code(text.as_str(), page)?;
    }
    Ok(())
}

/// Adds a link to a line of the text of a file system.
pub fn push_line_link(fs: FsId, line: u32, page: &mut String) -> Result<(), AllocError>
    ensures { OnOk result (string_bytes page.new ≡ string_bytes page.old ++ spec.line_link fs.0 line) }
{
    let number = fs.0;
    write!(
        page,
        "<a class=\"l\" href=\"#f{number}-{line}\">line {line}</a>"
    )
}

/// Adds a link to a file system, given its name.
pub fn push_system_link(fs: FsId, name: &str, page: &mut String) -> Result<(), AllocError>
    ensures { OnOk result (string_bytes page.new ≡ string_bytes page.old ++ spec.system_link fs.0 name.now) }
{
    let number = fs.0;
    write!(page, "<a href=\"#f{number}\">")?;
    push_code(name, page)?;
    page.push_str("</a>")
}
