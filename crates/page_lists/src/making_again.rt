//! How the page can be made again.

ghost use Rattle.std.specs.Prelude.{◌≡◌, ◌++◌, OnOk};
ghost use Rattle.std.specs.String.{string_bytes};
ghost use Rattle.page_lists.specs.MakingAgain as spec;

use crate::shell::shell_word;
use page_html::{Element, Part, push_element};
use std::alloc::{AllocError, Global};

/// Adds the commands that make the page again and compare it, with the word for the database.
pub fn push_make_again(alloc: Global, database: &str, page: &mut String) -> Result<(), AllocError>
    ensures { OnOk result (string_bytes page.new ≡ string_bytes page.old ++ spec.make_again database.now) }
{
    let word = shell_word(alloc, database)?;
    push_again(alloc, word.as_str(), page)
}

/// Adds the commands between a heading and what is said of them.
fn push_again(alloc: Global, word: &str, page: &mut String) -> Result<(), AllocError>
    ensures { OnOk result (string_bytes page.new ≡ string_bytes page.old ++ spec.again word.now) }
{
    push_heading(alloc, page)?;
    push_commands(alloc, word, page)?;
    push_same(alloc, page)?;
    Ok(())
}

/// Adds the heading.
fn push_heading(alloc: Global, page: &mut String) -> Result<(), AllocError>
    ensures { OnOk result (string_bytes page.new ≡ string_bytes page.old ++ spec.heading) }
{
    push_element(
        alloc,
        Element::Heading,
        &[Part::Words("Make it again, and compare")],
        page,
    )
}

/// Adds the command that makes the page, the one that compares it, and the one that gives the digest of a text.
fn push_commands(alloc: Global, word: &str, page: &mut String) -> Result<(), AllocError>
    ensures { OnOk result (string_bytes page.new ≡ string_bytes page.old ++ spec.commands word.now) }
{
    push_element(
        alloc,
        Element::Commands,
        &[
            Part::Words("exportdesk report "),
            Part::Text(word),
            Part::Words(" >report.html"),
            Part::NewLine,
            Part::Words("exportdesk report "),
            Part::Text(word),
            Part::Words(" | cmp - report.html"),
            Part::NewLine,
            Part::Words("exportdesk cat "),
            Part::Text(word),
            Part::Words(" exports:MOUNT | sha256sum"),
        ],
        page,
    )
}

/// Adds what is said of the commands.
fn push_same(alloc: Global, page: &mut String) -> Result<(), AllocError>
    ensures { OnOk result (string_bytes page.new ≡ string_bytes page.old ++ spec.same) }
{
    push_element(
        alloc,
        Element::Paragraph,
        &[Part::Words(
            "The page has no date and no name of a machine: one version of exportdesk makes the same page, to the byte, of the same state and the same name of the database.",
        )],
        page,
    )
}
