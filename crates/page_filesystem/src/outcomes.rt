//! What comes of a proposal: what it would change, or why it cannot be put in force.

ghost use Rattle.std.specs.Prelude.{◌≡◌, ◌++◌, OnOk};
ghost use Rattle.std.specs.String.{string_bytes};
ghost use Rattle.page_filesystem.specs.Outcomes as spec;

use page_html::{Element, Part, push_element};
use page_places::{ChangeRow, push_changes};
use std::alloc::{AllocError, Global};

/// What comes of a proposal if it is put in force now.
#[derive(Clone, Copy)]
pub enum Outcome<'b, 'a> {
    /// These changes matter to a client, and so many are of lines or reasons alone.
    Changes(&'b [ChangeRow<'a>], u64),
    /// The site with it has this fault, in words: another file has changed since it was proposed.
    Refused(&'b str),
}

/// Adds what a proposal would change, or why it cannot be put in force.
pub fn push_outcome(
    alloc: Global,
    outcome: Outcome<'_, '_>,
    page: &mut String,
) -> Result<(), AllocError>
    ensures { OnOk result (string_bytes page.new ≡ string_bytes page.old ++ spec.outcome_text outcome.entry) }
{
    match outcome {
        Outcome::Changes(rows, silent) => push_changes(alloc, rows, silent, page),
        Outcome::Refused(fault) => push_element(
            alloc,
            Element::Paragraph,
            &[
                Part::Words("It cannot be put in force now: "),
                Part::Code(fault),
                Part::Words("."),
            ],
            page,
        ),
    }
}
