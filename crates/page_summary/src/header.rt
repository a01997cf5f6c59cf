//! The header of the page, and the links to its parts.

ghost use Rattle.std.specs.Prelude.{◌≡◌, ◌++◌, OnOk};
ghost use Rattle.std.specs.String.{string_bytes};
ghost use Rattle.page_summary.specs.Header as spec;

use page_html::{Element, Part, Tag, push_element, push_fixed, push_tag};
use std::alloc::{AllocError, Global};

/// What the header tells of a database: the word for it, how many revisions and files it has, and the digest of its state.
#[derive(Clone, Copy)]
pub struct Header<'a> {
    pub database: &'a str,
    pub revisions: u64,
    pub files: u64,
    pub state: &'a str,
}

/// The end of the header, the links to the parts of the page, and the beginning of these.
const LINKS: &str = r##"</header>
<nav aria-label="Parts of this report"><a href="#summary">Summary</a> <a href="#systems">File systems</a> <a href="#networks">Networks</a> <a href="#each">Each file system</a> <a href="#warnings">Warnings</a> <a href="#names">Names</a> <a href="#files">Files and revisions</a> <a href="#read">How to read this</a></nav>
<main>
"##;

/// Adds the header, and the links to the parts of the page.
pub fn push_header(alloc: Global, header: &Header<'_>, page: &mut String) -> Result<(), AllocError>
    ensures { OnOk result (string_bytes page.new ≡ string_bytes page.old ++ spec.header header.now) }
{
    push_tag(Tag::HeaderStart, page)?;
    push_element(
        alloc,
        Element::Title,
        &[
            Part::Words("Who may mount what: "),
            Part::Code(header.database),
        ],
        page,
    )?;
    push_scope(alloc, page)?;
    push_element(
        alloc,
        Element::State,
        &[
            Part::Plural(header.revisions, "revision", "revisions"),
            Part::Words(" in "),
            Part::Plural(header.files, "file", "files"),
            Part::Words(". State "),
            Part::Code(header.state),
        ],
        page,
    )?;
    push_fixed(LINKS, page)
}

/// Adds what the page is made of.
fn push_scope(alloc: Global, page: &mut String) -> Result<(), AllocError>
    ensures { OnOk result (string_bytes page.new ≡ string_bytes page.old ++ spec.scope) }
{
    push_element(
        alloc,
        Element::Paragraph,
        &[Part::Words(
            "By the newest revisions in the database, for each of the 4,294,967,296 IPv4 addresses and every directory.",
        )],
        page,
    )
}
