//! The sections of the page, and its end.

ghost use Rattle.std.specs.Prelude.{◌≡◌, ◌++◌, OnOk};
ghost use Rattle.std.specs.String.{string_bytes};
ghost use Rattle.page_summary.specs.Sections as spec;

use page_html::{Tag, push_tag};
use std::alloc::AllocError;

/// A section of the page, but for the summary.
#[derive(Clone, Copy)]
pub enum Section {
    Systems,
    Networks,
    Each,
    Warnings,
    Names,
    Files,
}

/// Begins a section, with its heading.
#[tactic(auto, unfolding(crate::specs::Sections::section_start))]
pub fn push_section_start(section: Section, page: &mut String) -> Result<(), AllocError>
    ensures { OnOk result (string_bytes page.new ≡ string_bytes page.old ++ spec.section_start section) }
{
    push_tag(tag_of(section), page)
}

/// Returns the tag by which a section begins.
fn tag_of(section: Section) -> Tag
    ensures { result ≡ spec.tag_of section }
{
    match section {
        Section::Systems => Tag::SystemsStart,
        Section::Networks => Tag::NetworksStart,
        Section::Each => Tag::EachStart,
        Section::Warnings => Tag::WarningsStart,
        Section::Names => Tag::NamesStart,
        Section::Files => Tag::FilesStart,
    }
}

/// Ends a section.
pub fn push_section_end(page: &mut String) -> Result<(), AllocError>
    ensures { OnOk result (string_bytes page.new ≡ string_bytes page.old ++ spec.section_end) }
{
    push_tag(Tag::SectionEnd, page)
}

/// Ends the page.
pub fn push_footer(page: &mut String) -> Result<(), AllocError>
    ensures { OnOk result (string_bytes page.new ≡ string_bytes page.old ++ spec.footer) }
{
    push_tag(Tag::PageEnd, page)
}
