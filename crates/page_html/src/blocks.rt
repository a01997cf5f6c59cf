//! What stands around rows and parts: elements, tags and facts.

ghost use Rattle.std.specs.Prelude.{◌≡◌, ◌++◌, OnOk, length, map};
ghost use Rattle.std.specs.String.{string_bytes};
ghost use Rattle.page_html.specs.Blocks as spec;
ghost use Rattle.page_html.specs.Parts.{items_of};
ghost use Rattle.page_html.specs.Tables.{frame_of};

use crate::part_pieces::push_within;
use crate::parts::{Part, push_parts};
use crate::tables::{Frame, push_cells};
use desk_tables::FsId;
use std::alloc::{AllocError, Global};

/// An element that has parts.
#[derive(Clone, Copy)]
pub enum Element {
    /// The title of the page.
    Title,
    Heading,
    Subheading,
    /// The heading of who may mount which directory, and that of some directories.
    PlacesHeading,
    PlaceHeading,
    Paragraph,
    State,
    /// What is left out.
    Cut,
    Names,
    /// The way back to the table of file systems.
    Up,
    Commands,
    /// A map with its caption, as it is drawn.
    Figure,
    /// An entry of a list.
    Entry,
    /// What is said of that which is folded; it ends with `Tag::FoldEnd`.
    Fold,
    OpenFold,
}

/// A tag that stands alone.
#[derive(Clone, Copy)]
pub enum Tag {
    /// The beginning of the page's header, and what the page is.
    HeaderStart,
    /// The sections of the page, each with its heading.
    SummaryStart,
    SystemsStart,
    NetworksStart,
    EachStart,
    WarningsStart,
    NamesStart,
    FilesStart,
    TableEnd,
    FoldEnd,
    /// The list of what stands out of a file system.
    FindingsStart,
    ListEnd,
    MapsStart,
    MapsEnd,
    ProposalStart,
    PlaceStart,
    SectionEnd,
    PageEnd,
}

/// Adds an element with its parts.
pub fn push_element(
    alloc: Global,
    element: Element,
    parts: &[Part<'_>],
    page: &mut String,
) -> Result<(), AllocError>
    ensures { OnOk result (string_bytes page.new ≡ string_bytes page.old ++ spec.element_html element (items_of parts.now)) }
{
    page.push_str(element_start(element))?;
    push_parts(alloc, parts, page)?;
    page.push_str(element_end(element))
}

/// Returns how an element begins.
fn element_start(element: Element) -> &'static str
    ensures { result.now ≡ spec.element_start element }
{
    match element {
        Element::Title => "<h1>",
        Element::Heading => "<h3>",
        Element::Subheading => "<h4>",
        Element::PlacesHeading => "<h4 class=\"sub\">",
        Element::PlaceHeading => "<h5>",
        Element::Paragraph => "<p>",
        Element::State => "<p class=\"state\">",
        Element::Cut => "<p class=\"cut\">",
        Element::Names => "<p class=\"names\">",
        Element::Up => "<p class=\"up\">",
        Element::Commands => "<pre><code>",
        Element::Figure => "<figure>",
        Element::Entry => "<li>",
        Element::Fold => "<details><summary>",
        Element::OpenFold => "<details open><summary>",
    }
}

/// Returns how it ends.
fn element_end(element: Element) -> &'static str
    ensures { result.now ≡ spec.element_end element }
{
    match element {
        Element::Title => "</h1>\n",
        Element::Heading => "</h3>\n",
        Element::Subheading => "</h4>\n",
        Element::PlacesHeading => "</h4>\n",
        Element::PlaceHeading => "</h5>\n",
        Element::Paragraph => "</p>\n",
        Element::State => "</p>\n",
        Element::Cut => "</p>\n",
        Element::Names => "</p>\n",
        Element::Up => "</p>\n",
        Element::Commands => "</code></pre>\n",
        Element::Figure => "</figure>\n",
        Element::Entry => "</li>\n",
        Element::Fold => "</summary>\n",
        Element::OpenFold => "</summary>\n",
    }
}

/// Adds a tag that stands alone.
pub fn push_tag(tag: Tag, page: &mut String) -> Result<(), AllocError>
    ensures { OnOk result (string_bytes page.new ≡ string_bytes page.old ++ spec.tag_html tag) }
{
    page.push_str(tag_of(tag))
}

/// Returns a tag that stands alone.
fn tag_of(tag: Tag) -> &'static str
    ensures { result.now ≡ spec.tag_html tag }
{
    match tag {
        Tag::HeaderStart => "<header>\n<p class=\"kind\">Export report</p>\n",
        Tag::SummaryStart => "<section id=\"summary\">\n<h2>Summary</h2>\n",
        Tag::SystemsStart => "<section id=\"systems\">\n<h2>File systems</h2>\n",
        Tag::NetworksStart => "<section id=\"networks\">\n<h2>Networks of the site</h2>\n",
        Tag::EachStart => "<section id=\"each\">\n<h2>Each file system</h2>\n",
        Tag::WarningsStart => "<section id=\"warnings\">\n<h2>Warnings</h2>\n",
        Tag::NamesStart => "<section id=\"names\">\n<h2>Netgroups and names</h2>\n",
        Tag::FilesStart => "<section id=\"files\">\n<h2>Files and revisions</h2>\n",
        Tag::TableEnd => "</tbody>\n</table></div>\n",
        Tag::FoldEnd => "</details>\n",
        Tag::FindingsStart => "<ul class=\"mine\">",
        Tag::ListEnd => "</ul>\n",
        Tag::MapsStart => "<div class=\"maps\">\n",
        Tag::MapsEnd => "</div>\n",
        Tag::ProposalStart => "<section class=\"wait\">\n",
        Tag::PlaceStart => "<section class=\"place\">\n",
        Tag::SectionEnd => "</section>\n",
        Tag::PageEnd => "</main>\n</body>\n</html>\n",
    }
}

/// Begins what tells of a file system, which links lead to; it ends with `Tag::SectionEnd`.
pub fn push_system_start(fs: FsId, page: &mut String) -> Result<(), AllocError>
    ensures { OnOk result (string_bytes page.new ≡ string_bytes page.old ++ spec.system_start fs.0) }
{
    let number = fs.0;
    write!(page, "<section class=\"fs\" id=\"f{number}\">\n")
}

/// Adds a list of facts: a term of the page's own for each, and what is said of it.
pub fn push_facts(
    alloc: Global,
    frame: &Frame,
    facts: &[&[Part<'_>]],
    page: &mut String,
) -> Result<(), AllocError>
    requires { length facts.now ≡ length frame.now.columns.now }
    ensures { OnOk result (string_bytes page.new ≡ string_bytes page.old ++ spec.facts_html (frame_of frame.now) (map (λ fact. items_of fact.now) facts.now)) }
{
    push_within("<dl class=\"", frame.class, "\">\n", page)?;
    push_cells(alloc, frame.columns, facts, page)?;
    page.push_str("</dl>\n")
}

/// Adds HTML of the page's own, which is the same on each page. Only four texts are printed by it: the links to the parts of the page, the
/// legend, the shapes of the maps, and how the page is read.
pub fn push_fixed(html: &'static str, page: &mut String) -> Result<(), AllocError>
    ensures { OnOk result (string_bytes page.new ≡ string_bytes page.old ++ html.now) }
{
    page.push_str(html)
}
