//! Why a line stands out, as parts of the page.

ghost use Rattle.std.specs.Prelude.{◌≡◌, ◌++◌, ◌∷◌, IfOk, OnOk, codes, map};
ghost use Rattle.std.specs.List.{flat_map};
ghost use Rattle.std.specs.Option.{option_copied};
ghost use Rattle.page_data.specs.ReasonValues.{wider_value};
ghost use Rattle.page_data.specs.Reasons.{level_of_all};
ghost use Rattle.page_html.specs.Parts.{item_of};
ghost use Rattle.page_findings.specs.FindingWords as spec;
ghost use Rattle.page_findings.specs.Joining.{comma};

use crate::joining::push_all;
use desk_exports::{Flavour, Mapping, Terms};
use desk_server::{RepeatedClient, WiderGrant};
use desk_tables::FsId;
use desk_text::{Addr, Path};
use page_data::{Level, Reason, level_of_reasons};
use page_html::{Part, Span};
use std::alloc::{AllocError, Global};

/// So many of the lines that decide in place of another one are named.
const MOST_DECIDING: usize = 6;

/// A line that stands out, and what its words tell.
#[derive(Clone, Copy)]
pub struct Finding<'a> {
    pub fs: FsId,
    /// The number of the line.
    pub line: u32,
    pub reasons: &'a [Reason<'a>],
    pub terms: &'a Terms,
    /// Whether it writes a network that does not have every address.
    pub is_for_network: bool,
    /// The numbers of the lines that decide for its clients, if it never does.
    pub deciding: &'a [u32],
}

impl Finding<'_> {
    /// Returns the highest level of its reasons.
    pub fn level(&self) -> Level
        ensures { result ≡ level_of_all self.now.reasons.now }
    {
        level_of_reasons(self.reasons)
    }
}

/// Gathers why a line stands out.
pub fn finding_parts<'a>(alloc: Global, finding: &Finding<'a>) -> Result<Vec<Part<'a>>, AllocError>
    ensures { IfOk result (λ parts. map item_of parts.items ≡ spec.finding_items (spec.finding_value finding.now)) }
{
    let mut parts = Vec::new(alloc);
    push_reasons(finding, finding.reasons, &mut parts)?;
    Ok(parts)
}

/// Adds reasons, with commas between them.
fn push_reasons<'a>(
    finding: &Finding<'a>,
    reasons: &[Reason<'a>],
    parts: &mut Vec<Part<'a>>,
) -> Result<(), AllocError>
    ensures { OnOk result (map item_of parts.new.items ≡ map item_of parts.old.items ++ spec.reasons_items (spec.finding_value finding.now) reasons.now) }
{
    match reasons {
        [] => Ok(()),
        [first, others @ ..] => {
            push_reason(finding, *first, parts)?;
            push_later_reasons(finding, others, parts)
        }
    }
}

/// Adds the reasons behind the first.
fn push_later_reasons<'a>(
    finding: &Finding<'a>,
    reasons: &[Reason<'a>],
    parts: &mut Vec<Part<'a>>,
) -> Result<(), AllocError>
    ensures { OnOk result (map item_of parts.new.items
        ≡ map item_of parts.old.items ++ flat_map (λ reason. comma ∷ spec.reason_items (spec.finding_value finding.now) reason) reasons.now) }
{
    for reason in reasons {
        push_all(&[Part::Words(", ")], parts)?;
        push_reason(finding, *reason, parts)?;
    }
    Ok(())
}

/// Adds a reason.
fn push_reason<'a>(
    finding: &Finding<'a>,
    reason: Reason<'a>,
    parts: &mut Vec<Part<'a>>,
) -> Result<(), AllocError>
    ensures { OnOk result (map item_of parts.new.items ≡ map item_of parts.old.items ++ spec.reason_items (spec.finding_value finding.now) reason.entry) }
{
    match reason {
        Reason::NoClient => push_all(&[Part::Words("matches nobody")], parts),
        Reason::NeverDecides => push_deciding(finding.fs, finding.deciding, parts),
        Reason::ForEverybodyReadOnly => push_for_everybody("read-only", finding.terms, parts),
        Reason::ForEverybodyReadWrite => push_for_everybody("read-write", finding.terms, parts),
        Reason::Wide => push_all(&[Part::Words("wide: over 65,536 addresses")], parts),
        Reason::RootKeptForNetworks | Reason::RootKeptForNames => {
            push_all(&root_kept(finding.terms, finding.is_for_network), parts)
        }
        Reason::ServerGrantsMore(found) => push_wider(finding.fs, &found, parts),
        Reason::RepeatedClient(found) => push_all(&repeated(finding.fs, &found), parts),
    }
}

/// Adds that a line is for everybody.
fn push_for_everybody<'a>(
    access: &'static str,
    terms: &Terms,
    parts: &mut Vec<Part<'a>>,
) -> Result<(), AllocError>
    ensures { OnOk result (map item_of parts.new.items ≡ map item_of parts.old.items ++ spec.for_everybody access.now terms.now) }
{
    let words = [
        Part::Words("for everybody, "),
        Part::Words(access),
        Part::Words(", sec="),
    ];
    push_all(&words, parts)?;
    push_flavours(terms.flavours.as_slice(), parts)
}

/// Adds the names of flavours, as a line writes them.
fn push_flavours<'a>(flavours: &[Flavour], parts: &mut Vec<Part<'a>>) -> Result<(), AllocError>
    ensures { OnOk result (map item_of parts.new.items ≡ map item_of parts.old.items ++ spec.flavour_items flavours.now) }
{
    match flavours {
        [] => Ok(()),
        [first, others @ ..] => {
            push_all(&[Part::Words(first.word())], parts)?;
            push_later_flavours(others, parts)
        }
    }
}

/// Adds the names behind the first.
fn push_later_flavours<'a>(
    flavours: &[Flavour],
    parts: &mut Vec<Part<'a>>,
) -> Result<(), AllocError>
    ensures { OnOk result (map item_of parts.new.items ≡ map item_of parts.old.items ++ flat_map (λ flavour. spec.colon ∷ spec.flavour_item flavour) flavours.now) }
{
    for flavour in flavours {
        push_all(&[Part::Words(":"), Part::Words(flavour.word())], parts)?;
    }
    Ok(())
}

/// Returns whose root is kept.
fn root_kept<'a>(terms: &Terms, is_for_network: bool) -> [Part<'a>; 2]
    ensures { map item_of result ≡ spec.root_kept terms.now is_for_network }
{
    [
        Part::Words(root_words(&terms.map.get())),
        Part::Words(network_words(is_for_network)),
    ]
}

/// Returns who acts as root.
fn root_words(mapping: &Mapping) -> &'static str
    ensures { result.now ≡ spec.root_words mapping.now }
{
    match mapping {
        Mapping::Root(_) => "root stays root",
        Mapping::All(_) => "every user acts as root",
    }
}

/// Returns that it is so for a network, if it is.
fn network_words(is_for_network: bool) -> &'static str
    ensures { result.now ≡ spec.network_words is_for_network }
{
    if is_for_network {
        " for a whole network"
    } else {
        ""
    }
}

/// Adds which lines decide in place of one that never does.
fn push_deciding<'a>(fs: FsId, lines: &[u32], parts: &mut Vec<Part<'a>>) -> Result<(), AllocError>
    ensures { OnOk result (map item_of parts.new.items ≡ map item_of parts.old.items ++ spec.deciding fs.0 lines.now) }
{
    push_all(&[Part::Words("never decides: ")], parts)?;
    push_some_lines(fs, lines, parts)?;
    push_all(&[Part::Words(decide_words(lines.len()))], parts)
}

/// Returns that so many lines decide.
fn decide_words(count: usize) -> &'static str
    ensures { result.now ≡ spec.decide_words count }
{
    if count == 1 {
        " decides for all its clients"
    } else {
        " decide for all its clients"
    }
}

/// Adds links to the first of some lines, and how many more there are.
fn push_some_lines<'a>(fs: FsId, lines: &[u32], parts: &mut Vec<Part<'a>>) -> Result<(), AllocError>
    ensures { OnOk result (map item_of parts.new.items ≡ map item_of parts.old.items ++ spec.some_lines fs.0 lines.now) }
{
    let (named, others) = lines.split_at(MOST_DECIDING.min(lines.len()));
    push_lines(fs, named, parts)?;
    push_all(&[Part::AndMore(others.len() as u64)], parts)
}

/// Adds links to lines, with commas between them.
fn push_lines<'a>(fs: FsId, lines: &[u32], parts: &mut Vec<Part<'a>>) -> Result<(), AllocError>
    ensures { OnOk result (map item_of parts.new.items ≡ map item_of parts.old.items ++ spec.line_items fs.0 lines.now) }
{
    match lines {
        [] => Ok(()),
        [first, others @ ..] => {
            push_all(&[Part::LineLink(fs, *first)], parts)?;
            push_later_lines(fs, others, parts)
        }
    }
}

/// Adds the links behind the first.
fn push_later_lines<'a>(
    fs: FsId,
    lines: &[u32],
    parts: &mut Vec<Part<'a>>,
) -> Result<(), AllocError>
    ensures { OnOk result (map item_of parts.new.items ≡ map item_of parts.old.items ++ flat_map (λ line. comma ∷ spec.line_item fs.0 line) lines.now) }
{
    for line in lines {
        push_all(&[Part::Words(", "), Part::LineLink(fs, *line)], parts)?;
    }
    Ok(())
}

/// Adds to whom the server grants more, and by which line.
fn push_wider<'a>(
    fs: FsId,
    found: &WiderGrant<'a>,
    parts: &mut Vec<Part<'a>>,
) -> Result<(), AllocError>
    ensures { OnOk result (map item_of parts.new.items ≡ map item_of parts.old.items ++ spec.wider fs.0 (wider_value found.now)) }
{
    let words = [
        Part::Words("mountd(8) grants more: to "),
        Part::Range(only(found.address)),
        Part::Words(" "),
        Part::LineLink(fs, found.other),
    ];
    push_all(&words, parts)?;
    push_all(&listed(found.directory), parts)
}

/// Returns what a line lists more: a directory, or every one.
fn listed<'a>(directory: Option<&'a Path>) -> [Part<'a>; 3]
    ensures { map item_of result ≡ spec.listed (option_copied directory.entry) }
{
    match directory {
        Some(directory) => [
            Part::Words(" lists "),
            Part::Code(directory.text()),
            Part::Words(" too"),
        ],
        None => [
            Part::Words(" lists every directory of the file system ("),
            Part::Word("-alldirs"),
            Part::Words(")"),
        ],
    }
}

/// Returns that the server may leave a line out, since an earlier one has a client of it.
fn repeated<'a>(fs: FsId, found: &RepeatedClient) -> [Part<'a>; 4]
    ensures { map item_of result ≡ spec.repeated fs.0 found.now }
{
    [
        Part::Words("mountd(8) may leave this line out: "),
        Part::LineLink(fs, found.other),
        Part::Words(" has "),
        Part::Range(only(found.address)),
    ]
}

/// Returns the range of one address.
fn only(address: Addr) -> Span
    ensures { result ≡ spec.only address }
{
    Span {
        first: address,
        last: address,
    }
}
