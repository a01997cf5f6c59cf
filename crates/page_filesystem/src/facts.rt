//! The facts of a file system.

ghost use Rattle.std.specs.Prelude.{◌≡◌, ◌++◌, IfOk, OnOk, map};
ghost use Rattle.std.specs.Option.{option_copied};
ghost use Rattle.std.specs.String.{string_bytes};
ghost use Rattle.page_html.specs.Parts.{item_of};
ghost use Rattle.page_filesystem.specs.Facts as spec;

use crate::parts::FileSystemPart;
use desk_core::Head;
use desk_exports::Profile;
use desk_text::Text;
use page_findings::{Measure, measured};
use page_html::{Column, Frame, Part, four_cells};
use std::alloc::{AllocError, Global};

/// The facts.
const FACTS: Frame = Frame {
    class: "facts",
    is_titled: false,
    columns: &[
        Column::Fact("In force"),
        Column::Fact("Custodians"),
        Column::Fact("Guarded"),
        Column::Fact("May mount some of it"),
    ],
};

/// Adds the facts of a file system: the newest revision of its file, who keeps that, whether it is guarded, and how many addresses may
/// mount some directory.
pub fn push_facts(
    alloc: Global,
    part: &FileSystemPart<'_, '_>,
    page: &mut String,
) -> Result<(), AllocError>
    ensures { OnOk result (string_bytes page.new ≡ string_bytes page.old ++ spec.facts part.now) }
{
    let revision = revision_parts(alloc, part.head)?;
    let may_mount = measured(alloc, Measure::Share, &part.counts)?;
    page_html::push_facts(
        alloc,
        &FACTS,
        &four_cells(
            revision.as_slice(),
            &[Part::Codes(part.custodians)],
            &[guarded_part(part.guarded)],
            may_mount.as_slice(),
        ),
        page,
    )
}

/// Gathers what is said of the newest revision of a file.
fn revision_parts<'a>(alloc: Global, head: Option<&'a Head>) -> Result<Vec<Part<'a>>, AllocError>
    ensures { IfOk result (λ parts. map item_of parts.items ≡ spec.revision (option_copied head.entry)) }
{
    match head {
        None => Vec::from_slice(alloc, &[Part::Words("no revision")]),
        Some(head) => Vec::from_slice(alloc, &written(head)),
    }
}

/// Returns which revision it is, who wrote it and who approved it, and its profile, if that is the old one.
fn written<'a>(head: &'a Head) -> [Part<'a>; 7]
    ensures { map item_of result ≡ spec.written head.now }
{
    let [approved, approver] = approved_by(&head.approver);
    [
        Part::Words("revision "),
        Part::Number(u64::from(head.rev)),
        Part::Words(" by "),
        Part::Code(head.author.as_str()),
        approved,
        approver,
        profile_part(head.profile),
    ]
}

/// Returns who approved a revision, if somebody did.
fn approved_by<'a>(approver: &'a Option<Text>) -> [Part<'a>; 2]
    ensures { map item_of result ≡ spec.approved_by approver.now }
{
    match approver {
        None => [Part::Nothing, Part::Nothing],
        Some(name) => [Part::Words(", approved by "), Part::Code(name.as_str())],
    }
}

/// Returns the profile, if it is the old one.
fn profile_part<'a>(profile: Profile) -> Part<'a>
    ensures { item_of result ≡ spec.profile profile }
{
    match profile {
        Profile::One => Part::Words(", of profile 1"),
        Profile::Two => Part::Nothing,
    }
}

/// Returns whether a change needs two custodians.
fn guarded_part<'a>(guarded: bool) -> Part<'a>
    ensures { item_of result ≡ spec.guarded guarded }
{
    if guarded {
        Part::Words("yes: a change of its exports needs two of them")
    } else {
        Part::Words("no: each of them may change it alone")
    }
}
