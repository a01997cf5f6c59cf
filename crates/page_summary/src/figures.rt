//! The key figures of a site.

ghost use Rattle.std.specs.Prelude.{◌≡◌, ◌++◌, OnOk};
ghost use Rattle.std.specs.String.{string_bytes};
ghost use Rattle.page_summary.specs.Figures as spec;

use page_html::{Column, Frame, Part, Tag, push_facts, push_tag};
use std::alloc::{AllocError, Global};

/// Their list.
const FIGURES: Frame = Frame {
    class: "big",
    is_titled: false,
    columns: &[
        Column::Fact("File systems"),
        Column::Fact("Lines"),
        Column::Fact("Lines for everybody"),
        Column::Fact("Lines that keep root"),
        Column::Fact("Lines without effect"),
        Column::Fact("Warnings"),
        Column::Fact("Proposals"),
    ],
};

/// The key figures of a site.
#[derive(Clone, Copy)]
pub struct KeyFigures {
    pub systems: u64,
    /// How many of the file systems are guarded.
    pub guarded: u64,
    pub lines: u64,
    /// How many directories lines write, for each file system.
    pub directories: u64,
    /// How many lines grant something to everybody, and how many of these are not read-only.
    pub for_everybody: u64,
    pub writable: u64,
    /// How many lines that grant something keep root, and how many of these are for networks or everybody.
    pub root_kept: u64,
    pub root_for_many: u64,
    /// How many lines grant nothing.
    pub idle: u64,
    pub warnings: u64,
    pub proposals: u64,
}

/// Begins the summary, and adds the key figures.
pub fn push_figures(
    alloc: Global,
    figures: &KeyFigures,
    page: &mut String,
) -> Result<(), AllocError>
    ensures { OnOk result (string_bytes page.new ≡ string_bytes page.old ++ spec.figures figures.now) }
{
    push_tag(Tag::SummaryStart, page)?;
    let space = Part::Words(" ");
    let guarded = Part::SmallCount(figures.guarded, "guarded");
    let directories = Part::SmallPlural(
        figures.directories,
        "directory written",
        "directories written",
    );
    let writable = Part::SmallCount(figures.writable, "without -ro");
    let for_many = Part::SmallCount(figures.root_for_many, "for networks or everybody");
    let idle = Part::Small("they grant nothing; not counted in the two before");
    let warnings = Part::Small("about words");
    let proposals = Part::Small("not in force");
    push_facts(
        alloc,
        &FIGURES,
        &[
            &[Part::Number(figures.systems), space, guarded],
            &[Part::Number(figures.lines), space, directories],
            &[Part::Number(figures.for_everybody), space, writable],
            &[Part::Number(figures.root_kept), space, for_many],
            &[Part::Number(figures.idle), space, idle],
            &[Part::Number(figures.warnings), space, warnings],
            &[Part::Number(figures.proposals), space, proposals],
        ],
        page,
    )
}
