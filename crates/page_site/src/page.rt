//! The page of a report, as a whole.

ghost use Rattle.std.specs.Prelude.{◌≡◌, [], All, IfOk, OnOk, map};
ghost use Rattle.std.specs.String.{string_bytes};
ghost use Rattle.desk_core.specs.Head.{CanBeKept};
ghost use Rattle.page_findings.specs.Deciding.{AreInLineOrder, deciding_value};
ghost use Rattle.desk_core.specs.Standing.{standing_in};
ghost use Rattle.page_findings.specs.Lines.{AreLinesOfSite, line_value};
ghost use Rattle.page_findings.specs.Server.{AreServerOfSite};
ghost use Rattle.page_summary.specs.declared.sections.Section.TheVariants.{Each};
ghost use Rattle.page_data.specs.Laws.{IsSoundSite};
ghost use Rattle.page_data.specs.Systems.{AreSystems, system_value};
ghost use Rattle.page_site.specs.SystemParts.{AreTextsFrom};
ghost use Rattle.page_site.specs.FoundInSite.{IsFound};
ghost use Rattle.page_site.specs.Given.{HasReadableText, site_source};
ghost use Rattle.page_site.specs.Page as spec;
ghost use Rattle.page_site.specs.Page.{InSection, IsPageOf, IsSource};
ghost use Rattle.page_site.specs.Pieces.{Gains};
ghost use Rattle.page_site.specs.PrivateSystemParts.{IsOfSite, telling_value};
ghost use Rattle.page_site.specs.PrivatePage.{IsFoundOfSite, IsGiven, found_by, told_of};
ghost use Rattle.page_site.specs.PrivateSections.{CanBeWritten, parts_found};

use crate::found_in_site::{deciding_of_site, small_maps};
use crate::sections::{Listed, Parts, push_back, push_front};
use crate::system_parts::{Telling, push_systems};
use crate::waiting_proposals::Waiting;
use crate::widening_proposals::widening_of;
use desk_core::{Head, Proposal};
use desk_impact::Section as PlaceSection;
use desk_policy::{Policy, PolicyView, SiteTables};
use desk_text::{Path, Sequence};
use page_data::{
    FileSystemReport, LineReasons, Opening, ServerFindings, sites_are_sound, systems_of_site,
};
use page_findings::{Deciding, SiteLine, lines_of_site, reasons_of_site};
use page_maps::FixedMaps;
use page_summary::{ProposalRow, Section, push_section_end, push_section_start};
use std::alloc::{AllocError, Global};

/// What a page is made of.
#[derive(Clone, Copy)]
pub struct ReportedSite<'a, V> {
    /// The policy of the newest revisions, read from their texts.
    pub view: &'a V,
    /// The tables that its exports files are read with.
    pub tables: &'a SiteTables,
    /// The newest revision of each file, in no order.
    pub heads: &'a [Head],
    /// The proposals, in no order.
    pub proposals: &'a [Proposal],
    /// Those of them for exports files of listed file systems, with what would be in force.
    pub waiting: &'a [Waiting<'a, V>],
    /// What the server does otherwise, by file system, in the order of the table.
    pub server: &'a [ServerFindings<'a>],
    /// Where it grants what is denied.
    pub openings: &'a [PlaceSection<'a, Opening>],
}

/// What is found of a site beside its lines: why each of them stands out, which others decide in place of those that never do, the small
/// maps, and the proposals by which clients may do more.
#[derive(Clone, Copy)]
pub(crate) struct FoundOfSite<'a> {
    pub reasons: &'a [Sequence<LineReasons<'a>>],
    pub deciding: &'a [Deciding],
    pub maps: &'a [FixedMaps],
    pub widening: &'a [ProposalRow<'a>],
}

/// Makes the page of a site, given the word that names its database.
pub fn report_page<V: PolicyView>(
    alloc: Global,
    database: &str,
    site: ReportedSite<'_, V>,
) -> Result<String, AllocError>
    requires kept { All CanBeKept site.heads.now }
    requires readable { All HasReadableText (site_source V.in_force site).waiting }
    requires source { IsSource (site_source V.in_force site) }
    requires server { AreServerOfSite (V.in_force site.view.now) site.server.now }
    ensures { IfOk result (λ page. IsPageOf site.entry.heads.now site.entry.proposals.now database.now (string_bytes page)) }
{
    sites_are_sound(site.view.policy());
    match Path::read(alloc, "/") {
        Ok(root) => page_of_sound_site(alloc, database, &site, &root),
        Err(_) => Err(AllocError),
    }
}

/// Makes the page of a sound site, given the path `/`.
fn page_of_sound_site<V: PolicyView>(
    alloc: Global,
    database: &str,
    site: &ReportedSite<'_, V>,
    root: &Path,
) -> Result<String, AllocError>
    requires given { IsGiven (site_source V.in_force site.now) }
    requires root { root.now ≡ [] }
    requires server { AreServerOfSite (V.in_force site.now.view.now) site.now.server.now }
    ensures { IfOk result (λ page. IsPageOf site.now.heads.now site.now.proposals.now database.now (string_bytes page)) }
{
    let systems = systems_of_site(alloc, site.view, root)?;
    page_with_systems(alloc, database, site, systems)
}

/// Makes the page, given what is found of each file system.
fn page_with_systems<V: PolicyView>(
    alloc: Global,
    database: &str,
    site: &ReportedSite<'_, V>,
    systems: Vec<FileSystemReport<'_>>,
) -> Result<String, AllocError>
    requires given { IsGiven (site_source V.in_force site.now) }
    requires server { AreServerOfSite (V.in_force site.now.view.now) site.now.server.now }
    requires systems { AreSystems (V.in_force site.now.view.now) (map system_value systems.items) }
    ensures { IfOk result (λ page. IsPageOf site.now.heads.now site.now.proposals.now database.now (string_bytes page)) }
{
    let policy = site.view.policy();
    let reasons = reasons_of_site(alloc, policy, systems.as_slice(), site.server)?;
    let deciding = deciding_of_site(alloc, policy, systems.as_slice(), reasons.as_slice())?;
    let maps = small_maps(alloc, policy, systems.as_slice())?;
    let widening = widening_of(alloc, site)?;
    let found = FoundOfSite {
        reasons: reasons.as_slice(),
        deciding: deciding.as_slice(),
        maps: maps.as_slice(),
        widening: widening.as_slice(),
    };
    page_with_reasons(alloc, database, site, &found, systems)
}

/// Makes the page, given what is found beside the lines.
fn page_with_reasons<V: PolicyView>(
    alloc: Global,
    database: &str,
    site: &ReportedSite<'_, V>,
    found: &FoundOfSite<'_>,
    systems: Vec<FileSystemReport<'_>>,
) -> Result<String, AllocError>
    requires given { IsGiven (site_source V.in_force site.now) }
    requires systems { AreSystems (V.in_force site.now.view.now) (map system_value systems.items) }
    requires found { IsFoundOfSite (site_source V.in_force site.now) (map system_value systems.items) found.now }
    ensures { IfOk result (λ page. IsPageOf site.now.heads.now site.now.proposals.now database.now (string_bytes page)) }
{
    let policy = site.view.policy();
    let lines = lines_of_site(alloc, policy, systems.as_slice(), found.reasons)?;
    page_with_lines(alloc, database, site, found, lines.as_slice(), systems)
}

/// Makes the page, given all that is found.
fn page_with_lines<V: PolicyView>(
    alloc: Global,
    database: &str,
    site: &ReportedSite<'_, V>,
    found: &FoundOfSite<'_>,
    lines: &[SiteLine<'_>],
    systems: Vec<FileSystemReport<'_>>,
) -> Result<String, AllocError>
    requires given { IsGiven (site_source V.in_force site.now) }
    requires systems { AreSystems (V.in_force site.now.view.now) (map system_value systems.items) }
    requires found { IsFoundOfSite (site_source V.in_force site.now) (map system_value systems.items) found.now }
    requires lines { AreLinesOfSite (V.in_force site.now.view.now) (map line_value lines.now) }
    ensures { IfOk result (λ page. IsPageOf site.now.heads.now site.now.proposals.now database.now (string_bytes page)) }
{
    let mut page = front_of(alloc, database, site, found, lines, systems.as_slice())?;
    push_each_of(alloc, site, found.deciding, lines, systems, &mut page)?;
    push_lists_of(alloc, database, site, &mut page)?;
    Ok(page)
}

/// Begins the page with what stands before the parts on each file system.
fn front_of<V: PolicyView>(
    alloc: Global,
    database: &str,
    site: &ReportedSite<'_, V>,
    found: &FoundOfSite<'_>,
    lines: &[SiteLine<'_>],
    systems: &[FileSystemReport<'_>],
) -> Result<String, AllocError>
    requires sound { IsSoundSite (V.in_force site.now.view.now) }
    requires found { IsFound (V.in_force site.now.view.now) (found_by (map system_value systems.now) found.now (map line_value lines.now)) }
    requires order { All AreInLineOrder (map deciding_value found.now.deciding.now) }
    ensures { IfOk result (λ page. spec.IsFront (V.in_force site.now.view.now) site.now.heads.now site.now.proposals.now
        (found_by (map system_value systems.now) found.now (map line_value lines.now)) database.now (string_bytes page)) }
{
    let parts = Parts {
        policy: site.view.policy(),
        heads: site.heads,
        proposals: site.proposals,
        systems,
        reasons: found.reasons,
        deciding: found.deciding,
        lines,
        maps: found.maps,
        widening: found.widening,
    };
    front_by(alloc, database, &parts)
}

/// Begins the page.
fn front_by(alloc: Global, database: &str, parts: &Parts<'_>) -> Result<String, AllocError>
    requires { CanBeWritten parts.now }
    ensures { IfOk result (λ page. spec.IsFront parts.now.policy.now parts.now.heads.now parts.now.proposals.now (parts_found parts.now) database.now
        (string_bytes page)) }
{
    let mut page = String::new(alloc);
    push_front(alloc, database, parts, &mut page)?;
    Ok(page)
}

/// Adds the section with the part on each file system, given the lines, and which of them decide in place of those that never do.
fn push_each_of<V: PolicyView>(
    alloc: Global,
    site: &ReportedSite<'_, V>,
    deciding: &[Deciding],
    lines: &[SiteLine<'_>],
    systems: Vec<FileSystemReport<'_>>,
    page: &mut String,
) -> Result<(), AllocError>
    requires given { IsGiven (site_source V.in_force site.now) }
    requires systems { AreSystems (V.in_force site.now.view.now) (map system_value systems.items) }
    requires lines { AreLinesOfSite (V.in_force site.now.view.now) (map line_value lines.now) }
    requires order { All AreInLineOrder (map deciding_value deciding.now) }
    ensures { OnOk result (Gains (InSection Each (AreTextsFrom
        (told_of (site_source V.in_force site.now) (map line_value lines.now) (map deciding_value deciding.now)) 0
        (map system_value systems.entry.items)))
        (string_bytes page.old) (string_bytes page.new)) }
{
    let telling = Telling {
        view: site.view,
        heads: site.heads,
        waiting: site.waiting,
        lines,
        deciding,
        openings: site.openings,
    };
    push_each(alloc, &telling, systems, page)
}

/// Adds the section with the part on each file system.
fn push_each<V: PolicyView>(
    alloc: Global,
    telling: &Telling<'_, V>,
    systems: Vec<FileSystemReport<'_>>,
    page: &mut String,
) -> Result<(), AllocError>
    requires site { IsOfSite (telling_value V.in_force telling.now) }
    requires systems { AreSystems (V.in_force telling.now.view.now) (map system_value systems.items) }
    ensures { OnOk result (Gains (InSection Each (AreTextsFrom (telling_value V.in_force telling.now) 0 (map system_value systems.entry.items)))
        (string_bytes page.old) (string_bytes page.new)) }
{
    push_section_start(Section::Each, page)?;
    push_systems(alloc, telling, systems, page)?;
    push_section_end(page)
}

/// Ends the page with what stands behind the parts on each file system.
fn push_lists_of<V: PolicyView>(
    alloc: Global,
    database: &str,
    site: &ReportedSite<'_, V>,
    page: &mut String,
) -> Result<(), AllocError>
    requires { IsSoundSite (V.in_force site.now.view.now) }
    ensures { OnOk result (Gains (spec.IsBack (V.in_force site.now.view.now) site.now.tables.now
        (standing_in site.now.heads.now site.now.proposals.now) database.now) (string_bytes page.old) (string_bytes page.new)) }
{
    let listed = Listed {
        policy: site.view.policy(),
        tables: site.tables,
        heads: site.heads,
        proposals: site.proposals,
    };
    push_back(alloc, database, &listed, page)
}
