//! The part of the page on each file system.

ghost use Rattle.std.specs.Prelude.{◌≡◌, ◌==◌, [], IfOk, IfSome, OnOk, Some, find, map, slice_get};
ghost use Rattle.std.specs.Option.{option_copied};
ghost use Rattle.std.specs.String.{string_bytes};
ghost use Rattle.desk_text.specs.Path.{path_text};
ghost use Rattle.desk_core.specs.Head.{newest_in};
ghost use Rattle.desk_policy.specs.SiteFault.{fault_line};
ghost use Rattle.desk_policy.specs.SiteFile.{exports_file_name};
ghost use Rattle.page_filesystem.specs.Parts.{IsReadableProposal};
ghost use Rattle.page_maps.specs.Figures.{GainsFileSystemMaps};
ghost use Rattle.page_data.specs.Classes.{class_run};
ghost use Rattle.page_data.specs.Systems.{AreSystems, system_value};
ghost use Rattle.page_data.specs.Values.{AreRunsOfSome};
ghost use Rattle.page_site.specs.SystemParts as spec;
ghost use Rattle.page_site.specs.SystemParts.{AreTextsFrom, IsSystemText};
ghost use Rattle.page_site.specs.Given.{HasReadableText};
ghost use Rattle.page_site.specs.Pieces.{Gains};
ghost use Rattle.page_site.specs.PrivateSystemParts.{CanBeTold, CanWait, IsOfSite, IsSystemOf, IsTextFor, IsTextWith, telling_value};
ghost use Rattle.page_site.specs.WaitingProposals.{waiting_value};

use crate::waiting_proposals::{Outcome, Waiting};
use desk_core::{Head, newest_among};
use desk_impact::Section;
use desk_policy::{Policy, PolicyView, SiteFault, exports_file_name};
use desk_tables::{FsId, Mount};
use desk_who::Run;
use page_data::{Class, FileSystemReport, Opening, orders_tell_verdicts};
use page_filesystem::{
    FileSystemData, Outcome as ToldOutcome, ProposalPart, lines_in, push_file_system_of,
};
use page_findings::{Deciding, Finding, SiteLine};
use page_maps::push_file_system_maps;
use page_places::{ListedGroups, changes_of, listed_groups};
use page_summary::{SiteFinding, site_findings};
use std::alloc::{AllocError, Global};

/// What the parts of all file systems are made of.
#[derive(Clone, Copy)]
pub(crate) struct Telling<'b, V> {
    pub view: &'b V,
    pub heads: &'b [Head],
    pub waiting: &'b [Waiting<'b, V>],
    pub lines: &'b [SiteLine<'b>],
    pub deciding: &'b [Deciding],
    /// Where the server grants what is denied.
    pub openings: &'b [Section<'b, Opening>],
}

/// What is told of one file system beside its lines.
#[derive(Clone, Copy)]
struct ToldSystem<'b, 'a> {
    fs: FsId,
    classes: &'b [Run<Class>],
    maps: &'b str,
    findings: &'b [Finding<'b>],
    listed: &'b ListedGroups<'a>,
}

/// Adds the part on each file system, in the order of their table.
pub(crate) fn push_systems<V: PolicyView>(
    alloc: Global,
    telling: &Telling<'_, V>,
    systems: Vec<FileSystemReport<'_>>,
    page: &mut String,
) -> Result<(), AllocError>
    requires site { IsOfSite (telling_value V.in_force telling.now) }
    requires systems { AreSystems (V.in_force telling.now.view.now) (map system_value systems.items) }
    ensures { OnOk result (Gains (AreTextsFrom (telling_value V.in_force telling.now) 0 (map system_value systems.entry.items))
        (string_bytes page.old) (string_bytes page.new)) }
{
    let mut number = 0;
    for system in systems {
        push_system(alloc, telling, FsId(number), system, page)?;
        number += 1;
    }
    Ok(())
}

/// Adds the part on a file system.
fn push_system<V: PolicyView>(
    alloc: Global,
    telling: &Telling<'_, V>,
    fs: FsId,
    system: FileSystemReport<'_>,
    page: &mut String,
) -> Result<(), AllocError>
    requires site { IsOfSite (telling_value V.in_force telling.now) }
    requires system { IsSystemOf (V.in_force telling.now.view.now) fs.0 (system_value system) }
    ensures { OnOk result (Gains (IsSystemText (telling_value V.in_force telling.now) fs.0 (system_value system.entry))
        (string_bytes page.old) (string_bytes page.new)) }
{
    orders_tell_verdicts();
    let FileSystemReport {
        sections,
        classes,
        grants: _,
    } = system;
    let listed = listed_groups(alloc, telling.openings, sections.into_vec())?;
    let maps = maps_of(alloc, classes.as_slice())?;
    let counted = site_findings(alloc, lines_in(telling.lines, fs), telling.deciding)?;
    let findings = findings_of(alloc, counted.as_slice())?;
    let told = ToldSystem {
        fs,
        classes: classes.as_slice(),
        maps: maps.as_str(),
        findings: findings.as_slice(),
        listed: &listed,
    };
    push_told(alloc, telling, &told, page)
}

/// Draws the maps of a file system.
fn maps_of(alloc: Global, classes: &[Run<Class>]) -> Result<String, AllocError>
    requires { AreRunsOfSome (map class_run classes.now) }
    ensures { IfOk result (λ maps. GainsFileSystemMaps (map class_run classes.now) [] (string_bytes maps)) }
{
    let mut maps = String::new(alloc);
    push_file_system_maps(alloc, classes, &mut maps)?;
    Ok(maps)
}

/// Lists lines that stand out without their counts.
fn findings_of<'a>(
    alloc: Global,
    counted: &[SiteFinding<'a>],
) -> Result<Vec<Finding<'a>>, AllocError>
    ensures { IfOk result (λ findings. findings.items ≡ map (λ one. one.finding) counted.now) }
{
    let mut findings = Vec::new(alloc);
    for one in counted {
        findings.push(one.finding)?;
    }
    Ok(findings)
}

/// Adds the part on a file system, with what waits for it, if something does.
fn push_told<V: PolicyView>(
    alloc: Global,
    telling: &Telling<'_, V>,
    told: &ToldSystem<'_, '_>,
    page: &mut String,
) -> Result<(), AllocError>
    requires site { IsOfSite (telling_value V.in_force telling.now) }
    requires told { CanBeTold (V.in_force telling.now.view.now) told.now }
    ensures { OnOk result (Gains (IsTextFor (telling_value V.in_force telling.now) told.now
        (spec.waiting_for (map (waiting_value V.in_force) telling.now.waiting.now) told.now.fs.0))
        (string_bytes page.old) (string_bytes page.new)) }
{
    match waiting_for(telling.waiting, told.fs) {
        Some(waiting) => push_waiting(alloc, telling, told, waiting, page),
        None => push_part(alloc, telling, told, None, page),
    }
}

/// Finds what waits for a file system.
pub(crate) fn waiting_for<'b, V>(
    waiting: &'b [Waiting<'b, V>],
    fs: FsId,
) -> Option<&'b Waiting<'b, V>>
    ensures { option_copied result ≡ find (λ one. one.fs.0 == fs.0) waiting.now }
{
    waiting.iter().find(|one| one.fs.0 == fs.0)
}

/// Adds the part on a file system for which something waits.
fn push_waiting<'b, V: PolicyView>(
    alloc: Global,
    telling: &Telling<'b, V>,
    told: &ToldSystem<'_, '_>,
    waiting: &'b Waiting<'b, V>,
    page: &mut String,
) -> Result<(), AllocError>
    requires site { IsOfSite (telling_value V.in_force telling.now) }
    requires told { CanBeTold (V.in_force telling.now.view.now) told.now }
    requires waiting { CanWait (telling_value V.in_force telling.now) (waiting_value V.in_force waiting.now) }
    ensures { OnOk result (Gains (IsTextFor (telling_value V.in_force telling.now) told.now (Some (waiting_value V.in_force waiting.now)))
        (string_bytes page.old) (string_bytes page.new)) }
{
    match &waiting.outcome {
        Outcome::Lines(view) => {
            let changes = changes_of(alloc, telling.view, view, waiting.fs)?;
            let outcome = ToldOutcome::Changes(changes.rows.as_slice(), changes.silent);
            push_proposed(alloc, telling, told, waiting, outcome, page)
        }
        Outcome::Refused(fault) => {
            let words = fault_words(alloc, fault)?;
            let outcome = ToldOutcome::Refused(words.as_str());
            push_proposed(alloc, telling, told, waiting, outcome, page)
        }
    }
}

/// Returns a fault in words.
fn fault_words(alloc: Global, fault: &SiteFault) -> Result<String, AllocError>
    ensures { IfOk result (λ words. string_bytes words ≡ fault_line fault.now) }
{
    fault.to_string(alloc)
}

/// Adds the part on a file system, with what waits for it, and what comes of that.
fn push_proposed<V: PolicyView>(
    alloc: Global,
    telling: &Telling<'_, V>,
    told: &ToldSystem<'_, '_>,
    waiting: &Waiting<'_, V>,
    outcome: ToldOutcome<'_, '_>,
    page: &mut String,
) -> Result<(), AllocError>
    requires site { IsOfSite (telling_value V.in_force telling.now) }
    requires told { CanBeTold (V.in_force telling.now.view.now) told.now }
    requires readable { HasReadableText (waiting_value V.in_force waiting.now) }
    requires outcome { spec.TellsOutcome (V.in_force telling.now.view.now) (waiting_value V.in_force waiting.now) outcome }
    ensures { OnOk result (Gains (IsTextFor (telling_value V.in_force telling.now) told.now (Some (waiting_value V.in_force waiting.now)))
        (string_bytes page.old) (string_bytes page.new)) }
{
    let proposal = ProposalPart {
        author: waiting.proposal.author.as_str(),
        revision: u64::from(waiting.proposal.base) + 1,
        text: waiting.proposal.body.as_str(),
        outcome,
    };
    push_part(alloc, telling, told, Some(proposal), page)
}

/// Adds the part on a file system, with this proposal.
fn push_part<V: PolicyView>(
    alloc: Global,
    telling: &Telling<'_, V>,
    told: &ToldSystem<'_, '_>,
    proposal: Option<ProposalPart<'_, '_>>,
    page: &mut String,
) -> Result<(), AllocError>
    requires site { IsOfSite (telling_value V.in_force telling.now) }
    requires told { CanBeTold (V.in_force telling.now.view.now) told.now }
    requires proposal { IfSome proposal IsReadableProposal }
    ensures { OnOk result (Gains (IsTextWith (telling_value V.in_force telling.now) told.now proposal.entry)
        (string_bytes page.old) (string_bytes page.new)) }
{
    let policy = telling.view.policy();
    let head = head_in(alloc, policy, told.fs, telling.heads)?;
    push_file_system_of(
        alloc,
        &FileSystemData {
            policy,
            fs: told.fs,
            classes: told.classes,
            lines: telling.lines,
            head,
            findings: told.findings,
            proposal,
            maps: told.maps,
            groups: told.listed.groups.as_slice(),
            group_count: told.listed.count,
            unlisted: told.listed.unlisted,
            has_unlisted_others: told.listed.has_unlisted_others,
        },
        page,
    )
}

/// Finds the newest revision of the exports file of a file system.
fn head_in<'a>(
    alloc: Global,
    policy: &Policy,
    fs: FsId,
    heads: &'a [Head],
) -> Result<Option<&'a Head>, AllocError>
    ensures { IfOk result (λ head. option_copied head ≡ spec.head_in heads.now (slice_get policy.now.table fs.0)) }
{
    match policy.filesystems().as_slice().get(fs.0 as usize) {
        Some(mount) => head_of(alloc, mount, heads),
        None => Ok(None),
    }
}

/// Finds the newest revision of the exports file of a mount point.
fn head_of<'a>(
    alloc: Global,
    mount: &Mount,
    heads: &'a [Head],
) -> Result<Option<&'a Head>, AllocError>
    ensures { IfOk result (λ head. option_copied head ≡ newest_in heads.now (exports_file_name (path_text mount.now.path))) }
{
    let file = exports_file_name(alloc, mount.path.text())?;
    Ok(newest_among(heads, file.as_str()))
}
