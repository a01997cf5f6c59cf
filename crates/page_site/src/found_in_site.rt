//! What is found of a site before its page is written.

ghost use Rattle.std.specs.Prelude.{[], All, IfOk, map};
ghost use Rattle.page_findings.specs.Deciding.{AreInLineOrder, deciding_value};
ghost use Rattle.page_findings.specs.Lines.{AreReasonsOfSite};
ghost use Rattle.page_maps.specs.Figures.{images_of};
ghost use Rattle.page_data.specs.Laws.{IsSoundSite};
ghost use Rattle.page_data.specs.Systems.{AreSystems, system_value};
ghost use Rattle.page_site.specs.FoundInSite.{AreDecidedOfSite, AreSmallMaps};

use desk_policy::Policy;
use desk_tables::FsId;
use desk_text::Sequence;
use page_data::{FileSystemReport, LineReasons, classes_of_site};
use page_findings::{Deciding, deciding_lines};
use page_maps::{FixedMaps, overview_maps};
use std::alloc::{AllocError, Global};

/// Lists which lines decide in place of those that never do, by file system, in the order of the table, given what is found of each file
/// system, and why each line stands out.
pub(crate) fn deciding_of_site(
    alloc: Global,
    policy: &Policy,
    systems: &[FileSystemReport<'_>],
    reasons: &[Sequence<LineReasons<'_>>],
) -> Result<Vec<Deciding>, AllocError>
    requires sound { IsSoundSite policy.now }
    requires systems { AreSystems policy.now (map system_value systems.now) }
    requires reasons { AreReasonsOfSite policy.now reasons.now }
    ensures decided { IfOk result (λ deciding. AreDecidedOfSite policy.now reasons.now (map deciding_value deciding.items)) }
    ensures order { IfOk result (λ deciding. All AreInLineOrder (map deciding_value deciding.items)) }
{
    let mut deciding = Vec::new(alloc);
    for place in 0..systems.len() {
        let sections = systems[place].sections.as_slice();
        let own = deciding_lines(
            alloc,
            policy,
            FsId(place as u32),
            sections,
            reasons[place].as_slice(),
        )?;
        deciding.push(own)?;
    }
    Ok(deciding)
}

/// Draws the small maps, of all file systems together and then of each, in the order of the table. (The policy is given for what
/// is promised of them alone.)
pub(crate) fn small_maps(
    alloc: Global,
    policy: &Policy,
    systems: &[FileSystemReport<'_>],
) -> Result<Vec<FixedMaps>, AllocError>
    requires { AreSystems policy.now (map system_value systems.now) }
    ensures { IfOk result (λ maps. AreSmallMaps policy.now (map system_value systems.now) (map images_of maps.items)) }
{
    let classes = classes_of_site(alloc, systems)?;
    let together = overview_maps(alloc, classes.as_slice())?;
    let mut maps = Vec::new(alloc);
    maps.push(together)?;
    for system in systems {
        let own = overview_maps(alloc, system.classes.as_slice())?;
        maps.push(own)?;
    }
    Ok(maps)
}
