//! Why each line of a site stands out.

ghost use Rattle.std.specs.Prelude.{IfOk, map};
ghost use Rattle.page_data.specs.Laws.{IsSoundSite};
ghost use Rattle.page_data.specs.Systems.{AreSystems, system_value};
ghost use Rattle.page_findings.specs.Lines.{AreReasonsOfSite};
ghost use Rattle.page_findings.specs.Server.{AreServerOfSite};

use desk_policy::Policy;
use desk_tables::FsId;
use desk_text::Sequence;
use page_data::{FileSystemReport, LineReasons, ServerFindings, reasons_of_lines};
use std::alloc::{AllocError, Global};

/// Lists why each line stands out, by file system, in the order of the table, given what is found of each file system, and what the
/// server does otherwise in it.
pub fn reasons_of_site<'i>(
    alloc: Global,
    policy: &Policy,
    systems: &[FileSystemReport<'_>],
    server: &[ServerFindings<'i>],
) -> Result<Vec<Sequence<LineReasons<'i>>>, AllocError>
    requires sound { IsSoundSite policy.now }
    requires systems { AreSystems policy.now (map system_value systems.now) }
    requires server { AreServerOfSite policy.now server.now }
    ensures { IfOk result (λ reasons. AreReasonsOfSite policy.now reasons.items) }
{
    let mut reasons = Vec::new(alloc);
    for place in 0..systems.len() {
        let own = reasons_of_lines(
            alloc,
            policy,
            FsId(place as u32),
            systems[place].grants.as_slice(),
            &server[place],
        )?;
        reasons.push(Sequence::from_vec(own))?;
    }
    Ok(reasons)
}
