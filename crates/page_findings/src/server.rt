//! What mountd(8) does otherwise than this desk, of each file system of a site.

ghost use Rattle.std.specs.Prelude.{IfOk};
ghost use Rattle.page_data.specs.Laws.{IsSoundSite};
ghost use Rattle.page_findings.specs.Server.{AreServerOfSite};

use desk_index::Index;
use desk_policy::PolicyView;
use desk_tables::FsId;
use page_data::{ServerFindings, server_findings};
use std::alloc::{AllocError, Global};

/// Finds where the server grants more, and which lines it may leave out, by file system, in the order of the table.
pub fn server_of_site<'i>(
    alloc: Global,
    index: &'i Index,
) -> Result<Vec<ServerFindings<'i>>, AllocError>
    requires { IsSoundSite index.now }
    ensures { IfOk result (λ found. AreServerOfSite index.now found.items) }
{
    let count = index.policy().filesystems().len();
    let mut found = Vec::new(alloc);
    for place in 0..count {
        let own = server_findings(alloc, index, FsId(place as u32))?;
        found.push(own)?;
    }
    Ok(found)
}
