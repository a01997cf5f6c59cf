//! The view of the policy that an exports text writes with these tables.

ghost use Rattle.std.specs.Prelude.{◌≡◌, Ok};
ghost use Rattle.desk_text.specs.Lines.{IsReadable};
ghost use Rattle.desk_findings.specs.CheckText.{tables_of};
ghost use Rattle.cli_texts.specs.WholeTables.{GivesOrFault, Writes, policy_of};

use crate::View;
use desk_exports::Profile;
use desk_findings::{Source, WholeSources};
use desk_policy::{
    PolicyView, SiteFault, SiteTables, parse_whole_without_warnings, warnings_change_no_answer,
};
use desk_tables::FileSystems;
use desk_text::ReadError;
use std::alloc::Global;

/// Makes a view of the policy that a whole exports text writes, by profile 2, with these file systems and its tables, which were
/// read before; or returns the text's fault: its first faulty line, or else its least contradiction.
pub fn view_of(
    alloc: Global,
    sources: WholeSources<'_>,
    tables: &SiteTables,
    filesystems: &FileSystems,
) -> Result<View, ReadError<SiteFault>>
    requires exports { IsReadable sources.exports.text.now }
    requires known { tables_of sources.tables ≡ Ok tables.now }
    ensures { let read = policy_of sources.entry filesystems.now in GivesOrFault (Writes read) read result }
{
    let own = filesystems.share()?;
    let Source { text, origins, .. } = sources.exports;
    let policy = parse_whole_without_warnings(alloc, Profile::Two, text, origins, own, tables)?;
    // No verdict and no fault rests on the warnings, which are left out.
    warnings_change_no_answer();
    View::build(alloc, policy)
}
