//! The security flavours of the lines that grant something.

ghost use Rattle.std.specs.Prelude.{◌≡◌, IfOk, List, OnOk, length, map};
ghost use Rattle.std.specs.String.{string_bytes};
ghost use Rattle.desk_tables.specs.declared.filesystems.Mount.{Mount};
ghost use Rattle.page_findings.specs.Flavours.{use_value};
ghost use Rattle.page_findings.specs.Lines.{line_value};
ghost use Rattle.page_lists.specs.Uses.{mention_value};
ghost use Rattle.page_summary.specs.FlavoursTable.{flavours_table};
ghost use Rattle.page_summary.specs.Adding.{Adds};
ghost use Rattle.page_summary.specs.FlavoursRows as spec;
ghost use Rattle.page_summary.specs.FlavoursRows.{AreFlavoursRows, all_mentioned, named_in, row_value};

use crate::files::name_of;
use crate::flavours::{FlavoursRow, push_flavours_table};
use desk_exports::Flavour;
use desk_policy::Policy;
use desk_tables::{FileSystems, FsId};
use desk_text::Sequence;
use page_findings::{FlavourUse, SiteLine, flavours_in_use};
use page_lists::Mention;
use std::alloc::{AllocError, Global};

/// Adds the flavours of the lines that grant something, given the lines of all file systems.
pub fn push_flavours_of(
    alloc: Global,
    policy: &Policy,
    lines: &[SiteLine<'_>],
    page: &mut String,
) -> Result<(), AllocError>
    ensures { OnOk result (Adds (AreFlavoursRows policy.now.table (map line_value lines.now)) flavours_table
        (string_bytes page.old) (string_bytes page.new)) }
{
    let uses = flavours_in_use(alloc, lines)?;
    let mentions = mentions_of_uses(alloc, policy.filesystems(), uses.as_slice())?;
    let rows = flavours_rows(alloc, uses.as_slice(), mentions.as_slice())?;
    push_flavours_table(alloc, rows.as_slice(), page)
}

/// Lists the file systems of each of these flavours, as a cell names them.
fn mentions_of_uses<'a>(
    alloc: Global,
    table: &'a FileSystems,
    uses: &[FlavourUse<'_>],
) -> Result<Vec<Sequence<Mention<'a>>>, AllocError>
    ensures { IfOk result (λ mentions. map all_mentioned mentions.items ≡ map (spec.systems_of table.now) (map use_value uses.now)) }
{
    let mut mentions = Vec::new(alloc);
    for one in uses {
        let own = mentions_of(alloc, table, one.filesystems.as_slice())?;
        mentions.push(Sequence::from_vec(own))?;
    }
    Ok(mentions)
}

/// Lists file systems, as a cell names them.
fn mentions_of<'a>(
    alloc: Global,
    table: &'a FileSystems,
    systems: &[FsId],
) -> Result<Vec<Mention<'a>>, AllocError>
    ensures { IfOk result (λ mentions. all_mentioned mentions.items ≡ map (named_in table.now) (map (λ fs. fs.0) systems.now)) }
{
    let mut mentions = Vec::new(alloc);
    for fs in systems {
        mentions.push(mention_of(table, fs))?;
    }
    Ok(mentions)
}

/// Makes what a cell says of a file system.
fn mention_of<'a>(table: &'a FileSystems, fs: &FsId) -> Mention<'a>
    ensures { mention_value result ≡ named_in table.now fs.now.0 }
{
    Mention::System(*fs, name_of(table, *fs))
}

/// Makes the rows of flavours, given the file systems of each.
fn flavours_rows<'b>(
    alloc: Global,
    uses: &'b [FlavourUse<'_>],
    mentions: &'b [Sequence<Mention<'_>>],
) -> Result<Vec<FlavoursRow<'b>>, AllocError>
    requires { length mentions.now ≡ length uses.now }
    ensures { IfOk result (λ rows. (table : List Mount) → map all_mentioned mentions.now ≡ map (spec.systems_of table) (map use_value uses.now)
        → map row_value rows.items ≡ map (spec.row_of table) (map use_value uses.now)) }
{
    let mut rows = Vec::new(alloc);
    for place in 0..uses.len() {
        rows.push(flavours_row(&uses[place], mentions[place].as_slice()))?;
    }
    Ok(rows)
}

/// Makes the row of flavours, given their file systems.
fn flavours_row<'b>(one: &'b FlavourUse<'_>, systems: &'b [Mention<'_>]) -> FlavoursRow<'b>
    ensures { row_value result ≡ spec.row_with (use_value one.now) (all_mentioned systems.now) }
{
    FlavoursRow {
        flavours: flavours_of(one),
        lines: one.lines as u64,
        writable: one.read_write as u64,
        systems,
    }
}

/// Lends the flavours of lines.
fn flavours_of<'b>(one: &'b FlavourUse<'_>) -> &'b [Flavour]
    ensures { result.now ≡ (use_value one.now).flavours }
{
    one.flavours
}
