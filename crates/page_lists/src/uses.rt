//! What a written name stands for, and the lines that write it.

ghost use Rattle.std.specs.Prelude.{◌≡◌, IfOk, filter, map};
ghost use Rattle.std.specs.List.{dedup};
ghost use Rattle.page_html.specs.Parts.{item_of};
ghost use Rattle.page_html.specs.Ranges.{ends_of};
ghost use Rattle.page_lists.specs.Uses as spec;
ghost use Rattle.page_lists.specs.Uses.{mention_value};
ghost use Rattle.page_lists.specs.NameCells.{stands_for, written_by};
ghost use Rattle.page_lists.specs.NameIndex.{AreByName, IsIndexOf, is_of_name, same_line, written_value};

use crate::mentions::{Mention, some_or};
use crate::name_index::{WrittenName, lines_with};
use crate::ranges::ranges_of;
use desk_policy::{Policy, SiteTables, addresses_of};
use desk_tables::{FileSystems, FsId};
use page_html::{Part, Span};
use std::alloc::{AllocError, Global};

/// How many lines that write a name a cell names.
const MOST_USES: usize = 6;

/// For how many addresses a name stands, and in which ranges; and the lines that write it.
#[derive(Drop)]
pub struct NameFacts<'a> {
    pub addresses: u64,
    pub ranges: Vec<Span>,
    pub uses: Vec<Mention<'a>>,
}

/// Finds what a name stands for, and the lines that write it.
pub(crate) fn facts_of<'a>(
    alloc: Global,
    policy: &'a Policy,
    tables: &SiteTables,
    index: &[WrittenName<'_>],
    name: &str,
) -> Result<NameFacts<'a>, AllocError>
    requires { IsIndexOf policy.now index.now }
    ensures { IfOk result (λ facts. spec.facts_value facts ≡ spec.facts_of policy.now tables.now name.now) }
{
    let uses = uses_of(alloc, policy.filesystems(), index, name)?;
    let addresses = addresses_of(alloc, &tables.netgroups, &tables.hosts, name)?;
    let ranges = ranges_of(alloc, addresses.as_slice())?;
    Ok(NameFacts {
        addresses: addresses.len() as u64,
        ranges,
        uses,
    })
}

/// Lists the lines that write a name.
fn uses_of<'a>(
    alloc: Global,
    filesystems: &'a FileSystems,
    index: &[WrittenName<'_>],
    name: &str,
) -> Result<Vec<Mention<'a>>, AllocError>
    requires { AreByName index.now }
    ensures { IfOk result (λ uses. map mention_value uses.items
        ≡ map (spec.line_of filesystems.now) (dedup same_line (filter (is_of_name name.now) (map written_value index.now)))) }
{
    let lines = lines_with(alloc, index, name)?;
    mentions_of(alloc, filesystems, lines.as_slice())
}

/// Names lines.
fn mentions_of<'a>(
    alloc: Global,
    filesystems: &'a FileSystems,
    lines: &[WrittenName<'_>],
) -> Result<Vec<Mention<'a>>, AllocError>
    ensures { IfOk result (λ mentions. map mention_value mentions.items ≡ map (spec.line_of filesystems.now) (map written_value lines.now)) }
{
    let mut mentions = Vec::new(alloc);
    for line in lines {
        mentions.push(mention_of(filesystems, line.fs, line.line))?;
    }
    Ok(mentions)
}

/// Names a line.
fn mention_of<'a>(filesystems: &'a FileSystems, fs: FsId, line: u32) -> Mention<'a>
    ensures { mention_value result ≡ spec.OfLine fs.0 (spec.mount_name filesystems.now fs.0) line }
{
    Mention::Line(fs, mount_name(filesystems, fs), line)
}

/// Lends the printed mount point of a file system.
fn mount_name(filesystems: &FileSystems, fs: FsId) -> &str
    ensures { result.now ≡ spec.mount_name filesystems.now fs.0 }
{
    match filesystems.mount(fs) {
        Some(path) => path.text(),
        None => "",
    }
}

/// Returns the addresses that a name stands for.
pub(crate) fn stands_for<'a>(ranges: &'a [Span]) -> Part<'a>
    ensures { item_of result ≡ stands_for (map ends_of ranges.now) }
{
    if ranges.is_empty() {
        Part::Strong("nobody")
    } else {
        Part::Ranges(ranges)
    }
}

/// Names the lines that write a name, or says that none does.
pub(crate) fn uses_or<'a>(
    alloc: Global,
    facts: &'a NameFacts<'_>,
) -> Result<Vec<Part<'a>>, AllocError>
    ensures { IfOk result (λ parts. map item_of parts.items ≡ written_by (map mention_value facts.now.uses.items)) }
{
    some_or(
        alloc,
        facts.uses.as_slice(),
        MOST_USES,
        Part::Zero("no line"),
    )
}
