//! The key figures of a site.

ghost use Rattle.std.specs.Prelude.{◌≡◌, ◌++◌, IfOk, OnOk, count_by, map};
ghost use Rattle.std.specs.List.{flat_map};
ghost use Rattle.page_findings.specs.Figures as spec;
ghost use Rattle.page_findings.specs.Figures.{AreFigures, HasDirectories, directories_of};
ghost use Rattle.page_findings.specs.Lines.{line_value};

use crate::lines::SiteLine;
use desk_impact::in_order;
use desk_policy::Policy;
use desk_text::Path;
use page_data::{are_all, are_names, keeps_root};
use std::alloc::{AllocError, Global};

/// How much there is on a site.
#[derive(Clone, Copy)]
pub struct Figures {
    pub filesystems: usize,
    pub lines: usize,
    /// The directories that lines write, each once.
    pub directories: usize,
    /// The lines that grant something, and are for everybody.
    pub for_everybody: usize,
    /// Those of them that let clients write.
    pub for_everybody_read_write: usize,
    /// The lines that grant something, and keep root.
    pub root_kept: usize,
    /// Those of them that are not for clients by their names.
    pub root_kept_for_networks: usize,
    /// The lines that grant nothing.
    pub without_effect: usize,
}

impl SiteLine<'_> {
    /// Tests whether the line grants something, and is for everybody.
    fn is_for_everybody(&self) -> bool
        ensures { result ≡ spec.is_for_everybody (line_value self.now) }
    {
        self.grants() && are_all(&self.row.entry.clients)
    }

    /// Tests whether it does, and lets them write.
    fn is_writable_by_everybody(&self) -> bool
        ensures { result ≡ spec.is_writable_by_everybody (line_value self.now) }
    {
        self.is_for_everybody() && self.is_read_write()
    }

    /// Tests whether the line grants something, and keeps root.
    fn keeps_root(&self) -> bool
        ensures { result ≡ spec.keeps_root_for_some (line_value self.now) }
    {
        self.grants() && keeps_root(&self.row.entry.terms)
    }

    /// Tests whether it does, for clients that it does not write by their names.
    fn keeps_root_for_networks(&self) -> bool
        ensures { result ≡ spec.keeps_root_for_networks (line_value self.now) }
    {
        self.keeps_root() && !are_names(&self.row.entry.clients)
    }
}

/// Counts what the key figures of a site say, given the lines of all its file systems.
pub fn figures_of_site(
    alloc: Global,
    policy: &Policy,
    lines: &[SiteLine<'_>],
) -> Result<Figures, AllocError>
    ensures { IfOk result (λ figures. AreFigures policy.now (map line_value lines.now) figures) }
{
    let directories = count_directories(alloc, lines)?;
    Ok(Figures {
        filesystems: policy.filesystems().len(),
        lines: lines.len(),
        directories,
        for_everybody: count_for_everybody(lines),
        for_everybody_read_write: count_writable_by_everybody(lines),
        root_kept: count_root_kept(lines),
        root_kept_for_networks: count_root_kept_for_networks(lines),
        without_effect: count_without_effect(lines),
    })
}

/// Counts the lines that grant something, and are for everybody.
fn count_for_everybody(lines: &[SiteLine<'_>]) -> usize
    ensures { result ≡ count_by spec.is_for_everybody (map line_value lines.now) }
{
    lines.iter().filter(|line| line.is_for_everybody()).count()
}

/// Counts those of them that let clients write.
fn count_writable_by_everybody(lines: &[SiteLine<'_>]) -> usize
    ensures { result ≡ count_by spec.is_writable_by_everybody (map line_value lines.now) }
{
    lines
        .iter()
        .filter(|line| line.is_writable_by_everybody())
        .count()
}

/// Counts the lines that grant something, and keep root.
fn count_root_kept(lines: &[SiteLine<'_>]) -> usize
    ensures { result ≡ count_by spec.keeps_root_for_some (map line_value lines.now) }
{
    lines.iter().filter(|line| line.keeps_root()).count()
}

/// Counts those of them that are not for clients by their names.
fn count_root_kept_for_networks(lines: &[SiteLine<'_>]) -> usize
    ensures { result ≡ count_by spec.keeps_root_for_networks (map line_value lines.now) }
{
    lines
        .iter()
        .filter(|line| line.keeps_root_for_networks())
        .count()
}

/// Counts the lines that grant nothing.
fn count_without_effect(lines: &[SiteLine<'_>]) -> usize
    ensures { result ≡ count_by spec.grants_nothing (map line_value lines.now) }
{
    lines.iter().filter(|line| !line.grants()).count()
}

/// Counts the directories that lines write, each once.
fn count_directories(alloc: Global, lines: &[SiteLine<'_>]) -> Result<usize, AllocError>
    ensures { IfOk result (HasDirectories (map line_value lines.now)) }
{
    let paths = directories_of(alloc, lines)?;
    let directories = in_order(paths);
    Ok(directories.len())
}

/// Gathers the directories that lines write, some of them more than once.
fn directories_of<'a>(alloc: Global, lines: &[SiteLine<'a>]) -> Result<Vec<&'a Path>, AllocError>
    ensures { IfOk result (λ paths. map (λ path. path.now) paths.items ≡ flat_map directories_of (map line_value lines.now)) }
{
    let mut paths = Vec::new(alloc);
    for line in lines {
        push_directories(&mut paths, line.row.entry.dirs.as_slice())?;
    }
    Ok(paths)
}

/// Adds directories.
fn push_directories<'a>(paths: &mut Vec<&'a Path>, dirs: &'a [Path]) -> Result<(), AllocError>
    ensures { OnOk result (map (λ path. path.now) paths.new.items ≡ map (λ path. path.now) paths.old.items ++ dirs.now) }
{
    for dir in dirs {
        paths.push(dir)?;
    }
    Ok(())
}
