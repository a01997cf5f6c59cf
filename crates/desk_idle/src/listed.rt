//! What lines list.

ghost use Rattle.std.specs.Prelude.{◌≡◌, ◌++◌, ◌∷◌, ◌&&◌, ◌||◌, [], List, ℕ, OnOk, IfOk, find, not};
ghost use Rattle.std.specs.List.{list_any};
ghost use Rattle.std.specs.Option.{option_copied};
ghost use Rattle.desk_policy.specs.Listings.{written};
ghost use Rattle.desk_policy.specs.Verdict.{is_directory_among};
ghost use Rattle.desk_policy.specs.declared.row.Row.{Row};
ghost use Rattle.desk_idle.specs.Laws.{brings};
ghost use Rattle.desk_idle.specs.Listed.{HasDirs, IsListedBy};

use desk_policy::Row;
use desk_text::Path;
use desk_text::laws::printed_paths_differ;
use std::alloc::{AllocError, Global};
use std::collections::BTreeSet;

/// What some lines list: the directories that they write, and whether one of them has -alldirs.
#[derive(Drop)]
pub struct Listed<'a> {
    alldirs: bool,
    dirs: BTreeSet<&'a Path>,
}

impl<'a> Listed<'a> {
    /// Begins with no line.
    pub fn new(alloc: Global) -> Listed<'a>
        ensures { IsListedBy result [] }
    {
        Listed {
            alldirs: false,
            dirs: BTreeSet::new(alloc),
        }
    }

    /// Adds a line behind the others, and tests whether it brings something to them.
    pub fn add(&mut self, row: &'a Row) -> Result<bool, AllocError>
        ensures brings { IfOk result (λ brought. (earlier : List Row) → IsListedBy self.old earlier → brought ≡ brings earlier row.now) }
        ensures adds { OnOk result ((earlier : List Row) → IsListedBy self.old earlier → IsListedBy self.new (earlier ++ row.now ∷ [])) }
    {
        let is_new = add_dirs(&mut self.dirs, row.entry.dirs.as_slice())?;
        let brought = brings(self.alldirs, row, is_new);
        self.alldirs |= row.entry.alldirs;
        Ok(brought)
    }

    /// Tests whether a line brings something to these.
    pub fn is_new(&self, row: &'a Row) -> bool
        ensures { (earlier : List Row) → IsListedBy self.now earlier → result ≡ brings earlier row.now }
    {
        let is_new = self.first_new(row).is_some();
        brings(self.alldirs, row, is_new)
    }

    /// Finds the first directory of a line that none of these lines writes.
    pub fn first_new(&self, row: &'a Row) -> Option<&'a Path>
        ensures { (earlier : List Row) → IsListedBy self.now earlier
            → option_copied result ≡ find (λ dir. not (is_directory_among dir (written earlier))) row.now.entry.dirs }
    {
        first_unknown(&self.dirs, row.entry.dirs.as_slice())
    }
}

/// Tests whether a line brings something, by whether one before it has -alldirs, and whether one of its directories is new.
fn brings(all_listed: bool, row: &Row, is_new: bool) -> bool
    ensures { result ≡ (not all_listed && (row.now.entry.alldirs || is_new)) }
{
    !all_listed && (row.entry.alldirs || is_new)
}

/// Adds the directories of a line to those of earlier ones, and tests whether one of them is not there yet.
fn add_dirs<'a>(seen: &mut BTreeSet<&'a Path>, dirs: &'a [Path]) -> Result<bool, AllocError>
    ensures new { IfOk result (λ is_new.
        (known : List (List (List ℕ))) → HasDirs seen.old known → is_new ≡ list_any (λ dir. not (is_directory_among dir known)) dirs.now) }
    ensures has { OnOk result ((known : List (List (List ℕ))) → HasDirs seen.old known → HasDirs seen.new (known ++ dirs.now)) }
{
    let mut is_new = false;
    for dir in dirs {
        is_new |= add_dir(seen, dir)?;
    }
    Ok(is_new)
}

/// Adds a directory, and tests whether it is not there yet.
fn add_dir<'a>(seen: &mut BTreeSet<&'a Path>, dir: &'a Path) -> Result<bool, AllocError>
    ensures new { IfOk result (λ is_new.
        (known : List (List (List ℕ))) → HasDirs seen.old known → is_new ≡ not (is_directory_among dir.now known)) }
    ensures has { OnOk result ((known : List (List (List ℕ))) → HasDirs seen.old known → HasDirs seen.new (known ++ dir.now ∷ [])) }
{
    printed_paths_differ();
    let _text = dir.text();
    Ok(seen.insert(dir)?)
}

/// Finds the first of these directories that is not there.
fn first_unknown<'a>(seen: &BTreeSet<&'a Path>, dirs: &'a [Path]) -> Option<&'a Path>
    ensures { (known : List (List (List ℕ))) → HasDirs seen.now known → option_copied result ≡ find (λ dir. not (is_directory_among dir known)) dirs.now }
{
    for dir in dirs {
        if !is_known(seen, dir) {
            return Some(dir);
        }
    }
    None
}

/// Tests whether a directory is there.
fn is_known<'a>(seen: &BTreeSet<&'a Path>, dir: &'a Path) -> bool
    ensures { (known : List (List (List ℕ))) → HasDirs seen.now known → result ≡ is_directory_among dir.now known }
{
    let _text = dir.text();
    seen.contains(&dir)
}
