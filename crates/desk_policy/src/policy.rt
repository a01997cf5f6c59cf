//! A policy: the table of file systems, the lines in force of each, the warnings of their texts, and which of several texts a line is of.

ghost use Rattle.std.specs.Prelude.{◌≡◌, ◌<◌, All, Decides, List, [], IfOk, OnOk, length, replicate};
ghost use Rattle.desk_policy.specs.Policy.{AreAscending, EachFileAscends, IsContent, content_of, content_of_lines, rows_of, with_origins, with_rows, with_warnings};
ghost use Rattle.desk_policy.specs.PrivatePolicy.{with_row};

use crate::known_names::KnownNames;
use crate::row::Row;
use crate::warning::Warning;
use desk_exports::{Boxed, Entry};
use desk_netgroup::Netgroups;
use desk_origins::Origin;
use desk_tables::{FileSystems, FsId, Hosts};
use desk_text::Sequence;
use std::alloc::{AllocError, Global};
use std::marker::Model;

/// The table of file systems, the lines of each, in the order of their entries, the warnings of their texts, and the texts that were
/// read as one.
pub struct Policy {
    filesystems: FileSystems,
    rows: Vec<Sequence<Row>>,
    warnings: Sequence<Warning>,
    origins: Sequence<Origin>,
}

// It is written out, so that the crates above do not prove again how each part is dropped.
impl Drop for Policy {
    fn drop(self) {
        let Policy {
            filesystems: _,
            rows: _,
            warnings: _,
            origins: _,
        } = self;
    }
}

impl Model for Policy {
    ghost use Rattle.desk_policy.specs.Policy.{Content, IsContent};

    ghost Value = { Content };

    ghost view = { λ p. record { table = p.filesystems; rows = p.rows.items; warnings = p.warnings; origins = p.origins } };

    ghost invariant = { λ p. IsContent (record { table = p.filesystems; rows = p.rows.items; warnings = p.warnings; origins = p.origins }) };
}

impl Policy {
    /// Makes the policy with these file systems and the lines of these entries, each in the file system that is given
    /// with it. The lines of each file system come in the order of their numbers; file systems may each number their own
    /// lines from 1, or share the numbers of one text. An entry of a file system that is not in the table is in none.
    /// Written names stand for what these groups and hosts say. There are no warnings.
    pub fn of_entries(
        alloc: Global,
        netgroups: &Netgroups,
        hosts: &Hosts,
        filesystems: FileSystems,
        entries: Sequence<(FsId, Boxed<Entry>)>,
    ) -> Result<Policy, AllocError>
        requires { EachFileAscends entries }
        ensures { IfOk result (λ policy. policy ≡ content_of netgroups.now hosts.now filesystems entries) }
    {
        let mut rows = empty_lists(alloc, &filesystems)?;
        let mut known = KnownNames::new(alloc);
        for (fs, entry) in entries.into_vec() {
            let row = Row::by_known(alloc, netgroups, hosts, &mut known, entry)?;
            add_row(&mut rows, fs, row)?;
        }
        let warnings = Sequence::new(alloc);
        let origins = Sequence::new(alloc);
        Ok(Policy {
            filesystems,
            rows,
            warnings,
            origins,
        })
    }

    /// Makes the policy with these file systems of which one has these lines, and no other has any. There are no warnings.
    pub fn of_lines(
        alloc: Global,
        filesystems: FileSystems,
        fs: FsId,
        rows: Sequence<Row>,
    ) -> Result<Policy, AllocError>
        requires fs { fs.0 < length filesystems }
        requires ascending { AreAscending rows }
        ensures { IfOk result (λ policy. policy ≡ content_of_lines filesystems fs.0 rows) }
    {
        let mut lists = empty_lists(alloc, &filesystems)?;
        lists[fs.0 as usize] = rows;
        let warnings = Sequence::new(alloc);
        let origins = Sequence::new(alloc);
        Ok(Policy {
            filesystems,
            rows: lists,
            warnings,
            origins,
        })
    }

    /// Makes the policy with these warnings in place of its own.
    pub(crate) fn with_warnings(self, warnings: Sequence<Warning>) -> Policy
        ensures { result ≡ with_warnings self warnings }
    {
        let Policy {
            filesystems,
            rows,
            warnings: _,
            origins,
        } = self;
        Policy {
            filesystems,
            rows,
            warnings,
            origins,
        }
    }

    /// Makes the policy whose lines are of these texts, which were read as one.
    pub fn with_origins(self, origins: Sequence<Origin>) -> Policy
        ensures { result ≡ with_origins self origins }
    {
        let Policy {
            filesystems,
            rows,
            warnings,
            origins: _,
        } = self;
        Policy {
            filesystems,
            rows,
            warnings,
            origins,
        }
    }

    /// Makes the policy of these parts.
    pub(crate) fn of_parts(
        alloc: Global,
        filesystems: FileSystems,
        rows: Vec<Sequence<Row>>,
        warnings: Sequence<Warning>,
    ) -> Policy
        requires { IsContent (record { table = filesystems; rows = rows.items; warnings = warnings; origins = [] }) }
        ensures { result ≡ record { table = filesystems; rows = rows.items; warnings = warnings; origins = [] } }
    {
        let origins = Sequence::new(alloc);
        Policy {
            filesystems,
            rows,
            warnings,
            origins,
        }
    }

    /// Puts these lines in the place of those of a file system.
    pub fn replace(&mut self, fs: FsId, rows: Sequence<Row>)
        requires fs { fs.0 < length self.old.table }
        requires ascending { AreAscending rows }
        ensures { self.new ≡ with_rows self.old fs.0 rows }
    {
        self.rows[fs.0 as usize] = rows;
    }

    /// Lends the lines of a file system, none if there is no such file system.
    pub fn rows(&self, fs: FsId) -> &[Row]
        ensures { result.now ≡ rows_of self.now fs.0 }
    {
        match self.rows.get(fs.0 as usize) {
            Some(list) => list.as_slice(),
            None => &[],
        }
    }

    /// Lends the lines of each file system, in the order of the table.
    pub fn rows_by_filesystem(&self) -> &[Sequence<Row>]
        ensures rows { result.now ≡ self.now.rows }
        ensures each { length result.now ≡ length self.now.table }
        ensures ascending { All AreAscending result.now }
    {
        self.rows.as_slice()
    }

    /// Lends the warnings of the texts: those of the netgroup file, and then those of the exports files by mount point; of a
    /// file in the order of its lines and of the words of each.
    pub fn warnings(&self) -> &[Warning]
        ensures { result.now ≡ self.now.warnings }
    {
        self.warnings.as_slice()
    }

    /// Lends the texts that were read as one, if they were several.
    pub fn origins(&self) -> &[Origin]
        ensures { result.now ≡ self.now.origins }
    {
        self.origins.as_slice()
    }

    /// Lends the table of file systems.
    pub fn filesystems(&self) -> &FileSystems
        ensures { result.now ≡ self.now.table }
    {
        &self.filesystems
    }
}

/// Adds a line to the list of its file system, if there is one.
fn add_row(lists: &mut Vec<Sequence<Row>>, fs: FsId, row: Row) -> Result<(), AllocError>
    ensures { OnOk result (lists.new.items ≡ with_row lists.old.items fs.0 row) }
{
    if let Some(list) = lists.get_mut(fs.0 as usize) {
        list.push(row)?;
    }
    Ok(())
}

/// Tests whether lines are in the order of their numbers, each number once.
pub fn are_ascending(rows: &[Row]) -> bool
    ensures { Decides result (AreAscending rows.now) }
{
    for place in 1..rows.len() {
        if rows[place].entry.line <= rows[place - 1].entry.line {
            return false;
        }
    }
    true
}

/// Makes a list without elements for each file system.
fn empty_lists<T: Drop>(
    alloc: Global,
    filesystems: &FileSystems,
) -> Result<Vec<Sequence<T>>, AllocError>
    ensures { IfOk result (λ lists. lists.items ≡ replicate (length filesystems.now) []) }
{
    let mut lists = Vec::new(alloc);
    for _ in 0..filesystems.len() {
        lists.push(Sequence::new(alloc))?;
    }
    Ok(lists)
}
