//! A policy by keys.

ghost use Rattle.std.specs.Prelude.{◌≡◌, ◌<◌, ◌≤◌, All, Contains, IfErr, IfOk, IfSome, List, OnOk, find, length};
ghost use Rattle.std.specs.Option.{option_copied};
ghost use Rattle.desk_text.specs.Address.{number_of};
ghost use Rattle.desk_policy.specs.Contradiction.{AreConsistent};
ghost use Rattle.desk_policy.specs.Policy.{AreAscending, rows_of};
ghost use Rattle.desk_policy.specs.Verdict.{lists_here, verdict_among, verdict_result};
ghost use Rattle.desk_policy.specs.Weights.{selected};
ghost use Rattle.desk_policy.specs.declared.row.Row.{Row};
ghost use Rattle.desk_index.specs.Keys.{AreUnderOneKey, AreWeights, HasNoHostBits, lines_under, listed, numbers};
ghost use Rattle.desk_index.specs.Lighter.{AreHeaviestBelow, weighing};
ghost use Rattle.desk_index.specs.PrivateIndex.{Refuses};
ghost use Rattle.desk_index.specs.PrivateKeyed.{AreKeyed};

use crate::index_row::IndexRow;
use crate::keyed::Keyed;
use crate::keys::Key;
use crate::laws::select_finds_the_selected_lines;
use crate::lighter::Weighed;
use crate::selection::{Rows, key_of, select};
use desk_policy::{
    Denial, Policy, PolicyView, Row, SiteFault, Verdict, contradiction_of_rows, least_contradiction,
};
use desk_tables::FsId;
use desk_text::{Addr, Path, ReadError, Sequence};
use std::alloc::{AllocError, Global};
use std::marker::Model;

/// A policy, with the lines of each file system by key.
pub struct Index {
    policy: Policy,
    parts: Vec<Keyed>,
}

// It is written out, so that the crates above do not prove again how each part is dropped.
impl Drop for Index {
    fn drop(self) {
        let Index {
            policy: _,
            parts: _,
        } = self;
    }
}

impl Model for Index {
    ghost use Rattle.desk_policy.specs.Policy.{Content};
    ghost use Rattle.desk_index.specs.PrivateKeyed.{AreKeyed};

    ghost Value = { Content };

    ghost view = { λ index. index.policy };

    ghost invariant = { λ index. AreKeyed index.policy index.parts.items };
}

/// Lines that were made ready to stand for those of a file system, and the same by key.
#[derive(Drop)]
pub struct IndexPart {
    rows: Sequence<Row>,
    keyed: Keyed,
}

impl Model for IndexPart {
    ghost use Rattle.std.specs.Prelude.{List};
    ghost use Rattle.desk_policy.specs.declared.row.Row.{Row};
    ghost use Rattle.desk_index.specs.PrivateKeyed.{KeepsRows};

    ghost Value = { List Row };

    ghost view = { λ part. part.rows };

    ghost invariant = { λ part. KeepsRows part.keyed part.rows };
}

impl Index {
    /// Finds the lines under a key.
    fn row(&self, key: &Key) -> Option<&IndexRow>
        ensures { option_copied result ≡ lines_under self.now key.now }
    {
        let place = key.filesystem().0 as usize;
        if place >= self.parts.len() {
            return None;
        }
        let part = &self.parts[place];
        part.row(key)
    }

    /// Lends the weights of the keys that have lines in a file system, the greatest first.
    fn weights(&self, fs: FsId) -> &[u8]
        ensures { AreWeights (lines_under self.now) fs.0 result.now }
    {
        let place = fs.0 as usize;
        if place >= self.parts.len() {
            return &[];
        }
        self.parts[place].weights()
    }

    /// Finds the numbers of the selected lines of a file system, in at most 35 look-ups.
    pub fn selected(&self, fs: FsId, address: Addr) -> Option<&IndexRow>
        ensures { option_copied result ≡ listed (numbers (selected (rows_of self.now fs.0) (number_of address))) }
    {
        self.under_heaviest_key(fs, address)
    }

    /// Finds the selected lines of a file system, which are those under one key.
    fn under_heaviest_key(&self, fs: FsId, address: Addr) -> Option<&IndexRow>
        ensures selected { option_copied result ≡ listed (numbers (selected (rows_of self.now fs.0) (number_of address))) }
        ensures lines { IfSome result (λ row. AreUnderOneKey (rows_of self.now fs.0) row.now) }
    {
        select_finds_the_selected_lines();
        let _number = address.number();
        let mut probes = Probes::new(self);
        select(&mut probes, fs, address)
    }

    /// Finds, of the lines of a file system that match an address with less than a weight, those of the greatest weight, in at
    /// most 35 look-ups.
    pub fn heaviest_below(&self, fs: FsId, address: Addr, below: u8) -> Option<Weighed<'_>>
        ensures heaviest { AreHeaviestBelow (rows_of self.now fs.0) (number_of address) below result }
        ensures lines { IfSome result (λ found. AreUnderOneKey (rows_of self.now fs.0) found.lines.now) }
    {
        let _number = address.number();
        let _probes = Probes::new(self);
        for weight in self.weights(fs) {
            if *weight < below {
                if let Some(row) = self.weighing(fs, address, *weight) {
                    return Some(Weighed {
                        weight: *weight,
                        lines: row.lines(),
                    });
                }
            }
        }
        None
    }

    /// Finds the lines of a file system that match an address with this weight, which are those under one key.
    fn weighing(&self, fs: FsId, address: Addr, weight: u8) -> Option<&IndexRow>
        requires { weight < 35 }
        ensures weighing { option_copied result ≡ listed (numbers (weighing (rows_of self.now fs.0) (number_of address) weight)) }
        ensures lines { IfSome result (λ row. AreUnderOneKey (rows_of self.now fs.0) row.now) }
    {
        let _number = address.number();
        let _probes = Probes::new(self);
        self.row(&key_of(fs, address, weight))
    }

    /// Decides on a path of this file system.
    fn decide_in(&self, fs: FsId, address: Addr, path: &Path) -> Verdict<'_>
        ensures { verdict_result result ≡ verdict_among fs (lists_here path.now) (selected (rows_of self.now fs.0) (number_of address)) }
    {
        let _ = &self.policy;
        let Some(found) = self.under_heaviest_key(fs, address) else {
            return Verdict::Denied(Denial::NoLine(fs));
        };
        if let Some(row) = self.first_listing(fs, found.lines(), path) {
            return Verdict::Granted {
                fs,
                line: row.entry.line,
                terms: &row.entry.terms,
            };
        }
        match found.lines().first() {
            Some(line) => Verdict::Denied(Denial::NotListed(fs, *line)),
            None => Verdict::Denied(Denial::NoLine(fs)),
        }
    }

    /// Finds the first of the lines under one key that lists a path of their file system.
    pub fn first_listing(&self, fs: FsId, lines: &[u32], path: &Path) -> Option<&Row>
        requires { AreUnderOneKey (rows_of self.now fs.0) lines.now }
        ensures { (chosen : List Row) → lines.now ≡ numbers chosen → All (Contains (rows_of self.now fs.0)) chosen → option_copied result ≡ find (lists_here path.now) chosen }
    {
        let place = fs.0 as usize;
        if place >= self.parts.len() {
            return None;
        }
        self.parts[place].first_listing(self.policy.rows(fs), lines, path)
    }
}

/// Puts the lines of each file system under their keys.
fn parts_of(alloc: Global, policy: &Policy) -> Result<Vec<Keyed>, AllocError>
    ensures { IfOk result (λ parts. AreKeyed policy.now parts.items) }
{
    let mut parts = Vec::new(alloc);
    for rows in policy.rows_by_filesystem() {
        parts.push(Keyed::of_rows(alloc, rows.as_slice())?)?;
    }
    Ok(parts)
}

/// Refuses lines of a file system that contradict each other, by their least contradiction.
fn refuse_contradiction(
    alloc: Global,
    policy: &Policy,
    fs: FsId,
    rows: &[Row],
) -> Result<(), ReadError<SiteFault>>
    requires fs { fs.0 < length policy.now.table }
    requires ascending { AreAscending rows.now }
    ensures consistent { OnOk result (AreConsistent rows.now) }
    ensures fault { IfErr result (Refuses policy.now fs.0 rows.now) }
{
    match contradiction_of_rows(alloc, policy, fs, rows)? {
        Some(fault) => Err(ReadError::Fault(fault)),
        None => Ok(()),
    }
}

impl PolicyView for Index {
    type Part = IndexPart;

    ghost in_force = { λ index. index };

    ghost part_rows = { λ part. part };

    fn build(alloc: Global, policy: Policy) -> Result<Index, ReadError<SiteFault>> {
        match least_contradiction(alloc, &policy)? {
            Some(fault) => Err(ReadError::Fault(fault)),
            None => {
                let parts = parts_of(alloc, &policy)?;
                Ok(Index { policy, parts })
            }
        }
    }

    fn policy(&self) -> &Policy {
        &self.policy
    }

    fn decide(&self, address: Addr, path: &Path) -> Verdict<'_> {
        match self.policy.filesystems().of(path) {
            None => Verdict::Denied(Denial::NoFileSystem),
            Some(fs) => self.decide_in(fs, address, path),
        }
    }

    fn part(
        &self,
        alloc: Global,
        fs: FsId,
        rows: Sequence<Row>,
    ) -> Result<IndexPart, ReadError<SiteFault>> {
        refuse_contradiction(alloc, &self.policy, fs, rows.as_slice())?;
        let keyed = Keyed::of_rows(alloc, rows.as_slice())?;
        Ok(IndexPart { rows, keyed })
    }

    fn set(&mut self, fs: FsId, part: IndexPart) {
        let IndexPart { rows, keyed } = part;
        self.policy.replace(fs, rows);
        self.parts[fs.0 as usize] = keyed;
    }
}

/// Look-ups in an index, and their count.
#[derive(Drop)]
pub struct Probes<'a> {
    index: &'a Index,
    made: u32,
}

impl<'a> Probes<'a> {
    /// Begins with no look-up.
    pub fn new(index: &'a Index) -> Probes<'a>
        ensures start { result.made ≡ 0 }
        ensures index { result.index.now ≡ index.now }
        ensures networks { HasNoHostBits result.index.now }
    {
        let _ = &index.policy;
        Probes { index, made: 0 }
    }

    /// Returns how many look-ups were made.
    pub fn count(&self) -> u32
        ensures { result ≡ self.now.made }
    {
        self.made
    }
}

impl<'a> Rows<'a> for Probes<'a> {
    ghost use Rattle.desk_index.specs.Keys.{lines_under};

    ghost lines_under = { λ p. lines_under p.index.now };

    ghost count = { λ p. p.made };

    fn weights(&self, fs: FsId) -> &'a [u8] {
        self.index.weights(fs)
    }

    fn probe(&mut self, key: Key) -> Option<&'a IndexRow> {
        self.made += 1;
        self.index.row(&key)
    }
}
