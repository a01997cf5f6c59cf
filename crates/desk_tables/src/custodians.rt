//! Custodians, and the digests of their keys. (this project's own)

ghost use Rattle.std.specs.Prelude.{◌≡◌, ◌++◌, ◌∷◌, [], IfOk, List, None, Ok, OnOk, Some, map};
ghost use Rattle.std.specs.List.{All, list_all};
ghost use Rattle.std.specs.Option.{option_copied};
ghost use Rattle.desk_text.specs.Reading.{Reads, ReadsAs};
ghost use Rattle.desk_text.specs.Lines.{IsReadable, logical_lines};
ghost use Rattle.desk_tables.specs.Custodians as spec;
ghost use Rattle.desk_tables.specs.Faults.{IsOnLineOrWhole};
ghost use Rattle.desk_tables.specs.PrivateIndex.{HasDigests};
ghost use Rattle.desk_tables.specs.QuotedLines.{line_values, lines_table};
ghost use Rattle.desk_tables.specs.declared.custodians.Custodian.{Custodian};
ghost use Rattle.desk_tables.specs.declared.rules.TableRule.TheVariants as TableRule;

use crate::faults::PlacedFault;
use crate::index::add_first;
use crate::quoted_lines::{at_line, line_values, make_fault};
use crate::rules::{TableFault, TableRule};
use desk_text::{Line, LineFault, ReadError, Sequence, Text, logical_lines};
use hex::FromHex;
use std::alloc::{AllocError, Global};
use std::collections::BTreeMap;
use std::marker::Model;

/// The most bytes that a custodian's name may have.
const LONGEST_NAME: usize = 32;

/// A custodian: a name, and the SHA-256 digest of a key.
#[derive(Drop)]
pub struct Custodian {
    pub name: Text,
    pub digest: [u8; 32],
}

/// The custodians of a site, in the order of their lines, and beside them the digest of each name.
pub struct Custodians {
    rows: Sequence<Custodian>,
    digests: BTreeMap<String, [u8; 32]>,
}

// It is written out, so that the crates above do not prove again how each part is dropped.
impl Drop for Custodians {
    fn drop(self) {
        let Custodians {
            rows: _,
            digests: _,
        } = self;
    }
}

impl Model for Custodians {
    ghost use Rattle.std.specs.Prelude.{List};
    ghost use Rattle.desk_tables.specs.PrivateIndex.{HasDigests};
    ghost use Rattle.desk_tables.specs.declared.custodians.Custodian.{Custodian};

    ghost Value = { List Custodian };

    ghost view = { λ c. c.rows };

    ghost invariant = { λ c. HasDigests c.rows c.digests };
}

impl Custodians {
    /// Reads the custodians that a text lists, one a line: a name of 1 to 32 of `a` to `z`, `0` to `9`, `-` and `_`, and 64
    /// hexadecimal digits of either case. A text that does not list `site` has a fault of line 0. The text has at most
    /// 4,294,967,294 bytes.
    pub fn read(alloc: Global, text: &str) -> Result<Custodians, ReadError<TableFault>>
        requires { IsReadable text.now }
        ensures { Reads result (spec.read_custodians text.now) }
    {
        let table = read_rows(alloc, text)?;
        if table.digest_of("site").is_none() {
            return Err(ReadError::Fault(LineFault {
                line: 0,
                rule: TableRule::Custodian,
            }));
        }
        Ok(table)
    }

    /// Finds the faults of a text of custodians: all its faulty lines, in order, each with the first rule that it breaks
    /// after the custodians that the earlier good lines list, and the place of the slice at fault; if no line is faulty
    /// and `site` is not listed, the fault of line 0. `read` reports the first of them.
    pub fn faults(alloc: Global, text: &str) -> Result<Sequence<PlacedFault>, AllocError>
        requires { IsReadable text.now }
        ensures faults { IfOk result (λ found. map (λ one. one.fault) found ≡ spec.custodian_faults text.now) }
        ensures placed { IfOk result (All (IsOnLineOrWhole text.now)) }
    {
        let lines = logical_lines(alloc, text)?;
        let mut digests = BTreeMap::new(alloc);
        let mut found = Sequence::new(alloc);
        for line in &lines {
            match ReadError::split(read_line(alloc, line, &digests))? {
                Ok(row) => add_digest(alloc, &mut digests, row)?,
                Err(rule) => found.push(make_fault(alloc, line, rule)?)?,
            }
        }
        let has_site = digests.contains_key("site");
        drop(digests);
        if found.is_empty() && !has_site {
            found.push(missing_site())?;
        }
        Ok(found)
    }

    /// Finds the digest of the key of the custodian of this name.
    pub fn digest_of(&self, name: &str) -> Option<&[u8; 32]>
        ensures { option_copied result ≡ spec.digest_of self.now name.now }
    {
        self.digests.get(name)
    }

    /// Lends the custodians, in the order of their lines.
    pub fn as_slice(&self) -> &[Custodian]
        ensures { result.now ≡ self.now }
    {
        self.rows.as_slice()
    }
}

/// Makes the fault of a table that does not list `site`.
fn missing_site() -> PlacedFault
    ensures fault { result.fault ≡ record { line = 0; rule = TableRule.Custodian } }
    ensures whole { result.place ≡ None }
{
    PlacedFault {
        fault: LineFault {
            line: 0,
            rule: TableRule::Custodian,
        },
        place: None,
    }
}

/// Adds the digest of one custodian more.
fn add_digest(
    alloc: Global,
    digests: &mut BTreeMap<String, [u8; 32]>,
    row: Custodian,
) -> Result<(), AllocError>
    ensures { OnOk result ((before : List Custodian) → HasDigests before digests.old → HasDigests (before ++ row ∷ []) digests.new) }
{
    add_first(alloc, digests, row.name.as_str(), row.digest)?;
    drop(row);
    Ok(())
}

/// Reads the custodian of each line, in order, or the first fault.
fn read_rows(alloc: Global, text: &str) -> Result<Custodians, ReadError<TableFault>>
    requires { IsReadable text.now }
    ensures { Reads result (lines_table spec.line_answer (logical_lines text.now)) }
{
    let lines = logical_lines(alloc, text)?;
    let mut rows = Sequence::new(alloc);
    let mut digests = BTreeMap::new(alloc);
    for line in &lines {
        let row = at_line(line.number(), read_line(alloc, line, &digests))?;
        add_first(alloc, &mut digests, row.name.as_str(), row.digest)?;
        rows.push(row)?;
    }
    Ok(Custodians { rows, digests })
}

/// Reads the custodian of a line, or the first rule that it breaks, if the custodians with these digests are listed
/// before.
fn read_line(
    alloc: Global,
    line: &Line,
    digests: &BTreeMap<String, [u8; 32]>,
) -> Result<Custodian, ReadError<TableRule>>
    ensures { (before : List Custodian) → HasDigests before digests.now → ReadsAs (λ row. Some row) result
        (spec.values_answer (map (λ row. row.name) before) (line_values line.now)) }
{
    let words = line_values(alloc, line)?;
    read_words(alloc, words.as_slice(), digests)
}

/// Reads the custodian of a line of these words, or the first rule that it breaks, if the custodians with these digests are
/// listed before.
fn read_words(
    alloc: Global,
    words: &[Text],
    digests: &BTreeMap<String, [u8; 32]>,
) -> Result<Custodian, ReadError<TableRule>>
    ensures { (before : List Custodian) → HasDigests before digests.now → ReadsAs (λ row. Some row) result
        (spec.values_answer (map (λ row. row.name) before) (Ok words.now)) }
{
    let [name, digest] = words else {
        return Err(ReadError::Fault(TableRule::Fields));
    };
    if !is_name(name.as_str()) {
        return Err(ReadError::Fault(TableRule::Name));
    }
    if digests.contains_key(name.as_str()) {
        return Err(ReadError::Fault(TableRule::Duplicate));
    }
    let Ok(digest) = <[u8; 32] as FromHex>::from_hex(digest.as_str()) else {
        return Err(ReadError::Fault(TableRule::Digest));
    };
    let name = Text::copy(alloc, name.as_str())?;
    Ok(Custodian { name, digest })
}

/// Tests whether a text is a custodian's name.
fn is_name(text: &str) -> bool
    ensures { result ≡ spec.is_custodian_name text.now }
{
    let bytes = text.as_bytes();
    1 <= bytes.len() && bytes.len() <= LONGEST_NAME && only_name_bytes(bytes)
}

/// Tests whether a name may have each of these bytes. (Split off for its proof.)
fn only_name_bytes(bytes: &[u8]) -> bool
    ensures { result ≡ list_all spec.is_name_byte bytes.now }
{
    bytes.iter().all(|byte| is_name_byte(*byte))
}

fn is_name_byte(byte: u8) -> bool
    ensures { result ≡ spec.is_name_byte byte }
{
    (b'a' <= byte && byte <= b'z') || (b'0' <= byte && byte <= b'9') || byte == b'-' || byte == b'_'
}
