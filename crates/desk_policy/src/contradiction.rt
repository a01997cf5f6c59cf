//! Whether the lines of a policy contradict each other: two lines of a file system match one address with equal weight, and
//! have different terms.

ghost use Rattle.std.specs.Prelude.{◌≡◌, ◌++◌, All, IfOk, IsTrue, OnOk, slice_get};
ghost use Rattle.desk_policy.specs.Contradiction.{AreConsistent, AreContradictions, IsFoundIn};
ghost use Rattle.desk_policy.specs.Policy.{AreAscending};
ghost use Rattle.desk_policy.specs.PrivateFirstLines.{contradiction_of};

use crate::first_lines::{Clash, FirstLines};
use crate::row::Row;
use crate::terms::same_terms;
use desk_exports::Terms;
use desk_text::{Addr, Sequence};
use std::alloc::{AllocError, Global};

/// Two lines of a file system that contradict each other, the earlier one as `other`, and the least address at which they do.
#[derive(Clone, Copy)]
pub struct Contradiction {
    pub line: u32,
    pub other: u32,
    pub address: Addr,
}

/// Finds the least contradiction of the lines of a file system, by later line, earlier line and address. Unless all lines
/// have the same terms, each is compared with the first of the earlier ones under each of its keys.
pub fn contradiction_in(alloc: Global, rows: &[Row]) -> Result<Option<Contradiction>, AllocError>
    requires { AreAscending rows.now }
    ensures { IfOk result (IsFoundIn rows.now) }
{
    if have_same_terms(rows) {
        return Ok(None);
    }
    let mut firsts = FirstLines::new(alloc);
    for i in 0..rows.len() {
        let row = &rows[i];
        if let Some(clash) = firsts.add_line(&rows[..i], row)? {
            return Ok(Some(Contradiction {
                line: row.entry.line,
                other: clash.line,
                address: clash.address,
            }));
        }
    }
    Ok(None)
}

/// Tests whether all lines have the same terms, so that no two of them contradict each other.
fn have_same_terms(rows: &[Row]) -> bool
    ensures { IsTrue result → AreConsistent rows.now }
{
    match rows.first() {
        None => true,
        Some(first) => all_have_terms(rows, &first.entry.terms),
    }
}

/// Tests whether each line has these terms.
fn all_have_terms(rows: &[Row], terms: &Terms) -> bool
    ensures { IsTrue result → All (λ row. row.entry.terms ≡ terms.now) rows.now }
{
    rows.iter().all(|row| same_terms(&row.entry.terms, terms))
}

/// Lists the lines of a file system that contradict an earlier one: each that has other terms than the first line under one
/// of its keys, with the first such line, and the least address. The first of them is what `contradiction_in` finds.
pub fn contradictions(alloc: Global, rows: &[Row]) -> Result<Sequence<Contradiction>, AllocError>
    requires { AreAscending rows.now }
    ensures all { IfOk result (AreContradictions rows.now rows.now) }
    ensures least { IfOk result (λ found. IsFoundIn rows.now (slice_get found 0)) }
{
    let mut firsts = FirstLines::new(alloc);
    let mut found = Sequence::new(alloc);
    for place in 0..rows.len() {
        let row = &rows[place];
        let clash = firsts.add_line(&rows[..place], row)?;
        push_clash(&mut found, row.entry.line, clash)?;
    }
    Ok(found)
}

/// Adds the contradiction of the line with this number, if it clashes with an earlier one.
fn push_clash(
    found: &mut Sequence<Contradiction>,
    line: u32,
    clash: Option<Clash>,
) -> Result<(), AllocError>
    ensures { OnOk result (found.new ≡ found.old ++ contradiction_of line clash) }
{
    if let Some(clash) = clash {
        found.push(Contradiction {
            line,
            other: clash.line,
            address: clash.address,
        })?;
    }
    Ok(())
}
