//! The lines of a file system that never decide, with those that decide in their place.

ghost use Rattle.std.specs.Prelude.{◌≡◌, [], IfOk, OnOk, find, map, slice_get, slice_index_or};
ghost use Rattle.desk_policy.specs.Policy.{AreAscending, rows_of};
ghost use Rattle.desk_impact.specs.Sections.{section_value};
ghost use Rattle.page_data.specs.Lines.{AreLineReasons};
ghost use Rattle.page_findings.specs.Deciding as spec;
ghost use Rattle.page_findings.specs.Deciding.{AreDecidedFor, AreInLineOrder, AreSectionsOf, deciding_of, deciding_value};
ghost use Rattle.page_findings.specs.PrivateDeciding.{AddsLine, AllInOrder, Ascend, if_line, is_line};

use crate::lists::Lists;
use desk_impact::{Section, places_tell_scope};
use desk_policy::{Policy, Row};
use desk_tables::FsId;
use desk_text::Sequence;
use desk_text::laws::covers_between_first_and_last;
use page_data::{LineReasons, Reason};
use std::alloc::{AllocError, Global};

/// A line that never decides, and the place of the list of those that do for its clients.
#[derive(Clone, Copy)]
pub struct NeverDecides {
    pub line: u32,
    pub list: usize,
}

/// The lines of a file system that never decide, in their order, and the lists of those that decide in their place. Lines for the same
/// clients share a list.
#[derive(Drop)]
pub struct Deciding {
    pub lines: Sequence<NeverDecides>,
    pub lists: Sequence<Sequence<u32>>,
}

impl Deciding {
    /// Lends the lines that decide for the clients of a line that never does, by a binary search; of any other line there are none.
    pub fn of_line(&self, line: u32) -> &[u32]
        requires { AreInLineOrder (deciding_value self.now) }
        ensures { result.now ≡ deciding_of line (deciding_value self.now) }
    {
        match line_among(self.lines.as_slice(), line) {
            Some(one) => lend_list(self.lists.as_slice(), one.list),
            None => &[],
        }
    }
}

/// Lists, for each line of a file system that never decides, those that decide for its clients, given all verdicts at the places of the
/// file system, and why each of its lines stands out.
pub fn deciding_lines(
    alloc: Global,
    policy: &Policy,
    fs: FsId,
    sections: &[Section<'_>],
    reasons: &[LineReasons<'_>],
) -> Result<Deciding, AllocError>
    requires sections { AreSectionsOf policy.now fs.0 (map section_value sections.now) }
    requires reasons { AreLineReasons policy.now fs.0 reasons.now }
    requires ascending { AreAscending (rows_of policy.now fs.0) }
    ensures { IfOk result (λ found. AreDecidedFor policy.now fs.0 reasons.now (deciding_value found)) }
{
    places_tell_scope();
    covers_between_first_and_last();
    let rows = policy.rows(fs);
    let mut lists = Lists::new(alloc);
    let mut lines = Vec::new(alloc);
    for place in 0..rows.len() {
        let row = &rows[place];
        add_line(
            alloc,
            sections,
            row,
            &reasons[place],
            &mut lists,
            &mut lines,
        )?;
    }
    Ok(Deciding {
        lines: Sequence::from_vec(lines),
        lists: lists.into_lists(),
    })
}

/// Adds a line, if it never decides.
fn add_line<'a>(
    alloc: Global,
    sections: &[Section<'_>],
    row: &'a Row,
    reasons: &LineReasons<'_>,
    lists: &mut Lists<'a>,
    lines: &mut Vec<NeverDecides>,
) -> Result<(), AllocError>
    requires { AllInOrder (map section_value sections.now) }
    ensures { OnOk result (AddsLine (map section_value sections.now) row.now reasons.now lists.old lists.new lines.old.items lines.new.items) }
{
    if !never_decides(reasons.reasons.as_slice()) {
        return Ok(());
    }
    let list = lists.place_for_clients(alloc, sections, row)?;
    lines.push(NeverDecides {
        line: reasons.line,
        list,
    })?;
    Ok(())
}

/// Tests whether the first of these reasons is that the line never decides: behind it stands at most what the server does otherwise.
fn never_decides(reasons: &[Reason<'_>]) -> bool
    ensures { result ≡ spec.never_decides reasons.now }
{
    match reasons.first() {
        Some(Reason::NeverDecides) => true,
        _ => false,
    }
}

/// Finds a line among these, which ascend.
fn line_among(lines: &[NeverDecides], line: u32) -> Option<NeverDecides>
    requires { Ascend lines.now }
    ensures { result ≡ find (is_line line) lines.now }
{
    let place = lines.partition_point(|one| one.line < line);
    line_at(lines, place, line)
}

/// Gives the line at a place, if it is this one.
fn line_at(lines: &[NeverDecides], place: usize, line: u32) -> Option<NeverDecides>
    ensures { result ≡ if_line line (slice_get lines.now place) }
{
    match lines.get(place) {
        Some(one) if one.line == line => Some(*one),
        _ => None,
    }
}

/// Lends the list at a place.
fn lend_list(lists: &[Sequence<u32>], place: usize) -> &[u32]
    ensures { result.now ≡ slice_index_or lists.now place [] }
{
    match lists.get(place) {
        Some(list) => list.as_slice(),
        None => &[],
    }
}
