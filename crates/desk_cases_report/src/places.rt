//! Questions on the places of a file system: the directories that its lines write, the mount point among them, and all others.

ghost use Rattle.std.specs.Prelude.{All, map};
ghost use Rattle.desk_impact.specs.Sections.{section_value};
ghost use Rattle.page_data.specs.Groups.{group_value};
ghost use Rattle.page_data.specs.Laws.{TellVerdicts};
ghost use Rattle.page_data.specs.Tables.{CanBeTabled};

use crate::classes::say;
use desk_cases_texts::answers::{Asked, end_list};
use desk_cases_texts::policies::say_verdict;
use desk_impact::{Place, Section};
use desk_policy::Policy;
use page_data::{Group, TableRow, classes_from, groups_can_be_tabled, groups_of, table_of};
use std::alloc::{AllocError, Global};

/// `places FS`: the places of the file system, with `|` between groups of those that are granted alike: `/a /a/b|other directories`.
pub fn groups(alloc: Global, out: &mut String, sections: Vec<Section<'_>>) -> Asked
    requires { TellVerdicts (map section_value sections.items) }
{
    let groups = groups_of(alloc, sections)?;
    for group in groups.as_slice() {
        add_group(out, group.sections.as_slice())?;
    }
    end_list(out)
}

/// Adds the places of a group, and `|` behind them.
fn add_group(out: &mut String, sections: &[Section<'_>]) -> Result<(), AllocError> {
    for section in sections {
        out.push_str(place_name(section.place))?;
        out.push(' ')?;
    }
    let _ = out.pop();
    out.push('|')
}

/// Returns how a place is written in questions and answers.
fn place_name<'a>(place: Place<'a>) -> &'a str {
    match place {
        Place::Directory(path) => path.text(),
        Place::Others(_) => "other directories",
    }
}

/// Finds the place that is written so.
fn section_at<'a, 'b>(sections: &'a [Section<'b>], text: &str) -> Option<&'a Section<'b>> {
    for section in sections {
        if place_name(section.place) == text {
            return Some(section);
        }
    }
    None
}

/// `table FS PLACE`: the table of the places that are granted as this one is: each verdict, with all ranges of addresses that have it, or
/// how many addresses everybody else has, and `|` between them: `granted line 2 ro sec=sys root=65534:65533 for
/// 10.0.0.0-10.0.0.255|denied 2 NoLine /a for 0.0.0.0-9.255.255.255 10.0.1.0-255.255.255.255`, `everybody else 4294967040 of 6 denials`.
pub fn table(
    alloc: Global,
    policy: &Policy,
    out: &mut String,
    sections: Vec<Section<'_>>,
    text: &str,
) -> Asked
    requires { TellVerdicts (map section_value sections.items) }
{
    groups_can_be_tabled();
    let groups = groups_of(alloc, sections)?;
    table_in(alloc, policy, out, groups.as_slice(), text)
}

/// Answers with the table of the group that has the place.
fn table_in(
    alloc: Global,
    policy: &Policy,
    out: &mut String,
    groups: &[Group<'_>],
    text: &str,
) -> Asked
    requires { All CanBeTabled (map group_value groups.now) }
{
    for group in groups {
        if section_at(group.sections.as_slice(), text).is_some() {
            return say_table(alloc, policy, out, group);
        }
    }
    Ok(false)
}

/// Answers with the table of a group.
fn say_table(alloc: Global, policy: &Policy, out: &mut String, group: &Group<'_>) -> Asked
    requires { CanBeTabled (group_value group.now) }
{
    let table = table_of(alloc, group)?;
    add_rows(alloc, policy, out, table.rows.as_slice())?;
    if table.denials > 0 {
        let (others, denials) = (table.others, table.denials);
        write!(out, "everybody else {others} of {denials} denials|")?;
    }
    end_list(out)
}

/// Adds the rows of a table, and `|` behind each.
fn add_rows(
    alloc: Global,
    policy: &Policy,
    out: &mut String,
    rows: &[TableRow<'_>],
) -> Result<(), AllocError> {
    for row in rows {
        add_row(alloc, policy, out, row)?;
    }
    Ok(())
}

fn add_row(
    alloc: Global,
    policy: &Policy,
    out: &mut String,
    row: &TableRow<'_>,
) -> Result<(), AllocError> {
    say_verdict(alloc, policy, out, &row.verdict)?;
    out.push_str(" for")?;
    for range in row.ranges.as_slice() {
        let (first, last) = (range.first, range.last);
        write!(out, " {first}-{last}")?;
    }
    out.push('|')
}

/// `place_classes FS PLACE`: what clients may at the place, by ranges of addresses as `classes` has them.
pub fn classes(alloc: Global, out: &mut String, sections: &[Section<'_>], text: &str) -> Asked {
    let Some(section) = section_at(sections, text) else {
        return Ok(false);
    };
    let found = classes_from(alloc, section.ranges.as_slice())?;
    say(out, found.as_slice())
}
