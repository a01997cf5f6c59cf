//! What another policy would change, told place by place.

ghost use Rattle.std.specs.Prelude.{◌≡◌, ◌<◌, ◌++◌, IfOk, OnOk, if◌then◌else◌, length, map};
ghost use Rattle.std.specs.String.{string_bytes};
ghost use Rattle.desk_policy.specs.Policy.{with_lines_of};
ghost use Rattle.desk_impact.specs.Impact.{IsImpact, change_value};
ghost use Rattle.desk_impact.specs.Places.{place_of, place_verdicts};
ghost use Rattle.desk_impact.specs.PrivateReport.{IsReportOf, IsTold};
ghost use Rattle.desk_impact.specs.Report as spec;
ghost use Rattle.desk_impact.specs.Report.{IsReport};

use crate::change_prints::impact_text;
use crate::changes::{Change, those_that_matter};
use crate::laws::same_sayings_are_no_change;
use crate::place_changes::changes_at;
use crate::places::{Place, places_of_both, places_of_proposed, places_of_system, taken_paths};
use crate::writings::writings_of_both;
use desk_policy::{Policy, PolicyView};
use desk_tables::FsId;
use std::alloc::{AllocError, Global};

/// What another policy would change: the printed text, and how many of the changes matter to a client.
#[derive(Drop)]
pub struct Report {
    pub text: String,
    pub mattering: u128,
}

/// Tells what would change if another policy were in force: for each place its changes below a heading, unless there are
/// none; and in a last line how many there are. Those that matter to no client are counted alone, unless all are to be told.
pub fn impact_report<V: PolicyView>(
    alloc: Global,
    before: &V,
    after: &V,
    all: bool,
) -> Result<Report, AllocError>
    ensures { IfOk result (IsReport (V.in_force before.now) (V.in_force after.now) all) }
{
    let places = places_of_both(alloc, before.policy(), after.policy())?;
    report_of(alloc, before, after, places.as_slice(), all)
}

/// Tells what would change if a file system had the lines that it has in another policy, which has the same file systems; what
/// other lines that one has does not count. It is the report that `impact_report` gives of the two whole policies, but only the
/// places of that file system are asked, since nothing changes elsewhere.
pub fn lines_report<V: PolicyView>(
    alloc: Global,
    before: &V,
    lines: &V,
    fs: FsId,
    all: bool,
) -> Result<Report, AllocError>
    requires fs { fs.0 < length (V.in_force before.now).table }
    requires table { (V.in_force lines.now).table ≡ (V.in_force before.now).table }
    ensures { IfOk result (IsReport (V.in_force before.now) (with_lines_of (V.in_force before.now) fs.0 (V.in_force lines.now)) all) }
{
    // Verdicts that say the same are no change, and a policy has one list of lines for each file system.
    same_sayings_are_no_change();
    let policy = before.policy();
    let _rows = policy.rows_by_filesystem();
    let places = places_of_proposed(alloc, policy, lines.policy().rows(fs))?;
    let own = places_of_system(alloc, policy.filesystems(), fs, places.as_slice())?;
    report_of(alloc, before, lines, own.as_slice(), all)
}

/// Tells what would change at these places if another policy were in force.
fn report_of<V: PolicyView>(
    alloc: Global,
    before: &V,
    after: &V,
    places: &[Place<'_>],
    all: bool,
) -> Result<Report, AllocError>
    ensures { IfOk result (IsReportOf (V.in_force before.now) (V.in_force after.now) (map place_of places.now) all) }
{
    let taken = taken_paths(alloc, before.policy(), after.policy())?;
    let writings = writings_of_both(alloc, before.policy(), after.policy())?;
    let mut known = Vec::new(alloc);
    let mut text = String::new(alloc);
    let mut mattering: u128 = 0;
    let mut others: u128 = 0;
    for place in places {
        let changes = changes_at(
            alloc,
            before,
            after,
            taken.as_slice(),
            writings.as_slice(),
            *place,
            &mut known,
        )?;
        let told = tell_place(
            alloc,
            before,
            after,
            *place,
            changes.as_slice(),
            all,
            &mut text,
        )?;
        mattering += told.mattering as u128;
        others += told.others as u128;
    }
    push_last_line(&mut text, mattering, others)?;
    Ok(Report { text, mattering })
}

/// How many changes of a place matter to a client, and how many others there are.
#[derive(Clone, Copy)]
struct Told {
    mattering: usize,
    others: usize,
}

/// Tells the changes of a place.
fn tell_place<V: PolicyView>(
    alloc: Global,
    before: &V,
    after: &V,
    place: Place<'_>,
    changes: &[Change<'_>],
    all: bool,
    text: &mut String,
) -> Result<Told, AllocError>
    requires { let old = V.in_force before.now in let new = V.in_force after.now in
        IsImpact old new (place_verdicts old new (place_of place)) (map change_value changes.now) }
    ensures { IfOk result (IsTold (V.in_force before.now) (V.in_force after.now) (place_of place.entry) all (string_bytes text.old) (string_bytes text.new)) }
{
    let mattering = those_that_matter(alloc, changes)?;
    push_section(
        alloc,
        before.policy(),
        after.policy(),
        place,
        listed(all, &*changes, mattering.as_slice()),
        text,
    )?;
    Ok(Told {
        mattering: mattering.len(),
        others: changes.len() - mattering.len(),
    })
}

/// Chooses what is listed of a place: all changes, or those that matter.
fn listed<'a, 'b>(
    all: bool,
    changes: &'b [Change<'a>],
    mattering: &'b [Change<'a>],
) -> &'b [Change<'a>]
    ensures { result.now ≡ (if all then changes.now else mattering.now) }
{
    if all { changes } else { mattering }
}

/// Writes changes of a place below its heading, if there are some.
fn push_section(
    alloc: Global,
    before: &Policy,
    after: &Policy,
    place: Place<'_>,
    changes: &[Change<'_>],
    text: &mut String,
) -> Result<(), AllocError>
    ensures { OnOk result (string_bytes text.new
        ≡ string_bytes text.old ++ spec.section_of before.now after.now (place_of place.entry) (map change_value changes.now)) }
{
    if changes.is_empty() {
        return Ok(());
    }
    push_heading(place, text)?;
    let lines = impact_text(alloc, before, after, changes)?;
    text.push_str(lines.as_str())?;
    Ok(())
}

/// Writes the line above what is told of a place.
pub fn push_heading(place: Place<'_>, text: &mut String) -> Result<(), AllocError>
    ensures { OnOk result (string_bytes text.new ≡ string_bytes text.old ++ spec.heading (place_of place.entry)) }
{
    match place {
        Place::Directory(path) => {
            let path = path.text();
            write!(text, "== {path}\n")
        }
        Place::Others(mount) => {
            let mount = mount.text();
            write!(text, "== other directories of {mount}\n")
        }
    }
}

/// Writes how many changes there are that matter, and how many others.
fn push_last_line(text: &mut String, mattering: u128, others: u128) -> Result<(), AllocError>
    ensures { OnOk result (string_bytes text.new ≡ string_bytes text.old ++ spec.last_line mattering others) }
{
    push_count(text, mattering)?;
    push_rest(text, others)?;
    text.push_str("\n")
}

/// Writes how many changes there are that matter.
fn push_count(text: &mut String, count: u128) -> Result<(), AllocError>
    ensures { OnOk result (string_bytes text.new ≡ string_bytes text.old ++ spec.count_text count) }
{
    if count == 1 {
        return write!(text, "{count} change");
    }
    write!(text, "{count} changes")
}

/// Writes how many changes there are that do not, if there are any.
fn push_rest(text: &mut String, count: u128) -> Result<(), AllocError>
    ensures { OnOk result (string_bytes text.new ≡ string_bytes text.old ++ spec.rest_text count) }
{
    if count == 0 {
        return Ok(());
    }
    write!(text, ", {count} of lines or reasons alone")
}
