//! What is found of each file system of a site.

ghost use Rattle.std.specs.Prelude.{◌≡◌, [], IfOk, List, map};
ghost use Rattle.desk_policy.specs.Policy.{Content};
ghost use Rattle.desk_impact.specs.Sections.{PlaceBreaches, section_value};
ghost use Rattle.page_data.specs.Classes.{AreClassesIn, AreClassesOfSite, class_run};
ghost use Rattle.page_data.specs.Laws.{IsSound, IsSoundSite};
ghost use Rattle.page_data.specs.PrivateSystems.{IsOwnOf};
ghost use Rattle.page_data.specs.Systems.{AreSystems, IsSystem, system_value};

use crate::class::Class;
use crate::classes::{classes_in, denied_to_all, most_of_both};
use crate::grants::{LineGrants, grants_of};
use crate::sections::{by_filesystem, sections_of_site};
use desk_impact::{Section, places_tell_scope};
use desk_policy::{Policy, PolicyView};
use desk_tables::FsId;
use desk_text::{Path, Sequence};
use desk_who::Run;
use std::alloc::{AllocError, Global};

/// What is found of a file system.
#[derive(Drop)]
pub struct FileSystemReport<'a> {
    /// Its places, the mount point first and its other directories last, with all verdicts at each.
    pub sections: Sequence<Section<'a>>,
    /// The most that clients may on it.
    pub classes: Sequence<Run<Class>>,
    /// To how many addresses each of its lines grants something, in the order of the lines.
    pub grants: Sequence<LineGrants>,
}

/// Finds what a report tells of each file system, in the order of their table, given the path `/`.
pub fn systems_of_site<'a, V: PolicyView>(
    alloc: Global,
    view: &'a V,
    root: &'a Path,
) -> Result<Vec<FileSystemReport<'a>>, AllocError>
    requires root { root.now ≡ [] }
    requires sound { IsSoundSite (V.in_force view.now) }
    ensures { IfOk result (λ systems. AreSystems (V.in_force view.now) (map system_value systems.items)) }
{
    let policy = view.policy();
    let sections = sections_of_site(alloc, view, root)?;
    let lists = by_filesystem(alloc, policy.filesystems(), sections)?;
    let mut systems = Vec::new(alloc);
    let mut number = 0;
    for sections in lists {
        systems.push(system_of(alloc, policy, FsId(number), sections)?)?;
        number += 1;
    }
    Ok(systems)
}

/// Lists the most that clients may on any file system.
pub fn classes_of_site(
    alloc: Global,
    systems: &[FileSystemReport<'_>],
) -> Result<Vec<Run<Class>>, AllocError>
    ensures { IfOk result (λ runs. (content : Content) → AreSystems content (map system_value systems.now) → AreClassesOfSite content (map class_run runs.items)) }
{
    let mut most = denied_to_all(alloc)?;
    for system in systems {
        most = most_of_both(alloc, system.classes.as_slice(), most.as_slice())?;
    }
    Ok(most)
}

/// Finds what a report tells of a file system, given the verdicts at its places.
fn system_of<'a>(
    alloc: Global,
    policy: &Policy,
    fs: FsId,
    sections: Sequence<Section<'a>>,
) -> Result<FileSystemReport<'a>, AllocError>
    requires { IsSound policy.now fs.0 }
    ensures { IfOk result (λ system. (all : List PlaceBreaches) → IsOwnOf policy.now fs.0 all (map section_value sections.entry)
        → IsSystem policy.now all fs.0 (system_value system)) }
{
    places_tell_scope();
    let classes = classes_by_first(alloc, policy, fs, sections.as_slice())?;
    let grants = grants_of(alloc, policy.rows(fs), sections.as_slice())?;
    Ok(FileSystemReport {
        sections,
        classes: Sequence::from_vec(classes),
        grants: Sequence::from_vec(grants),
    })
}

/// Lists the most that clients may on a file system, by the verdicts at the first of its places, its mount point.
fn classes_by_first(
    alloc: Global,
    policy: &Policy,
    fs: FsId,
    sections: &[Section<'_>],
) -> Result<Vec<Run<Class>>, AllocError>
    requires { IsSound policy.now fs.0 }
    ensures { IfOk result (λ runs. (all : List PlaceBreaches) → IsOwnOf policy.now fs.0 all (map section_value sections.now)
        → AreClassesIn policy.now fs.0 (map class_run runs.items)) }
{
    places_tell_scope();
    match sections.first() {
        Some(first) => classes_in(alloc, policy, fs, first.ranges.as_slice()),
        None => denied_to_all(alloc),
    }
}
