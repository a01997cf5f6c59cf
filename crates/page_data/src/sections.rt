//! The verdicts at each place of a site.

ghost use Rattle.std.specs.Prelude.{◌≡◌, [], IfOk, OnOk, Some, filter, length, map, replicate};
ghost use Rattle.std.specs.List.{range_with_len};
ghost use Rattle.std.specs.Option.{option_map};
ghost use Rattle.desk_text.specs.Address.{number_of};
ghost use Rattle.desk_policy.specs.Verdict.{verdict_of, verdict_result};
ghost use Rattle.desk_impact.specs.Places.{place_of};
ghost use Rattle.desk_impact.specs.Sections.{section_value};
ghost use Rattle.page_data.specs.PrivateSections.{with_section};
ghost use Rattle.page_data.specs.Sections.{AreSections, is_section_in, path_at};

use desk_impact::{Place, Section, found_in};
use desk_policy::{Policy, PolicyView, Verdict};
use desk_tables::FileSystems;
use desk_text::{Addr, AddrSet, Path, Sequence};
use desk_who::{
    Search, runs_exist, runs_pass_tests, runs_with_value_are_unique, verdicts_are_discrete,
};
use std::alloc::{AllocError, Global};

/// The search for every verdict.
#[derive(Drop)]
struct Everything<'a, V> {
    view: &'a V,
    starts: AddrSet,
    ghost none: { starts ≡ [] },
}

impl<'a, V: PolicyView> Search<Verdict<'a>> for Everything<'a, V> {
    ghost in_force = { λ everything. V.in_force everything.view.now };

    ghost turns = { λ everything. everything.starts };

    ghost found = { λ everything address path value.
        option_map verdict_result value ≡ Some (verdict_of (V.in_force everything.view.now) (number_of address) path) };

    fn policy(&self) -> &Policy {
        self.view.policy()
    }

    fn starts(&self) -> &AddrSet {
        &self.starts
    }

    fn find(&self, address: Addr, path: &Path) -> Option<Verdict<'a>> {
        Some(self.view.decide(address, path))
    }

    fn may_find(&self, _address: Addr) -> bool {
        true
    }
}

/// Lists the places of all directories, given the path `/`, with all verdicts at each: by mount point in byte order itself, the
/// directories that lines write below it, and its other directories. If `/` is not a mount point, it comes before them.
pub fn sections_of_site<'a, V: PolicyView>(
    alloc: Global,
    view: &'a V,
    root: &'a Path,
) -> Result<Vec<Section<'a>>, AllocError>
    requires { root.now ≡ [] }
    ensures { IfOk result (λ sections. AreSections (V.in_force view.now) (map section_value sections.items)) }
{
    runs_exist::<Verdict<'a>>();
    runs_pass_tests::<Verdict<'a>>();
    runs_with_value_are_unique::<Verdict<'a>>();
    verdicts_are_discrete();
    let everything = Everything {
        view,
        starts: AddrSet::new(alloc),
    };
    found_in(alloc, view.policy(), &everything, root, true)
}

/// Puts sections by the file systems of their places, in the order of the table; those of no file system are left out.
pub fn by_filesystem<'a>(
    alloc: Global,
    table: &FileSystems,
    sections: Vec<Section<'a>>,
) -> Result<Vec<Sequence<Section<'a>>>, AllocError>
    ensures { IfOk result (λ lists. map (map section_value) lists.items
        ≡ map (λ fs. filter (is_section_in table.now fs) (map section_value sections.entry.items)) (range_with_len 0 (length table.now))) }
{
    let mut lists = empty_lists(alloc, table.len())?;
    for section in sections {
        add_section(&mut lists, table, section)?;
    }
    Ok(lists)
}

/// Makes so many empty lists.
fn empty_lists<'a>(alloc: Global, count: usize) -> Result<Vec<Sequence<Section<'a>>>, AllocError>
    ensures { IfOk result (λ lists. map (map section_value) lists.items ≡ replicate count []) }
{
    let mut lists: Vec<Sequence<Section<'a>>> = Vec::new(alloc);
    for _ in 0..count {
        lists.push(Sequence::new(alloc))?;
    }
    Ok(lists)
}

/// Adds a section to the list of its file system, if there is one.
fn add_section<'a>(
    lists: &mut Vec<Sequence<Section<'a>>>,
    table: &FileSystems,
    section: Section<'a>,
) -> Result<(), AllocError>
    ensures { OnOk result (map (map section_value) lists.new.items
        ≡ with_section table.now (map (map section_value) lists.old.items) (section_value section.entry)) }
{
    if let Some(fs) = table.of(path_at(section.place)) {
        if let Some(list) = lists.get_mut(fs.0 as usize) {
            list.push(section)?;
        }
    }
    Ok(())
}

/// Lends the path of a place: the directory, or the mount point of others.
pub fn path_at<'a>(place: Place<'a>) -> &'a Path
    ensures { result.now ≡ path_at (place_of place.entry) }
{
    match place {
        Place::Directory(path) => path,
        Place::Others(mount) => mount,
    }
}
