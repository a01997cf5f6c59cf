//! What the addresses of networks may, on each file system.

ghost use Rattle.std.specs.Prelude.{◌≡◌, ◌++◌, IfOk, OnOk, map};
ghost use Rattle.desk_policy.specs.Policy.{Content};
ghost use Rattle.page_data.specs.Classes.{AreClassesIn, class_run};
ghost use Rattle.page_data.specs.Laws.{IsSoundSite};
ghost use Rattle.page_data.specs.Systems.{AreSystems, system_value};
ghost use Rattle.page_data.specs.Values.{AreRunsOfSome};
ghost use Rattle.page_maps.specs.NetworkRows as spec;
ghost use Rattle.page_maps.specs.NetworkRows.{AreCountsOfSite, AreNetworkRows, IsCountedIn, IsNetworkRow};

use crate::drawing::size_of;
use desk_policy::Policy;
use desk_tables::FsId;
use desk_text::{Net, Sequence};
use page_data::{Class, Counts, FileSystemReport, counts_within};
use std::alloc::{AllocError, Global};

/// A file system, and what all addresses of a network may there.
#[derive(Clone, Copy)]
pub struct SystemClass {
    pub fs: FsId,
    pub class: Class,
}

/// A file system, and how many addresses of a network may what there.
#[derive(Clone, Copy)]
pub struct SystemCounts {
    pub fs: FsId,
    pub counts: Counts,
}

/// What the addresses of a network may, in the order of the file systems.
#[derive(Drop)]
pub struct NetworkRow {
    pub network: Net,
    /// The file systems on which all of them may the same.
    pub alike: Sequence<SystemClass>,
    /// Those on which some of them may something, and not all of them the same.
    pub parts: Sequence<SystemCounts>,
}

/// Finds what the addresses of each of some networks may, given what is found of each file system.
pub fn network_rows(
    alloc: Global,
    policy: &Policy,
    systems: &[FileSystemReport<'_>],
    networks: &[Net],
) -> Result<Vec<NetworkRow>, AllocError>
    requires sound { IsSoundSite policy.now }
    requires systems { AreSystems policy.now (map system_value systems.now) }
    ensures { IfOk result (λ rows. AreNetworkRows policy.now networks.now rows.items) }
{
    let mut rows = Vec::new(alloc);
    for network in networks {
        rows.push(row_of(alloc, policy, systems, *network)?)?;
    }
    Ok(rows)
}

/// Finds what the addresses of a network may.
fn row_of(
    alloc: Global,
    policy: &Policy,
    systems: &[FileSystemReport<'_>],
    network: Net,
) -> Result<NetworkRow, AllocError>
    requires sound { IsSoundSite policy.now }
    requires systems { AreSystems policy.now (map system_value systems.now) }
    ensures { IfOk result (λ row. IsNetworkRow policy.now network row) }
{
    let counted = counts_of(alloc, policy, systems, network)?;
    let alike = alike_of(alloc, network, counted.as_slice())?;
    let parts = parts_of(alloc, network, counted.as_slice())?;
    Ok(NetworkRow {
        network,
        alike: Sequence::from_vec(alike),
        parts: Sequence::from_vec(parts),
    })
}

/// Counts the addresses of a network by what they may, on each file system.
fn counts_of(
    alloc: Global,
    policy: &Policy,
    systems: &[FileSystemReport<'_>],
    network: Net,
) -> Result<Vec<SystemCounts>, AllocError>
    requires sound { IsSoundSite policy.now }
    requires systems { AreSystems policy.now (map system_value systems.now) }
    ensures { IfOk result (λ counted. AreCountsOfSite policy.now network counted.items) }
{
    let mut counted = Vec::new(alloc);
    for place in 0..policy.filesystems().len() {
        counted.push(counts_on(FsId(place as u32), &systems[place], network))?;
    }
    Ok(counted)
}

/// Counts them on a file system.
fn counts_on(fs: FsId, system: &FileSystemReport<'_>, network: Net) -> SystemCounts
    requires { AreRunsOfSome (map class_run system.now.classes) }
    ensures { (content : Content) → AreClassesIn content fs.0 (map class_run system.now.classes) → IsCountedIn content network fs.0 result }
{
    SystemCounts {
        fs,
        counts: counts_within(system.classes.as_slice(), network.first(), network.last()),
    }
}

/// Lists the file systems on which all addresses of a network have one class, and are not denied.
fn alike_of(
    alloc: Global,
    network: Net,
    counted: &[SystemCounts],
) -> Result<Vec<SystemClass>, AllocError>
    ensures { IfOk result (λ alike. alike.items ≡ spec.alike_of network counted.now) }
{
    let size = size_of(network);
    let mut alike = Vec::new(alloc);
    for one in counted {
        push_alike(&mut alike, size, one)?;
    }
    Ok(alike)
}

/// Adds a file system, if all of so many addresses have one class there, and are not denied.
fn push_alike(alike: &mut Vec<SystemClass>, size: u64, one: &SystemCounts) -> Result<(), AllocError>
    ensures { OnOk result (alike.new.items ≡ alike.old.items ++ spec.alike_on size one.now) }
{
    if let Some(class) = class_of_all(size, &one.counts) {
        alike.push(SystemClass { fs: one.fs, class })?;
    }
    Ok(())
}

/// Finds the class that all of so many addresses have, if they have one, and are not all denied.
fn class_of_all(size: u64, counts: &Counts) -> Option<Class>
    ensures { result ≡ spec.class_of_all size counts.now }
{
    if counts.root_kept == size {
        Some(Class::RootKept)
    } else if counts.read_write == size {
        Some(Class::ReadWrite)
    } else if counts.read_only == size {
        Some(Class::ReadOnly)
    } else {
        None
    }
}

/// Lists the file systems on which some addresses of a network may something, and not all the same.
fn parts_of(
    alloc: Global,
    network: Net,
    counted: &[SystemCounts],
) -> Result<Vec<SystemCounts>, AllocError>
    ensures { IfOk result (λ parts. parts.items ≡ spec.parts_of network counted.now) }
{
    let size = size_of(network);
    let mut parts = Vec::from_slice(alloc, counted)?;
    parts.retain(|one| is_part(size, one));
    Ok(parts)
}

/// Tests whether some of so many addresses may something on a file system, and not all the same.
fn is_part(size: u64, one: &SystemCounts) -> bool
    ensures { result ≡ spec.is_part size one.now }
{
    grants_some(&one.counts) && is_mixed(class_of_all(size, &one.counts))
}

/// Tests whether some address is granted something.
fn grants_some(counts: &Counts) -> bool
    ensures { result ≡ spec.grants_some counts.now }
{
    !(counts.read_only == 0 && counts.read_write == 0 && counts.root_kept == 0)
}

/// Tests whether there is no class that all have.
fn is_mixed(class: Option<Class>) -> bool
    ensures { result ≡ spec.is_mixed class }
{
    match class {
        None => true,
        Some(_) => false,
    }
}
