//! The folder of a site's files: their paths, their texts, and both as the checker takes them.

ghost use Rattle.std.specs.Prelude.{◌≡◌, ◌≤◌, ◌++◌, [], IfOk, Some, codes, length};
ghost use Rattle.std.specs.Result.{result_map_both};
ghost use Rattle.std.specs.String.{string_bytes};
ghost use Rattle.desk_policy.specs.SiteFile.{file_name};
ghost use Rattle.cli_files.specs.Files.{Leaves, ReadsIfGiven};
ghost use Rattle.cli_files.specs.FolderSystems.{LeavesBehind, ReadsSystemsText, systems_at};
ghost use Rattle.cli_files.specs.SiteFolder.{AreShortFiles, ReadsSite, needs_no_slash, path_in, site_list, site_paths, site_paths_in, site_texts_in};

use crate::files::read_if_given;
use crate::folder_systems::{SystemsFiles, read_systems_text};
use cli_output::failure::Failure;
use desk_findings::{SiteSources, Source, WholeSources};
use desk_policy::{PerTable, SiteFile};
use std::alloc::{AllocError, Global};
use std::io::BufRead;

/// What stands for each of a site's files: its path, or its text.
#[derive(Drop)]
pub struct SiteFiles {
    pub custodians: String,
    pub filesystems: String,
    pub hosts: String,
    pub networks: String,
    pub passwd: String,
    pub group: String,
    pub netgroup: String,
    pub exports: String,
}

/// Lends the texts with their paths.
pub fn sources_of<'a>(paths: &'a SiteFiles, texts: &'a SiteFiles) -> SiteSources<'a>
    ensures paths { site_paths_in result ≡ site_list paths.now }
    ensures texts { site_texts_in result ≡ site_list texts.now }
{
    SiteSources {
        custodians: source_of(&paths.custodians, &texts.custodians),
        filesystems: source_of(&paths.filesystems, &texts.filesystems),
        whole: WholeSources {
            tables: PerTable {
                hosts: source_of(&paths.hosts, &texts.hosts),
                networks: source_of(&paths.networks, &texts.networks),
                passwd: source_of(&paths.passwd, &texts.passwd),
                group: source_of(&paths.group, &texts.group),
                netgroup: source_of(&paths.netgroup, &texts.netgroup),
            },
            exports: source_of(&paths.exports, &texts.exports),
        },
    }
}

/// Lends a text with its path.
fn source_of<'a>(path: &'a String, text: &'a String) -> Source<'a>
    ensures path { result.path.now ≡ string_bytes path.now }
    ensures text { result.text.now ≡ string_bytes text.now }
    ensures origins { result.origins.now ≡ [] }
{
    Source {
        path: path.as_str(),
        text: text.as_str(),
        origins: &[],
    }
}

/// Makes the paths of the files in a folder.
pub fn paths_of(alloc: Global, folder: &str) -> Result<SiteFiles, AllocError>
    ensures { IfOk result (λ paths. site_list paths ≡ site_paths folder.now) }
{
    Ok(SiteFiles {
        custodians: path_of(alloc, folder, SiteFile::Custodians)?,
        filesystems: path_of(alloc, folder, SiteFile::Filesystems)?,
        hosts: path_of(alloc, folder, SiteFile::Hosts)?,
        networks: path_of(alloc, folder, SiteFile::Networks)?,
        passwd: path_of(alloc, folder, SiteFile::Passwd)?,
        group: path_of(alloc, folder, SiteFile::Group)?,
        netgroup: path_of(alloc, folder, SiteFile::Netgroup)?,
        exports: path_in(alloc, folder, "exports")?,
    })
}

/// Makes the path of one of the seven files in a folder.
fn path_of(alloc: Global, folder: &str, file: SiteFile) -> Result<String, AllocError>
    ensures { IfOk result (λ path. string_bytes path ≡ path_in folder.now (file_name file)) }
{
    path_in(alloc, folder, file.name())
}

/// Makes the path of a file in a folder; the empty path is the current folder.
fn path_in(alloc: Global, folder: &str, name: &str) -> Result<String, AllocError>
    ensures { IfOk result (λ path. string_bytes path ≡ path_in folder.now name.now) }
{
    if needs_no_slash(folder) {
        format!(in alloc; "{folder}{name}")
    } else {
        with_slash(alloc, folder, name)
    }
}

/// Joins two texts by a slash. (Split off for its proof.)
fn with_slash(alloc: Global, folder: &str, name: &str) -> Result<String, AllocError>
    ensures { IfOk result (λ path. string_bytes path ≡ folder.now ++ codes "/" ++ name.now) }
{
    format!(in alloc; "{folder}/{name}")
}

/// Tests whether a name may follow the path of a folder as it is: if that ends with a slash or is empty.
fn needs_no_slash(folder: &str) -> bool
    ensures { result ≡ needs_no_slash folder.now }
{
    match folder.as_bytes().last() {
        Some(byte) => *byte == b'/',
        None => true,
    }
}

/// Makes the path of the file of mount points in a folder.
pub fn mounts_path(alloc: Global, folder: &str) -> Result<String, AllocError>
    ensures { IfOk result (λ path. string_bytes path ≡ path_in folder.now (codes "mounts")) }
{
    path_in(alloc, folder, "mounts")
}

/// Makes the path of the second exports file in a folder, which holds the lines of ZFS.
pub fn zfs_exports_path(alloc: Global, folder: &str) -> Result<String, AllocError>
    ensures { IfOk result (λ path. string_bytes path ≡ path_in folder.now (codes "zfs/exports")) }
{
    path_in(alloc, folder, "zfs/exports")
}

/// Reads the files of these paths. If there is no file of file systems, its text is that of the mount points in the file `mounts`,
/// which `site` keeps.
pub fn read_texts<I: BufRead>(
    rt: &HostRuntime,
    argument: &'static str,
    paths: &SiteFiles,
    mounts: &str,
    input: &mut I,
) -> Result<SiteFiles, Failure>
    ensures texts { ReadsSite argument.now (site_list paths.now) mounts.now (I.remaining input.old) (result_map_both site_list (λ failure. failure) result) }
    ensures short { IfOk result AreShortFiles }
{
    let custodians = read_file(rt, argument, &paths.custodians, input)?;
    let filesystems = read_filesystems(rt, argument, paths, mounts, input)?;
    let hosts = read_file(rt, argument, &paths.hosts, input)?;
    let networks = read_file(rt, argument, &paths.networks, input)?;
    let passwd = read_file(rt, argument, &paths.passwd, input)?;
    let group = read_file(rt, argument, &paths.group, input)?;
    let netgroup = read_file(rt, argument, &paths.netgroup, input)?;
    let exports = read_file(rt, argument, &paths.exports, input)?;
    Ok(SiteFiles {
        custodians,
        filesystems,
        hosts,
        networks,
        passwd,
        group,
        netgroup,
        exports,
    })
}

/// Reads the text of the file systems of these paths.
fn read_filesystems<I: BufRead>(
    rt: &HostRuntime,
    argument: &'static str,
    paths: &SiteFiles,
    mounts: &str,
    input: &mut I,
) -> Result<String, Failure>
    ensures text { ReadsSystemsText argument.now (systems_at (string_bytes paths.now.filesystems) mounts.now) (result_map_both string_bytes (λ failure. failure) result) }
    ensures short { IfOk result (λ text. length (string_bytes text) ≤ 16777216) }
    ensures left { LeavesBehind (systems_at (string_bytes paths.now.filesystems) mounts.now) (I.remaining input.old) (I.remaining input.new) }
{
    let files = SystemsFiles {
        filesystems: paths.filesystems.as_str(),
        mounts,
    };
    read_systems_text(rt, argument, files, input)
}

/// Reads the file of this path.
fn read_file<I: BufRead>(
    rt: &HostRuntime,
    argument: &'static str,
    path: &String,
    input: &mut I,
) -> Result<String, Failure>
    ensures text { ReadsIfGiven argument.now (Some (string_bytes path.now)) (I.remaining input.old) result }
    ensures short { IfOk result (λ text. length (string_bytes text) ≤ 16777216) }
    ensures left { Leaves (Some (string_bytes path.now)) (I.remaining input.old) (I.remaining input.new) }
{
    read_if_given(rt, argument, Some(path.as_str()), input)
}
