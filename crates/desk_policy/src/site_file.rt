//! The names of a site's files: the seven that are not of one file system, and the exports file of each mount point.

ghost use Rattle.std.specs.Prelude.{◌≡◌, IfOk, MatchOption, string_bytes};
ghost use Rattle.std.specs.Option.{option_map};
ghost use Rattle.desk_policy.specs.SiteFile.{NamesNoMount, exports_file_name, exports_place, file_name, file_of, is_of_seven};

use desk_tables::{FileSystems, FsId};
use std::alloc::{AllocError, Global};

/// One of the seven files of a site that are not of one file system.
#[derive(Clone, Copy)]
pub enum SiteFile {
    Custodians,
    Filesystems,
    Hosts,
    Networks,
    Passwd,
    Group,
    Netgroup,
}

impl SiteFile {
    /// The seven files, in the order in which they are judged.
    pub const ALL: [SiteFile; 7] = [
        SiteFile::Custodians,
        SiteFile::Filesystems,
        SiteFile::Hosts,
        SiteFile::Networks,
        SiteFile::Passwd,
        SiteFile::Group,
        SiteFile::Netgroup,
    ];

    /// Returns the name of the file.
    pub fn name(self) -> &'static str
        ensures { result.now ≡ file_name self }
    {
        match self {
            SiteFile::Custodians => "custodians",
            SiteFile::Filesystems => "filesystems",
            SiteFile::Hosts => "hosts",
            SiteFile::Networks => "networks",
            SiteFile::Passwd => "passwd",
            SiteFile::Group => "group",
            SiteFile::Netgroup => "netgroup",
        }
    }

    /// Returns the file of this name, if it is one of the seven.
    pub fn of(name: &str) -> Option<SiteFile>
        ensures { result ≡ file_of name.now }
    {
        match name {
            "custodians" => Some(SiteFile::Custodians),
            "filesystems" => Some(SiteFile::Filesystems),
            "hosts" => Some(SiteFile::Hosts),
            "networks" => Some(SiteFile::Networks),
            "passwd" => Some(SiteFile::Passwd),
            "group" => Some(SiteFile::Group),
            "netgroup" => Some(SiteFile::Netgroup),
            _ => None,
        }
    }

    /// Tests whether this is the name of one of the seven files.
    pub fn is_name(name: &str) -> bool
        ensures { result ≡ is_of_seven name.now }
    {
        SiteFile::of(name).is_some()
    }
}

/// Writes the name of the exports file of a printed mount point: `exports:/usr`.
pub fn exports_file_name(alloc: Global, mount: &str) -> Result<String, AllocError>
    ensures { IfOk result (λ name. string_bytes name ≡ exports_file_name mount.now) }
{
    format!(in alloc; "exports:{mount}")
}

/// Returns what stands for the printed mount point in the name of an exports file: `/usr` of `exports:/usr`. Any other name
/// has none.
pub fn mount_of(name: &str) -> Option<&str>
    ensures { MatchOption result (NamesNoMount name.now) (λ mount. name.now ≡ exports_file_name mount.now) }
{
    name.strip_prefix("exports:")
}

/// Finds the file system whose exports file has this name.
pub fn exports_place(table: &FileSystems, name: &str) -> Option<FsId>
    ensures { result ≡ option_map (λ place. record { 0 = place }) (exports_place table.now name.now) }
{
    match mount_of(name) {
        Some(mount) => table.printed_as(mount),
        None => None,
    }
}
