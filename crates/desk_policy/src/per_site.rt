//! The seven files of a site that are not of one file system.

ghost use Rattle.std.specs.Prelude.{◌≡◌, [], IfOk};
ghost use Rattle.desk_policy.specs.PerSite.{by_file, of_file, with_file};

use crate::per_table::PerTable;
use crate::site_file::SiteFile;
use desk_text::Text;
use std::alloc::{AllocError, Global};

/// What there is for each of these files, in the order in which they are judged.
#[derive(Clone, Copy, Drop)]
pub struct PerSite<T> {
    pub custodians: T,
    pub filesystems: T,
    pub tables: PerTable<T>,
}

impl<T> PerSite<T> {
    /// Lends what there is for one of the files.
    pub fn of(&self, file: SiteFile) -> &T
        ensures { result.now ≡ of_file self.now file }
    {
        match file {
            SiteFile::Custodians => &self.custodians,
            SiteFile::Filesystems => &self.filesystems,
            SiteFile::Hosts => &self.tables.hosts,
            SiteFile::Networks => &self.tables.networks,
            SiteFile::Passwd => &self.tables.passwd,
            SiteFile::Group => &self.tables.group,
            SiteFile::Netgroup => &self.tables.netgroup,
        }
    }
}

impl<T: Drop> PerSite<T> {
    /// Puts another value in the place of that of one of the files.
    pub fn set(&mut self, file: SiteFile, value: T)
        ensures { self.new ≡ with_file self.old file value }
    {
        match file {
            SiteFile::Custodians => self.custodians = value,
            SiteFile::Filesystems => self.filesystems = value,
            SiteFile::Hosts => self.tables.hosts = value,
            SiteFile::Networks => self.tables.networks = value,
            SiteFile::Passwd => self.tables.passwd = value,
            SiteFile::Group => self.tables.group = value,
            SiteFile::Netgroup => self.tables.netgroup = value,
        }
    }
}

impl PerSite<Text> {
    /// Copies the texts of the files.
    pub fn copy(alloc: Global, texts: PerSite<&str>) -> Result<PerSite<Text>, AllocError>
        ensures { IfOk result (λ files. files ≡ by_file (λ file. (of_file texts.entry file).now)) }
    {
        Ok(PerSite {
            custodians: Text::copy(alloc, texts.custodians)?,
            filesystems: Text::copy(alloc, texts.filesystems)?,
            tables: PerTable::copy(alloc, texts.tables)?,
        })
    }

    /// Makes the texts of files that are empty.
    pub fn empty(alloc: Global) -> PerSite<Text>
        ensures { result ≡ by_file (λ file. []) }
    {
        PerSite {
            custodians: Text::from_string(String::new(alloc)),
            filesystems: Text::from_string(String::new(alloc)),
            tables: PerTable {
                hosts: Text::from_string(String::new(alloc)),
                networks: Text::from_string(String::new(alloc)),
                passwd: Text::from_string(String::new(alloc)),
                group: Text::from_string(String::new(alloc)),
                netgroup: Text::from_string(String::new(alloc)),
            },
        }
    }
}
