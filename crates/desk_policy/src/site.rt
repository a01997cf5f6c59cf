//! The texts of a site.

ghost use Rattle.std.specs.Prelude.{◌≡◌, Decides};
ghost use Rattle.std.specs.BTreeMap.{IsOrdered, values};
ghost use Rattle.std.specs.List.{list_all};
ghost use Rattle.std.specs.String.{string_cmp};
ghost use Rattle.desk_policy.specs.Site.{HaveLengthsWithin, HaveReadableLengths, no_texts, text_of, texts_of};
ghost use Rattle.desk_policy.specs.PrivateSite.{are_files_within, has_body_within, is_within};

use crate::per_site::PerSite;
use crate::site_file::SiteFile;
use desk_exports::Profile;
use desk_text::{LONGEST_TEXT, Text};
use std::alloc::Global;
use std::collections::BTreeMap;

/// The text of an exports file, and the profile by which it is read.
#[derive(Drop)]
pub struct ExportsText {
    pub profile: Profile,
    pub body: Text,
}

/// The texts of a site: seven files, and the exports file of each file system under its printed mount point, as `/usr`. A
/// file system without an exports file has an empty one, and one of a mount point that is not listed is not read.
#[derive(Drop)]
pub struct Site {
    pub files: PerSite<Text>,
    pub exports: BTreeMap<String, ExportsText>,
}

impl Site {
    /// Makes a site whose files are empty.
    pub fn new(alloc: Global) -> Site
        ensures { texts_of result ≡ no_texts }
    {
        Site {
            files: PerSite::empty(alloc),
            exports: BTreeMap::new(alloc),
        }
    }

    /// Tests whether each text can be read: whether it has at most 4,294,967,294 bytes.
    pub fn is_readable(&self) -> bool
        ensures { Decides result (HaveReadableLengths (texts_of self.now)) }
    {
        self.has_lengths_within(LONGEST_TEXT)
    }

    /// Tests whether each text has at most so many bytes.
    pub fn has_lengths_within(&self, limit: usize) -> bool
        ensures { Decides result (HaveLengthsWithin limit (texts_of self.now)) }
    {
        are_files_within(&self.files, limit) && are_exports_within(&self.exports, limit)
    }

    /// Returns the text of one of the seven files.
    pub fn text(&self, file: SiteFile) -> &str
        ensures { result.now ≡ text_of (texts_of self.now) file }
    {
        self.files.of(file).as_str()
    }

    /// Returns the text of the exports file of a printed mount point, which is empty if the site has none.
    pub fn exports_text(&self, mount: &str) -> &str
        ensures { result.now ≡ ((texts_of self.now).exports mount.now).body }
    {
        match self.exports.get(mount) {
            Some(text) => text.body.as_str(),
            None => "",
        }
    }

    /// Returns the profile by which the exports file of a printed mount point is read: profile 2 if the site has none.
    pub fn exports_profile(&self, mount: &str) -> Profile
        ensures { result ≡ ((texts_of self.now).exports mount.now).profile }
    {
        match self.exports.get(mount) {
            Some(text) => text.profile,
            None => Profile::Two,
        }
    }
}

/// Tests whether each of the seven files has at most so many bytes.
fn are_files_within(files: &PerSite<Text>, limit: usize) -> bool
    ensures { result ≡ are_files_within limit files.now }
{
    SiteFile::ALL
        .iter()
        .all(|file| is_within(files.of(*file), limit))
}

/// Tests whether each exports file has at most so many bytes.
fn are_exports_within(exports: &BTreeMap<String, ExportsText>, limit: usize) -> bool
    ensures each { result ≡ list_all (has_body_within limit) (values exports.now) }
    ensures ordered { IsOrdered string_cmp exports.now }
{
    exports.values().all(|text| has_body_within(text, limit))
}

/// Tests whether the text of an exports file has at most so many bytes.
fn has_body_within(text: &ExportsText, limit: usize) -> bool
    ensures { result ≡ has_body_within limit text.now }
{
    is_within(&text.body, limit)
}

/// Tests whether a text has at most so many bytes.
fn is_within(text: &Text, limit: usize) -> bool
    ensures { result ≡ is_within limit text.now }
{
    text.as_str().len() <= limit
}
