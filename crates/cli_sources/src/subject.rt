//! What a command on texts is asked of: the file that its first word names, or the folder of `--site`.

ghost use Rattle.std.specs.Prelude.{◌≡◌, IfOk, codes, map};
ghost use Rattle.std.specs.Option.{option_copied, option_map};
ghost use Rattle.clap.specs.Words.{first_of};
ghost use Rattle.cli_words.specs.Words.{Finds, rows_in};
ghost use Rattle.cli_sources.specs.Subject as spec;
ghost use Rattle.cli_sources.specs.Subject.{IsSiteOf, ReadsSubject, ReadsSubjectBy, and_words, fault_of_files, folder_of, places_of, word_at};

use clap::ArgMatches;
use cli_files::site_folder::{SiteFiles, mounts_path, paths_of, zfs_exports_path};
use cli_output::failure::Failure;
use cli_words::words::{all_given, given, is_set, required, required_as};
use std::alloc::{AllocError, Global};

/// The names that the words of a command have in its usage.
#[derive(Clone, Copy)]
pub struct Places {
    /// The first word, which names a file.
    pub first: &'static str,
    /// The last of its words that is one word alone.
    pub last: &'static str,
    /// What a failure calls a word that is too many with `--site`.
    pub beside: &'static str,
}

/// The paths of the files in a folder: those of a site, that of its mount points, and that of its second exports file.
#[derive(Drop)]
pub struct SiteFolder {
    pub paths: SiteFiles,
    pub mounts: String,
    /// The second exports file, which is read with `--zfs`.
    pub zfs: String,
}

/// What a command is asked of.
#[derive(Drop)]
pub enum Subject<'a> {
    /// The file of this path.
    File(&'a str),
    Site(SiteFolder),
}

impl<'a> Subject<'a> {
    /// Lends the paths of a folder's files, if a folder is asked of.
    pub fn folder(&self) -> Option<&SiteFiles>
        ensures { option_copied result ≡ folder_of self.now }
    {
        match self {
            Subject::File(_) => None,
            Subject::Site(folder) => Some(&folder.paths),
        }
    }
}

/// How often `--and` may be given.
const MOST_FILES: usize = 8;

/// Finds what a command is asked of, if its exports files can be named so.
pub fn subject_of<'a>(
    alloc: Global,
    words: &ArgMatches<'a>,
    places: Places,
) -> Result<Subject<'a>, Failure>
    ensures { ReadsSubject (places_of places) (rows_in words.now) result }
{
    match fault_of_files(words) {
        Some(failure) => Err(failure),
        None => subject_by(alloc, words, places),
    }
}

/// Finds why exports files cannot be named so: there are too many, or that of ZFS is asked for without a folder.
fn fault_of_files(words: &ArgMatches<'_>) -> Option<Failure>
    ensures { result ≡ fault_of_files (rows_in words.now) }
{
    let count = and_files(words).len();
    if MOST_FILES < count {
        return Some(Failure::TooManyFiles(count));
    }
    if is_set(words, "zfs") && given(words, "site").is_none() {
        return Some(Failure::ZfsAlone);
    }
    None
}

/// The files of an option that is not given.
const NO_FILES: &[&str] = &[];

/// Returns the files of `--and`.
pub fn and_files<'w: 'a, 'a>(words: &'a ArgMatches<'w>) -> &'a [&'a str]
    ensures { map (λ word. word.now) result.now ≡ and_words (rows_in words.entry.now) }
{
    all_given(words, "and").unwrap_or(NO_FILES)
}

/// Finds what a command is asked of. With `--site` each word stands one place to the left, so that the last place is to be empty; and
/// there are no other mount points.
fn subject_by<'a>(
    alloc: Global,
    words: &ArgMatches<'a>,
    places: Places,
) -> Result<Subject<'a>, Failure>
    ensures { ReadsSubjectBy (first_of (codes "site") (rows_in words.now)) (places_of places) (rows_in words.now) result }
{
    match given(words, "site") {
        Some(folder) => match beside_site(words, places) {
            Some(name) => Err(Failure::BesideSite(name)),
            None => Ok(Subject::Site(site_of(alloc, folder)?)),
        },
        None => {
            let file = required(words, places.first)?;
            Ok(Subject::File(file))
        }
    }
}

/// Names what is given and cannot be given with `--site`.
fn beside_site(words: &ArgMatches<'_>, places: Places) -> Option<&'static str>
    ensures { option_map (λ name. name.now) result ≡ spec.beside_site (places_of places) (rows_in words.now) }
{
    if given(words, places.last).is_some() {
        return Some(places.beside);
    }
    if given(words, "mounts").is_some() {
        return Some("--mounts");
    }
    None
}

/// Makes the paths of the files in a folder.
fn site_of(alloc: Global, folder: &str) -> Result<SiteFolder, AllocError>
    ensures { IfOk result (IsSiteOf folder.now) }
{
    let paths = paths_of(alloc, folder)?;
    let mounts = mounts_path(alloc, folder)?;
    let zfs = zfs_exports_path(alloc, folder)?;
    Ok(SiteFolder { paths, mounts, zfs })
}

/// Returns the word of an argument, which stands at the place of the one before it if a folder is asked of.
pub fn word_of<'a>(
    words: &ArgMatches<'a>,
    subject: &Subject<'_>,
    before: &'static str,
    name: &'static str,
) -> Result<&'a str, Failure>
    ensures { Finds (λ word. word.now) name.entry.now (word_at subject.now before.entry.now name.entry.now (rows_in words.now)) result }
{
    match subject {
        Subject::File(_) => required_as(words, name, name),
        Subject::Site(_) => required_as(words, before, name),
    }
}
