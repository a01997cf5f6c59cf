//! The texts of a site's files, as the newest revisions have them, and as `init` reads them.

ghost use Rattle.std.specs.Prelude.{◌≡◌, IfOk, OnOk, map};
ghost use Rattle.std.specs.Option.{option_map};
ghost use Rattle.std.specs.String.{string_bytes};
ghost use Rattle.desk_core.specs.Head.{newest_in};
ghost use Rattle.desk_core.specs.Site.{text_in};
ghost use Rattle.desk_split.specs.Joining.{joined, stored_file};
ghost use Rattle.desk_policy.specs.SiteFile.{file_name};
ghost use Rattle.cli_files.specs.SiteFolder.{site_list};
ghost use Rattle.cli_write.specs.PrivateTexts.{with_found};
ghost use Rattle.cli_write.specs.TextsBack as spec;

use cli_files::site_folder::SiteFiles;
use desk_core::Head;
use desk_policy::{SiteFile, exports_file_name};
use desk_service::ListedFiles;
use desk_split::{ExportsFile, join};
use desk_tables::Mount;
use std::alloc::{AllocError, Global};

/// Makes the texts: the newest of each of the seven files, empty if it has none, and the exports files of the listed file
/// systems, joined.
pub(crate) fn texts_back(alloc: Global, listed: &ListedFiles<'_>) -> Result<SiteFiles, AllocError>
    ensures { IfOk result (λ texts. site_list texts ≡ spec.texts_back listed.now.filesystems.now (newest_in listed.now.heads.now)) }
{
    Ok(SiteFiles {
        custodians: newest_text(alloc, listed, SiteFile::Custodians)?,
        filesystems: newest_text(alloc, listed, SiteFile::Filesystems)?,
        hosts: newest_text(alloc, listed, SiteFile::Hosts)?,
        networks: newest_text(alloc, listed, SiteFile::Networks)?,
        passwd: newest_text(alloc, listed, SiteFile::Passwd)?,
        group: newest_text(alloc, listed, SiteFile::Group)?,
        netgroup: newest_text(alloc, listed, SiteFile::Netgroup)?,
        exports: joined_exports(alloc, listed)?,
    })
}

/// Copies the newest text of one of the seven files, empty if it has none.
fn newest_text(
    alloc: Global,
    listed: &ListedFiles<'_>,
    file: SiteFile,
) -> Result<String, AllocError>
    ensures { IfOk result (λ text. string_bytes text ≡ (text_in (newest_in listed.now.heads.now) (file_name file)).body) }
{
    let text = String::from_str(alloc, body_of(listed, file.name()))?;
    Ok(text)
}

/// Lends the newest text of a file, empty if it has none.
fn body_of<'a>(listed: &ListedFiles<'a>, name: &str) -> &'a str
    ensures { result.now ≡ (text_in (newest_in listed.now.heads.now) name.now).body }
{
    match listed.newest(name) {
        Some(head) => head.body.as_str(),
        None => "",
    }
}

/// Joins the newest exports files of the listed file systems.
fn joined_exports(alloc: Global, listed: &ListedFiles<'_>) -> Result<String, AllocError>
    ensures { IfOk result (λ text. string_bytes text ≡ joined (spec.exports_among listed.now.filesystems.now (newest_in listed.now.heads.now))) }
{
    let files = exports_among(alloc, listed, listed.filesystems.as_slice())?;
    let text = join(alloc, files.as_slice())?;
    Ok(text)
}

/// Finds the newest exports file of each of these file systems that has one, by mount point.
fn exports_among<'a>(
    alloc: Global,
    listed: &ListedFiles<'a>,
    mounts: &[Mount],
) -> Result<Vec<ExportsFile<'a>>, AllocError>
    ensures { IfOk result (λ files. map stored_file files.items ≡ spec.exports_among mounts.now (newest_in listed.now.heads.now)) }
{
    let mut files = Vec::new(alloc);
    for mount in mounts {
        let found = newest_exports(alloc, listed, mount.path.text())?;
        push_found(found, &mut files)?;
    }
    Ok(files)
}

/// Adds a file, if one was found.
fn push_found<'a>(
    found: Option<ExportsFile<'a>>,
    files: &mut Vec<ExportsFile<'a>>,
) -> Result<(), AllocError>
    ensures { OnOk result (map stored_file files.new.items ≡ with_found (map stored_file files.old.items) (option_map stored_file found.entry)) }
{
    match found {
        Some(file) => {
            files.push(file)?;
            Ok(())
        }
        None => Ok(()),
    }
}

/// Finds the newest exports file of a printed mount point.
fn newest_exports<'a>(
    alloc: Global,
    listed: &ListedFiles<'a>,
    mount: &str,
) -> Result<Option<ExportsFile<'a>>, AllocError>
    ensures { IfOk result (λ file. option_map stored_file file ≡ spec.stored_exports (newest_in listed.now.heads.now) mount.now) }
{
    let name = exports_file_name(alloc, mount)?;
    Ok(newest_file(listed, name.as_str()))
}

/// Finds the newest revision of a file, as an exports file.
fn newest_file<'a>(listed: &ListedFiles<'a>, name: &str) -> Option<ExportsFile<'a>>
    ensures { option_map stored_file result ≡ option_map spec.exports_file (newest_in listed.now.heads.now name.now) }
{
    match listed.newest(name) {
        Some(head) => Some(exports_file(head)),
        None => None,
    }
}

/// Returns a revision, as an exports file.
fn exports_file(head: &Head) -> ExportsFile<'_>
    ensures { stored_file result ≡ spec.exports_file head.now }
{
    ExportsFile {
        name: head.file.as_str(),
        rev: head.rev,
        author: head.author.as_str(),
        text: head.body.as_str(),
    }
}
