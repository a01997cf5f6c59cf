//! What standard error says of the fault that a site would have with another text: the finding, as `check` prints it.

use crate::View;
use desk_check::tell_site_fault;
use desk_exports::Profile;
use desk_findings::{SiteSources, Source, WholeSources};
use desk_policy::{PerTable, SiteFault, SiteFile};
use desk_service::{Answer, ListedFiles, Looked, Question, answer};
use desk_store::Desk;
use sqlite::Alter;
use std::alloc::{AllocError, Global};

/// A text that a file of a desk would have.
#[derive(Clone, Copy)]
pub struct NewText<'a> {
    pub file: &'a str,
    pub text: &'a str,
}

/// Says the fault that the site of a desk has with a new text, by profile 2 if the text itself is at fault, and else by the profile of
/// the newest revision at fault.
pub fn edit_fault_note<S: Alter + Drop>(
    alloc: Global,
    desk: &Desk<S, View>,
    new: NewText<'_>,
    fault: &SiteFault,
) -> Result<String, AllocError> {
    match answer(alloc, desk, Question::Files, Looked::Nothing)? {
        Answer::Files(files) => {
            let profile = profile_of(&files, new, fault.file.as_str());
            fault_note(alloc, profile, &files, Some(new), fault)
        }
        other => {
            drop(other);
            Ok(String::new(alloc))
        }
    }
}

/// Says the fault that the site of these files has, by this profile, with a new text, if there is one.
pub fn fault_note(
    alloc: Global,
    profile: Profile,
    files: &ListedFiles<'_>,
    new: Option<NewText<'_>>,
    fault: &SiteFault,
) -> Result<String, AllocError> {
    let sources = sources_of(files, new, fault.file.as_str());
    tell_site_fault(alloc, profile, sources, fault)
}

/// Returns the profile by which a file is read in the site with a new text.
fn profile_of(files: &ListedFiles<'_>, new: NewText<'_>, file: &str) -> Profile {
    if new.file == file {
        return Profile::Two;
    }
    match files.newest(file) {
        Some(head) => head.profile,
        None => Profile::Two,
    }
}

/// Lends the texts of the site with a new text, and of the exports the file of this name.
fn sources_of<'a>(
    files: &ListedFiles<'a>,
    new: Option<NewText<'a>>,
    file: &'a str,
) -> SiteSources<'a> {
    SiteSources {
        custodians: source_of(files, new, SiteFile::Custodians.name()),
        filesystems: source_of(files, new, SiteFile::Filesystems.name()),
        whole: WholeSources {
            tables: PerTable {
                hosts: source_of(files, new, SiteFile::Hosts.name()),
                networks: source_of(files, new, SiteFile::Networks.name()),
                passwd: source_of(files, new, SiteFile::Passwd.name()),
                group: source_of(files, new, SiteFile::Group.name()),
                netgroup: source_of(files, new, SiteFile::Netgroup.name()),
            },
            exports: source_of(files, new, file),
        },
    }
}

/// Lends the text of a file: the new one, if it is of this file, or else that of its newest revision.
fn source_of<'a>(files: &ListedFiles<'a>, new: Option<NewText<'a>>, file: &'a str) -> Source<'a> {
    let text = match new {
        Some(new) if new.file == file => new.text,
        _ => match files.newest(file) {
            Some(head) => head.body.as_str(),
            None => "",
        },
    };
    Source {
        path: file,
        text,
        origins: &[],
    }
}
