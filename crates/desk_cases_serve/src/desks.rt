//! The desk that is served: its site, and what it holds.

use desk_exports::Profile;
use desk_policy::{ExportsText, PolicyView, Site};
use desk_store::Desk;
use desk_text::Text;
use sqlite::Alter;
use std::alloc::{AllocError, Global};
use std::collections::BTreeMap;

/// A custodian whose key is abc.
const CUSTODIANS: &str = "site ba7816bf8f01cfea414140de5dae2223b00361a396177a9cb410ff61f20015ad\n";

const NAMES: [&str; 8] = [
    "custodians",
    "filesystems",
    "hosts",
    "networks",
    "passwd",
    "group",
    "netgroup",
    "exports:/usr",
];

/// What a desk holds as it is made, as `tell` tells it.
pub const AS_MADE: &str =
    "custodians 1\nfilesystems 1\nhosts 1\nnetworks 1\npasswd 1\ngroup 1\nnetgroup 1\nexports:/usr 1\n\
    1 site: 131.104.48.17 grumpy\n";

/// What it holds once its hosts file was edited.
pub const EDITED: &str =
    "custodians 1\nfilesystems 1\nhosts 2\nnetworks 1\npasswd 1\ngroup 1\nnetgroup 1\nexports:/usr 1\n\
    1 site: 131.104.48.17 grumpy\n\
    2 site: 127.0.0.1 localhost\n";

/// Returns the texts of the site.
pub fn site(alloc: Global) -> Result<Site, AllocError> {
    let mut exports = BTreeMap::new(alloc);
    exports.insert(
        String::from_str(alloc, "/usr")?,
        ExportsText {
            profile: Profile::Two,
            body: Text::copy(alloc, "/usr -ro\n")?,
        },
    )?;
    let mut site = Site::new(alloc);
    site.exports = exports;
    let files = &mut site.files;
    files.custodians = Text::copy(alloc, CUSTODIANS)?;
    files.filesystems = Text::copy(alloc, "/usr site\n")?;
    files.tables.hosts = Text::copy(alloc, "131.104.48.17 grumpy\n")?;
    Ok(site)
}

/// Tells the number of the newest revision of each file, and then each revision of the hosts file: its number, its author and its
/// text.
pub fn tell<S: Alter + Drop, V: PolicyView + Drop>(
    alloc: Global,
    desk: &mut Desk<S, V>,
) -> Result<String, AllocError> {
    let mut found = String::new(alloc);
    for name in NAMES {
        let rev = newest_number(desk, name);
        write!(found, "{name} {rev}\n")?;
    }
    tell_hosts(alloc, desk, &mut found)?;
    Ok(found)
}

/// Returns the number of a file's newest revision, or 0.
fn newest_number<S: Alter + Drop, V: PolicyView + Drop>(desk: &Desk<S, V>, name: &str) -> u32 {
    match desk.newest(name) {
        Some(head) => head.rev,
        None => 0,
    }
}

/// Tells each revision of the hosts file.
fn tell_hosts<S: Alter + Drop, V: PolicyView + Drop>(
    alloc: Global,
    desk: &mut Desk<S, V>,
    found: &mut String,
) -> Result<(), AllocError> {
    let Ok(revisions) = desk.revisions(alloc, "hosts") else {
        return found.push_str("a list was refused");
    };
    for (rev, author) in revisions.as_slice() {
        let author = author.as_str();
        write!(found, "{rev} {author}: ")?;
        tell_text(alloc, desk, *rev, found)?;
    }
    Ok(())
}

/// Tells the text of a revision of the hosts file.
fn tell_text<S: Alter + Drop, V: PolicyView + Drop>(
    alloc: Global,
    desk: &mut Desk<S, V>,
    rev: u32,
    found: &mut String,
) -> Result<(), AllocError> {
    match desk.revision(alloc, "hosts", rev) {
        Ok(Some(revision)) => found.push_str(revision.body.as_str()),
        Ok(None) => found.push_str("no revision"),
        Err(_) => found.push_str("a look was refused"),
    }
}

/// Tests whether a revision of a file has this text.
pub fn has_text<S: Alter + Drop, V: PolicyView + Drop>(
    alloc: Global,
    desk: &mut Desk<S, V>,
    file: &str,
    rev: u32,
    text: &str,
) -> bool {
    match desk.revision(alloc, file, rev) {
        Ok(Some(revision)) => revision.body.as_str() == text,
        Ok(None) => false,
        Err(_) => false,
    }
}
