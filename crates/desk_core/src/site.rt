//! The site that the newest revisions write.

ghost use Rattle.std.specs.Prelude.{◌≡◌, ◌++◌, ℕ, List, IfOk, OnOk, codes, unwrap_or};
ghost use Rattle.std.specs.BTreeMap.{get_by_text};
ghost use Rattle.desk_policy.specs.PerSite.{with_file};
ghost use Rattle.desk_policy.specs.Site.{no_exports, texts_of};
ghost use Rattle.desk_core.specs.Foresight as foresight;
ghost use Rattle.desk_core.specs.Head.{newest_in};
ghost use Rattle.desk_core.specs.PrivateSite.{text_or, with_text};
ghost use Rattle.desk_core.specs.Site.{site_in, revision_text};

use crate::head::Head;
use desk_exports::Profile;
use desk_policy::{ExportsText, PerSite, Site, SiteFile, mount_of};
use desk_text::Text;
use std::alloc::{AllocError, Global};
use std::collections::BTreeMap;

/// Makes the site of the heads, if a file has this text, read by profile 2.
pub(crate) fn site_with(
    alloc: Global,
    heads: &[Head],
    file: &str,
    text: &str,
) -> Result<Site, AllocError>
    ensures { IfOk result (λ site. texts_of site ≡ site_in (foresight.with_text (newest_in heads.now) file.now text.now)) }
{
    let mut site = site_of(alloc, heads)?;
    take_text(alloc, &mut site, file, Profile::Two, text)?;
    Ok(site)
}

/// Makes the site of the heads. They are taken from the last one to the first, so that the first of a file counts.
pub(crate) fn site_of(alloc: Global, heads: &[Head]) -> Result<Site, AllocError>
    ensures { IfOk result (λ site. texts_of site ≡ site_in (newest_in heads.now)) }
{
    let mut site = Site::new(alloc);
    let mut left = heads.len();
    while left > 0 {
        left -= 1;
        take_head(alloc, &mut site, &heads[left])?;
    }
    Ok(site)
}

/// Puts the text of this head in the place of that of its file.
fn take_head(alloc: Global, site: &mut Site, head: &Head) -> Result<(), AllocError>
    ensures { OnOk result (texts_of site.new ≡ with_text (texts_of site.old) head.now.file (revision_text head.now)) }
{
    let file = head.file.as_str();
    let body = head.body.as_str();
    take_text(alloc, site, file, head.profile, body)
}

/// Puts a text in the place of that of its file. The text of a file of another name changes nothing.
fn take_text(
    alloc: Global,
    site: &mut Site,
    file: &str,
    profile: Profile,
    text: &str,
) -> Result<(), AllocError>
    ensures { OnOk result (texts_of site.new ≡ with_text (texts_of site.old) file.now (record { profile = profile; body = text.now })) }
{
    match SiteFile::of(file) {
        Some(own) => put_text(alloc, &mut site.files, own, text),
        None => put_exports(alloc, &mut site.exports, file, profile, text),
    }
}

/// Puts a text in the place of that of one of the seven files.
fn put_text(
    alloc: Global,
    files: &mut PerSite<Text>,
    file: SiteFile,
    text: &str,
) -> Result<(), AllocError>
    ensures { OnOk result (files.new ≡ with_file files.old file text.now) }
{
    files.set(file, Text::copy(alloc, text)?);
    Ok(())
}

/// Puts a text in the place of that of a mount point, if it is that of an exports file.
fn put_exports(
    alloc: Global,
    exports: &mut BTreeMap<String, ExportsText>,
    file: &str,
    profile: Profile,
    text: &str,
) -> Result<(), AllocError>
    ensures { OnOk result ((mount : List ℕ) → unwrap_or (get_by_text exports.new mount) no_exports
        ≡ text_or file.now (record { profile = profile; body = text.now }) (codes "exports:" ++ mount) (unwrap_or (get_by_text exports.old mount) no_exports)) }
{
    if let Some(mount) = mount_of(file) {
        let mount = String::from_str(alloc, mount)?;
        let body = Text::copy(alloc, text)?;
        exports.insert(mount, ExportsText { profile, body })?;
    }
    Ok(())
}
