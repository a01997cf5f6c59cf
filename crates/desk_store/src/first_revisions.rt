//! The first revisions of a site's files, and the state that they put in force.

ghost use Rattle.std.specs.Prelude.{◌≡◌, ◌∷◌, ◌++◌, [], All, IfErr, IfOk, None, false, true, OnOk, Some, map, unwrap_or};
ghost use Rattle.std.specs.Option.{option_copied};
ghost use Rattle.std.specs.Result.{result_unwrap_or};
ghost use Rattle.desk_text.specs.Lines.{IsReadable};
ghost use Rattle.desk_text.specs.Path.{path_text};
ghost use Rattle.desk_tables.specs.FileSystemsText.{read_filesystems};
ghost use Rattle.desk_policy.specs.Site.{texts_of};
ghost use Rattle.desk_policy.specs.SiteFault.{exports_name};
ghost use Rattle.desk_policy.specs.declared.site_fault.SiteFault.{SiteFault};
ghost use Rattle.desk_policy.specs.SiteFile.{is_of_seven};
ghost use Rattle.desk_core.specs.Head.{CanBeKept, newest_in};
ghost use Rattle.desk_core.specs.Judging.{seven};
ghost use Rattle.desk_store.specs.Create.{IsFaultOfSeven, IsFaultOrMemory, IsFirstState, IsSevenOrMemory, IsUtf8Revision, RefusesSite, TellsTooLarge, first_long, first_long_exports, first_long_mount, first_revision, revisions_with, is_long, mounts_of, revision_of_mount, revision_of_seven};
ghost use Rattle.desk_core.specs.Site.{IsConsistent, site_in};
ghost use Rattle.desk_store.specs.declared.error.CreateError.TheVariants as refused;

use crate::error::CreateError;
use desk_core::{Head, LONGEST_REVISION, State};
use desk_exports::Profile;
use desk_policy::{PolicyView, Site, SiteFault, SiteFile, exports_file_name};
use desk_tables::laws::{mount_points_read_back, tables_are_in_order};
use desk_tables::{FileSystems, Mount};
use desk_text::{Path, ReadError, Text};
use std::alloc::{AllocError, Global};

/// Tests whether a text is longer than a revision's may be.
fn is_long(text: &str) -> bool
    ensures { result ≡ is_long text.now }
{
    text.len() > LONGEST_REVISION
}

/// Finds the first of the seven files whose text is too long, in the order in which they are read.
fn first_long(site: &Site) -> Option<&'static str>
    ensures { option_copied result ≡ first_long (texts_of site.now) }
{
    if is_long(site.files.custodians.as_str()) {
        Some("custodians")
    } else if is_long(site.files.filesystems.as_str()) {
        Some("filesystems")
    } else if is_long(site.files.tables.hosts.as_str()) {
        Some("hosts")
    } else if is_long(site.files.tables.networks.as_str()) {
        Some("networks")
    } else if is_long(site.files.tables.passwd.as_str()) {
        Some("passwd")
    } else if is_long(site.files.tables.group.as_str()) {
        Some("group")
    } else if is_long(site.files.tables.netgroup.as_str()) {
        Some("netgroup")
    } else {
        None
    }
}

/// Finds the first of these mount points whose exports text is too long.
fn first_long_mount<'a>(site: &Site, mounts: &'a [Mount]) -> Option<&'a Mount>
    ensures { option_copied result ≡ first_long_mount (texts_of site.now) mounts.now }
{
    mounts
        .iter()
        .find(|mount| is_long(site.exports_text(mount.path.text())))
}

/// Makes revision 1 of a file, by `site`. It is read by profile 2, whatever profile the site has it with.
fn first_revision(alloc: Global, file: &str, text: &str) -> Result<Head, AllocError>
    ensures made { IfOk result (λ head. head ≡ first_revision file.now text.now) }
    ensures utf8 { IfOk result IsUtf8Revision }
{
    Ok(Head {
        file: Text::copy(alloc, file)?,
        rev: 1,
        author: Text::copy(alloc, "site")?,
        approver: None,
        profile: Profile::Two,
        body: Text::copy(alloc, text)?,
    })
}

/// Makes revision 1 of the exports file of a mount point.
fn revision_of_mount(alloc: Global, site: &Site, mount: &Mount) -> Result<Head, AllocError>
    ensures made { IfOk result (λ head. head ≡ revision_of_mount (texts_of site.now) mount.now) }
    ensures utf8 { IfOk result IsUtf8Revision }
{
    let name = exports_file_name(alloc, mount.path.text())?;
    first_revision(alloc, name.as_str(), site.exports_text(mount.path.text()))
}

/// Adds revision 1 of a file.
fn add_first(alloc: Global, heads: &mut Vec<Head>, file: &str, text: &str) -> Result<(), AllocError>
    ensures made { OnOk result (heads.new.items ≡ heads.old.items ++ first_revision file.now text.now ∷ []) }
    ensures utf8 { OnOk result (All IsUtf8Revision heads.old.items → All IsUtf8Revision heads.new.items) }
{
    let head = first_revision(alloc, file, text)?;
    heads.push(head)?;
    Ok(())
}

/// Makes revision 1 of each of the seven files.
fn revisions_of_seven(alloc: Global, site: &Site) -> Result<Vec<Head>, AllocError>
    ensures made { IfOk result (λ heads. heads.items ≡ map (revision_of_seven (texts_of site.now)) seven) }
    ensures utf8 { IfOk result (λ heads. All IsUtf8Revision heads.items) }
{
    let files = &site.files;
    let tables = &files.tables;
    let mut heads: Vec<Head> = Vec::new(alloc);
    add_first(alloc, &mut heads, "custodians", files.custodians.as_str())?;
    add_first(alloc, &mut heads, "filesystems", files.filesystems.as_str())?;
    add_first(alloc, &mut heads, "hosts", tables.hosts.as_str())?;
    add_first(alloc, &mut heads, "networks", tables.networks.as_str())?;
    add_first(alloc, &mut heads, "passwd", tables.passwd.as_str())?;
    add_first(alloc, &mut heads, "group", tables.group.as_str())?;
    add_first(alloc, &mut heads, "netgroup", tables.netgroup.as_str())?;
    Ok(heads)
}

/// Makes revision 1 of the seven files and of the exports files of these mount points.
fn first_heads(alloc: Global, site: &Site, mounts: &[Mount]) -> Result<Vec<Head>, AllocError>
    ensures made { IfOk result (λ heads. heads.items ≡ revisions_with (texts_of site.now) mounts.now) }
    ensures utf8 { IfOk result (λ heads. All IsUtf8Revision heads.items) }
{
    let mut heads = revisions_of_seven(alloc, site)?;
    for mount in mounts {
        let head = revision_of_mount(alloc, site, mount)?;
        heads.push(head)?;
    }
    Ok(heads)
}

/// Reads the file systems of a site; none if their text has a fault.
fn read_table(alloc: Global, site: &Site) -> Result<Option<FileSystems>, CreateError>
    requires { IsReadable (texts_of site.now).files.filesystems }
    ensures table { IfOk result (λ table. unwrap_or table [] ≡ mounts_of (texts_of site.now)) }
    ensures errors { IfErr result (λ e. e ≡ refused.Memory) }
{
    match FileSystems::read(alloc, site.files.filesystems.as_str()) {
        Ok(table) => Ok(Some(table)),
        Err(ReadError::Fault(_)) => Ok(None),
        Err(ReadError::Memory) => Err(CreateError::Memory),
    }
}

/// Lends the mount points of a table.
fn mounts_in(table: &Option<FileSystems>) -> &[Mount]
    ensures { result.now ≡ unwrap_or table.now [] }
{
    match table {
        Some(table) => table.as_slice(),
        None => &[],
    }
}

/// Makes the state of first revisions, without a proposal, or gives the fault of their site.
fn state_of_heads<V: PolicyView + Drop>(
    alloc: Global,
    heads: Vec<Head>,
) -> Result<State<V>, CreateError>
    requires { All CanBeKept heads.items }
    ensures made { IfOk result (λ state. state.heads ≡ heads.items) }
    ensures proposals { IfOk result (λ state. state.proposals ≡ []) }
    ensures consistent { IfOk result (λ state. IsConsistent (site_in (newest_in heads.items))) }
    ensures errors { IfErr result (IsFaultOrMemory (site_in (newest_in heads.items))) }
{
    match State::from_heads(alloc, heads, Vec::new(alloc)) {
        Ok(state) => Ok(state),
        Err(ReadError::Fault(fault)) => Err(CreateError::Fault(fault)),
        Err(ReadError::Memory) => Err(CreateError::Memory),
    }
}

/// Tells that the text of a file is too long.
fn too_large(alloc: Global, file: &str) -> CreateError
    ensures { TellsTooLarge file.now result }
{
    match Text::copy(alloc, file) {
        Ok(file) => CreateError::TooLarge(file),
        Err(_) => CreateError::Memory,
    }
}

/// Tells that the exports text of a mount point is too long.
fn too_large_exports(alloc: Global, mount: &Path) -> CreateError
    ensures { TellsTooLarge (exports_name mount.now) result }
{
    match exports_file_name(alloc, mount.text()) {
        Ok(name) => CreateError::TooLarge(Text::from_string(name)),
        Err(_) => CreateError::Memory,
    }
}

/// Finds the fault of one of the seven files, if there is one. (The exports texts are not read.)
fn fault_of_seven<V: PolicyView + Drop>(alloc: Global, site: &Site) -> Result<(), CreateError>
    requires { first_long (texts_of site.now) ≡ None }
    ensures none { OnOk result ((fault : SiteFault) → IsFaultOfSeven (texts_of site.now) fault → ⊥) }
    ensures errors { IfErr result (IsSevenOrMemory (texts_of site.now)) }
{
    let Ok(heads) = revisions_of_seven(alloc, site) else {
        return Err(CreateError::Memory);
    };
    let state: Result<State<V>, ReadError<SiteFault>> = State::from_heads(
        alloc,
        heads,
        Vec::new(alloc),
    );
    match state {
        Ok(_) => Ok(()),
        Err(ReadError::Fault(fault)) => if_seven(fault),
        Err(ReadError::Memory) => Err(CreateError::Memory),
    }
}

/// Refuses a fault that is one of the seven files.
fn if_seven(fault: SiteFault) -> Result<(), CreateError>
    ensures seven { IfErr result (λ e. (e ≡ refused.Fault fault) × (is_of_seven fault.file ≡ true)) }
    ensures other { OnOk result (is_of_seven fault.file ≡ false) }
{
    if SiteFile::is_name(fault.file.as_str()) {
        Err(CreateError::Fault(fault))
    } else {
        Ok(())
    }
}

/// Refuses a site of which an exports text is too long: for the fault of one of the seven files if there is one, and else for
/// that text.
fn refuse_exports<V: PolicyView + Drop>(alloc: Global, site: &Site, mount: &Path) -> CreateError
    requires short { first_long (texts_of site.now) ≡ None }
    requires long { first_long_exports (texts_of site.now) ≡ Some (exports_name mount.now) }
    ensures { RefusesSite (texts_of site.now) result }
{
    match fault_of_seven::<V>(alloc, site) {
        Ok(()) => too_large_exports(alloc, mount),
        Err(e) => e,
    }
}

/// Makes the state of the first revisions of a site of which no text is too long, with the mount points that it lists.
fn state_of_short_texts<V: PolicyView + Drop>(
    alloc: Global,
    site: &Site,
    mounts: &[Mount],
) -> Result<State<V>, CreateError>
    requires listed { mounts.now ≡ mounts_of (texts_of site.now) }
    requires short { first_long (texts_of site.now) ≡ None }
    requires exports { first_long_mount (texts_of site.now) (mounts_of (texts_of site.now)) ≡ None }
    ensures made { IfOk result (λ state. IsFirstState (texts_of site.now) state.heads) }
    ensures proposals { IfOk result (λ state. state.proposals ≡ []) }
    ensures refused { IfErr result (RefusesSite (texts_of site.now)) }
{
    tables_are_in_order();
    mount_points_read_back();
    let Ok(heads) = first_heads(alloc, site, mounts) else {
        return Err(CreateError::Memory);
    };
    state_of_heads(alloc, heads)
}

/// Makes the state of the first revisions of a site, or tells what the site is refused for.
pub(crate) fn first_state<V: PolicyView + Drop>(
    alloc: Global,
    site: &Site,
) -> Result<State<V>, CreateError>
    ensures made { IfOk result (λ state. IsFirstState (texts_of site.now) state.heads) }
    ensures proposals { IfOk result (λ state. state.proposals ≡ []) }
    ensures refused { IfErr result (RefusesSite (texts_of site.now)) }
{
    if let Some(file) = first_long(site) {
        return Err(too_large(alloc, file));
    }
    let table = read_table(alloc, site)?;
    let mounts = mounts_in(&table);
    match first_long_mount(site, mounts) {
        Some(mount) => Err(refuse_exports::<V>(alloc, site, &mount.path)),
        None => state_of_short_texts(alloc, site, mounts),
    }
}
