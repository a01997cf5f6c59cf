//! Files in a folder that get new texts. Each is replaced at once: its text is written to a new file beside it, which is synced
//! and then takes its name. So whoever opens it finds the old text or the new one, whole.

ghost use Rattle.std.specs.Prelude.{◌≡◌, ◌++◌, IfErr, MatchResult, OnOk, map};
ghost use Rattle.std.specs.Io.KnownBytes.{Appends};
ghost use Rattle.std.specs.String.{string_bytes};
ghost use Rattle.cli_write.specs.Replacing.{IsUnwritten, IsUnwrittenIn, MayTell, TellsWritten, name_in, path_in, written_line};

use cli_output::failure::Failure;
use std::alloc::{AllocError, Global};
use std::fs::{File, Metadata, OpenOptions};
use std::io::{Read, Write};
use std::os::unix::fs::{MetadataExt, OpenOptionsExt, fchown};
use std::time::{SystemTime, UNIX_EPOCH};
use std::{fs, io};

/// A file that gets a text: its name, its path, and the text.
#[derive(Clone, Copy)]
pub(crate) struct NewText<'a> {
    pub name: &'a str,
    pub path: &'a str,
    pub text: &'a str,
}

/// What stands at the path of a file.
#[derive(Drop)]
enum Found {
    /// A file that has the bytes of the text.
    Same,
    /// A file with other bytes.
    Other(Metadata),
    Nothing,
}

/// Replaces in turn each file whose bytes are not those of its text, or that is not there, and tells their names in lines. If one
/// cannot be written, those before it have been replaced, and those behind it stay as they are.
pub(crate) fn replace_files(rt: &HostRuntime, files: &[NewText<'_>]) -> Result<String, Failure>
    ensures { MatchResult result (λ told. TellsWritten (map name_in files.now) (string_bytes told)) (IsUnwrittenIn (map path_in files.now)) }
{
    let mut told = String::new(rt.alloc());
    for file in files {
        replace_told(rt, file, &mut told)?;
    }
    Ok(told)
}

/// Replaces a file unless its bytes are those of its text, and tells it if it did.
fn replace_told(rt: &HostRuntime, file: &NewText<'_>, told: &mut String) -> Result<(), Failure>
    ensures told { OnOk result (MayTell (name_in file.now) (string_bytes told.old) (string_bytes told.new)) }
    ensures failure { IfErr result (IsUnwritten (path_in file.now)) }
{
    if replace_other(rt, file)? {
        push_written(file.name, told)?;
    }
    Ok(())
}

/// Writes the line of a file that was replaced.
fn push_written(name: &str, told: &mut String) -> Result<(), AllocError>
    ensures { OnOk result (string_bytes told.new ≡ string_bytes told.old ++ written_line name.now) }
{
    write!(told, "written {name}\n")
}

/// Replaces a file unless its bytes are those of its text. Returns whether it did.
fn replace_other(rt: &HostRuntime, file: &NewText<'_>) -> Result<bool, Failure>
    ensures { IfErr result (IsUnwritten (path_in file.now)) }
{
    match try_to_replace(rt, file) {
        Ok(is_replaced) => Ok(is_replaced),
        Err(error) => Err(unwritten(rt.alloc(), file.path, error)),
    }
}

/// Returns the failure to write the file at a path.
fn unwritten(alloc: Global, path: &str, error: io::Error) -> Failure
    ensures { IsUnwritten path.now result }
{
    if error.kind() == io::ErrorKind::OutOfMemory {
        return Failure::Memory;
    }
    match String::from_str(alloc, path) {
        Ok(path) => Failure::Unwritten(path, error),
        Err(_) => Failure::Memory,
    }
}

/// Replaces a file unless its bytes are those of its text. Returns whether it did.
fn try_to_replace(rt: &HostRuntime, file: &NewText<'_>) -> io::Result<bool> {
    match look(rt, file)? {
        Found::Same => Ok(false),
        Found::Other(old) => replace_old(rt, file, &old),
        Found::Nothing => replace(rt, file.path, file.text, None),
    }
}

/// Looks what stands at the path of a file. Only a regular file can be replaced.
fn look(rt: &HostRuntime, file: &NewText<'_>) -> io::Result<Found> {
    match fs::metadata(rt, file.path) {
        Ok(found) if found.is_file() => look_inside(rt, file, found),
        Ok(_) => Err(io::Error::from(io::ErrorKind::AlreadyExists)),
        Err(error) if error.kind() == io::ErrorKind::NotFound => Ok(Found::Nothing),
        Err(error) => Err(error),
    }
}

/// Looks whether a regular file has the bytes of its text.
fn look_inside(rt: &HostRuntime, file: &NewText<'_>, found: Metadata) -> io::Result<Found> {
    if found.len() == file.text.len() as u64 && has_bytes(rt, file.path, file.text)? {
        return Ok(Found::Same);
    }
    Ok(Found::Other(found))
}

/// Tests whether the bytes of a file are those of a text.
fn has_bytes(rt: &HostRuntime, path: &str, text: &str) -> io::Result<bool> {
    let mut bytes = Vec::new(rt.alloc());
    let mut file = fs::open(rt, path)?;
    file.read_to_end(&mut bytes)?;
    Ok(bytes.as_slice() == text.as_bytes())
}

/// Replaces a file that is there, where its path leads, by one of its owner, group and permissions. Returns true.
fn replace_old(rt: &HostRuntime, file: &NewText<'_>, old: &Metadata) -> io::Result<bool> {
    let real = fs::canonicalize(rt, file.path)?;
    replace(rt, real.as_str(), file.text, Some(old))
}

/// Makes a file with a text, and gives it the path. Returns true.
fn replace(rt: &HostRuntime, path: &str, text: &str, old: Option<&Metadata>) -> io::Result<bool> {
    let new = new_path(rt, path)?;
    make_new(rt, new.as_str(), text, old)?;
    take_path(rt, new.as_str(), path)?;
    Ok(true)
}

/// Makes the path of the new file: `/etc/.exports.123456789.new` beside `/etc/exports`. The number is that of the clock, so that what
/// an interrupted run left is in no other's way, nor are two runs at once in each other's.
pub(crate) fn new_path(rt: &HostRuntime, path: &str) -> io::Result<String> {
    let number = nanoseconds(rt)?;
    let new = match path.rsplit_once('/') {
        Some((folder, name)) => format!(in rt.alloc(); "{folder}/.{name}.{number}.new")?,
        None => format!(in rt.alloc(); ".{path}.{number}.new")?,
    };
    Ok(new)
}

/// Returns the nanoseconds of the clock within its second.
fn nanoseconds(rt: &HostRuntime) -> io::Result<u32> {
    match SystemTime::now(rt)?.duration_since(UNIX_EPOCH) {
        Ok(since) => Ok(since.subsec_nanos()),
        Err(_) => Ok(0),
    }
}

/// Makes a new file with a text, which is synced; or removes it, if it cannot be finished.
fn make_new(rt: &HostRuntime, new: &str, text: &str, old: Option<&Metadata>) -> io::Result<()> {
    let mut file = create_new(rt, new, old.is_some())?;
    match fill(&mut file, text.as_bytes(), old) {
        Ok(()) => Ok(()),
        Err(error) => {
            let _ = fs::remove_file(rt, new);
            Err(error)
        }
    }
}

/// Makes a new file: one that gets the permissions of another for its owner alone, until it has them.
fn create_new(rt: &HostRuntime, new: &str, gets_permissions: bool) -> io::Result<File> {
    let mode = if gets_permissions { 0o600 } else { 0o644 };
    OpenOptions::new()
        .write(true)
        .create_new(true)
        .mode(mode)
        .open(rt, new)
}

/// A new file, as it is finished once its bytes are in it. Neither step can write.
pub(crate) trait NewFile: Write {
    /// Gives it the owner, the group and the permissions of an old one.
    fn give_access(&self, old: &Metadata) -> io::Result<()>;

    /// Syncs it.
    fn sync(&self) -> io::Result<()>;
}

impl NewFile for File {
    fn give_access(&self, old: &Metadata) -> io::Result<()> {
        give_owner(self, old)?;
        self.set_permissions(old.permissions())
    }

    fn sync(&self) -> io::Result<()> {
        self.sync_all()
    }
}

/// Writes bytes into a new file, and nothing behind them, gives it the owner, the group and the permissions of an old one, if there is
/// one, and syncs it.
pub(crate) fn fill<F: NewFile>(file: &mut F, bytes: &[u8], old: Option<&Metadata>) -> io::Result<()>
    ensures { OnOk result (Appends (F.Write.contents file.old) (F.Write.contents file.new) bytes.now) }
{
    file.write_all(bytes)?;
    if let Some(old) = old {
        file.give_access(old)?;
    }
    file.sync()
}

/// Gives a file the owner and the group of an old one. To another owner only root can give it: whoever may not, gives it the group
/// alone. If it fails otherwise, as for want of a quota, the old file stays.
fn give_owner(file: &File, old: &Metadata) -> io::Result<()> {
    match fchown(file, Some(old.uid()), Some(old.gid())) {
        Err(error) if error.kind() == io::ErrorKind::PermissionDenied => {
            fchown(file, None, Some(old.gid()))
        }
        given => given,
    }
}

/// Gives the new file the path, or removes it.
fn take_path(rt: &HostRuntime, new: &str, path: &str) -> io::Result<()> {
    match fs::rename(rt, new, path) {
        Ok(()) => {
            sync_folder(rt, path);
            Ok(())
        }
        Err(error) => {
            let _ = fs::remove_file(rt, new);
            Err(error)
        }
    }
}

/// Syncs the folder of a file, which has its name. Not every file system can, and a folder may be unreadable; then the name waits for
/// the system.
pub(crate) fn sync_folder(rt: &HostRuntime, path: &str) {
    let folder = match path.rsplit_once('/') {
        Some(("", _)) => "/",
        Some((folder, _)) => folder,
        None => ".",
    };
    if let Ok(file) = fs::open(rt, folder) {
        let _ = file.sync_all();
    }
}
