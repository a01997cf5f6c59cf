//! The file systems of a folder: those of its file `filesystems`, or else those of its mount points.

ghost use Rattle.std.specs.Prelude.{◌≡◌, ◌≢◌, ◌≤◌, IfOk, IfSome, Some, codes, length};
ghost use Rattle.std.specs.Result.{result_map_both};
ghost use Rattle.std.specs.String.{string_bytes};
ghost use Rattle.std.specs.declared.io.ErrorKind.TheVariants.{NotFound};
ghost use Rattle.cli_files.specs.FolderSystems.{AreShort, FindsSystems, IsSystemsText, LeavesBehind, ReadsSystems, ReadsSystemsText, systems_paths};

use crate::files::{text_by, there_by};
use crate::input::LONGEST_INPUT;
use crate::mounts_file::mounts_of;
use crate::opening::Opens;
use cli_output::failure::{Failure, ReadFailure, TextFault};
use desk_mounts::site_text;
use desk_tables::FileSystems;
use std::alloc::Global;
use std::io::BufRead;

/// The paths of the two files of a folder that list its file systems, of which one is enough.
#[derive(Clone, Copy)]
pub struct SystemsFiles<'a> {
    pub filesystems: &'a str,
    pub mounts: &'a str,
}

/// What a folder has of its file systems.
#[derive(Drop)]
pub enum FolderSystems {
    /// The text of the file `filesystems`.
    Listed(String),
    /// Those of the mount points in `mounts`, which nobody keeps.
    Mounted(FileSystems),
}

/// Reads what a folder has of its file systems: `mounts` is read only if there is no `filesystems`. If neither is there, the failure
/// is that of `filesystems`.
pub fn read_systems<I: BufRead>(
    rt: &HostRuntime,
    argument: &'static str,
    files: SystemsFiles<'_>,
    input: &mut I,
) -> Result<FolderSystems, Failure>
    ensures systems { ReadsSystems argument.entry.now (systems_paths files.entry) result }
    ensures short { IfOk result AreShort }
    ensures left { LeavesBehind (systems_paths files.entry) (I.remaining input.old) (I.remaining input.new) }
{
    systems_by(rt, rt.alloc(), argument, files, input)
}

/// Reads what a folder has of its file systems, by what opens its files.
fn systems_by<S: Opens, I: BufRead>(
    system: &S,
    alloc: Global,
    argument: &'static str,
    files: SystemsFiles<'_>,
    input: &mut I,
) -> Result<FolderSystems, Failure>
    ensures systems { ReadsSystems argument.entry.now (systems_paths files.entry) result }
    ensures found { let path = files.entry.filesystems.now in path ≢ codes "-" → IfSome (S.fails system.now path) (λ kind. IfOk result (FindsSystems kind)) }
    ensures short { IfOk result AreShort }
    ensures left { LeavesBehind (systems_paths files.entry) (I.remaining input.old) (I.remaining input.new) }
{
    match there_by(system, alloc, argument, files.filesystems, input) {
        Ok(Some(text)) => Ok(FolderSystems::Listed(text)),
        Ok(None) => mounted_by(system, alloc, argument, files, input),
        Err(failure) => Err(failure),
    }
}

/// Reads what a folder without `filesystems` has of its file systems.
fn mounted_by<S: Opens, I: BufRead>(
    system: &S,
    alloc: Global,
    argument: &'static str,
    files: SystemsFiles<'_>,
    input: &mut I,
) -> Result<FolderSystems, Failure>
    ensures systems { ReadsSystems argument.entry.now (systems_paths files.entry) result }
    ensures found { let path = files.entry.filesystems.now in path ≢ codes "-" → S.fails system.now path ≡ Some (Some NotFound) → IfOk result (FindsSystems (Some NotFound)) }
    ensures short { IfOk result AreShort }
    ensures left { LeavesBehind (systems_paths files.entry) (I.remaining input.old) (I.remaining input.new) }
{
    match there_by(system, alloc, argument, files.mounts, input) {
        Ok(Some(text)) => match mounts_of(alloc, argument, files.mounts, text.as_str()) {
            Ok(systems) => Ok(FolderSystems::Mounted(systems)),
            Err(failure) => Err(failure),
        },
        // The system says in its own words that it is not there.
        Ok(None) => match text_by(system, alloc, argument, files.filesystems, input) {
            Ok(text) => Ok(FolderSystems::Listed(text)),
            Err(failure) => Err(failure),
        },
        Err(failure) => Err(failure),
    }
}

/// Reads the text of a folder's file systems. Of mount points it is a line `MOUNT site` each, in byte order.
pub fn read_systems_text<I: BufRead>(
    rt: &HostRuntime,
    argument: &'static str,
    files: SystemsFiles<'_>,
    input: &mut I,
) -> Result<String, Failure>
    ensures text { ReadsSystemsText argument.entry.now (systems_paths files.entry) (result_map_both string_bytes (λ failure. failure) result) }
    ensures short { IfOk result (λ text. length (string_bytes text) ≤ 16777216) }
    ensures left { LeavesBehind (systems_paths files.entry) (I.remaining input.old) (I.remaining input.new) }
{
    match read_systems(rt, argument, files, input) {
        Ok(FolderSystems::Listed(text)) => Ok(text),
        Ok(FolderSystems::Mounted(systems)) => {
            systems_text(rt.alloc(), argument, files.mounts, &systems)
        }
        Err(failure) => Err(failure),
    }
}

/// Writes the text of file systems that `site` keeps. Of 256 mount points it is never too long.
fn systems_text(
    alloc: Global,
    argument: &'static str,
    path: &str,
    systems: &FileSystems,
) -> Result<String, Failure>
    ensures text { IsSystemsText argument.entry.now path.now systems.now (result_map_both string_bytes (λ failure. failure) result) }
    ensures short { IfOk result (λ text. length (string_bytes text) ≤ 16777216) }
{
    let text = site_text(alloc, systems.as_slice())?;
    if text.len() > LONGEST_INPUT {
        return Err(Failure::of_file(alloc, argument, path, ReadFailure::Text(TextFault::TooLong)));
    }
    Ok(text)
}
