//! The file systems of a text of mount points.

ghost use Rattle.desk_text.specs.Lines.{IsReadable};
ghost use Rattle.desk_mounts.specs.Reading.{read_mounts};
ghost use Rattle.cli_files.specs.MountsFile.{AnswersMounts, MakesTable};

use cli_output::failure::{Failure, ReadFailure};
use desk_mounts::{read_mounts, table_of};
use desk_tables::FileSystems;
use desk_text::{Path, ReadError};
use std::alloc::Global;

/// Makes the file systems of the mount points that a text lists. A failure names the argument as the usage does, and the file.
pub fn mounts_of(
    alloc: Global,
    argument: &'static str,
    path: &str,
    text: &str,
) -> Result<FileSystems, Failure>
    requires { IsReadable text.now }
    ensures { AnswersMounts argument.entry.now path.now (read_mounts text.now) result }
{
    match ReadError::split(read_mounts(alloc, text))? {
        Ok(mount_points) => make_table(alloc, argument, mount_points),
        Err(fault) => Err(Failure::of_file(alloc, argument, path, ReadFailure::Mounts(fault))),
    }
}

/// Makes the file systems of these mount points.
fn make_table(
    alloc: Global,
    argument: &'static str,
    mount_points: Vec<Path>,
) -> Result<FileSystems, Failure>
    ensures { MakesTable argument.entry.now mount_points.items result }
{
    match table_of(alloc, mount_points)? {
        Ok(filesystems) => Ok(filesystems),
        Err(count) => Err(Failure::TooManyMounts(argument, count)),
    }
}
