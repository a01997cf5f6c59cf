//! A whole exports text split among the file systems that another text lists, as `split` prints it.

ghost use Rattle.std.specs.Prelude.{◌≡◌, ◌++◌, IfOk, OnOk, map};
ghost use Rattle.std.specs.String.{string_bytes};
ghost use Rattle.desk_text.specs.Lines.{IsReadable};
ghost use Rattle.desk_text.specs.Reading.{ReadsAs};
ghost use Rattle.desk_split.specs.Splitting.{split_text};
ghost use Rattle.cli_texts.specs.SplitText as spec;

use desk_split::{SplitFault, split};
use desk_tables::{FileSystems, Mount};
use desk_text::ReadError;
use std::alloc::{AllocError, Global};

/// Splits an exports text among the file systems that a text lists: for each of them a line `== MOUNT`, and its text behind
/// that. A fault of the file systems comes before one of the exports text. Each text has at most 4,294,967,294 bytes.
pub fn split_text(
    alloc: Global,
    text: &str,
    filesystems: &str,
) -> Result<String, ReadError<SplitFault>>
    requires text { IsReadable text.now }
    requires filesystems { IsReadable filesystems.now }
    ensures { ReadsAs string_bytes result (spec.split_answer text.now filesystems.now) }
{
    match ReadError::split(FileSystems::read(alloc, filesystems))? {
        Ok(table) => split_for(alloc, text, &table),
        Err(fault) => Err(ReadError::Fault(SplitFault::FileSystems(fault))),
    }
}

/// Splits an exports text among these file systems.
fn split_for(
    alloc: Global,
    text: &str,
    table: &FileSystems,
) -> Result<String, ReadError<SplitFault>>
    requires { IsReadable text.now }
    ensures { ReadsAs string_bytes result (spec.printed_split table.now (split_text table.now text.now)) }
{
    match split(alloc, text, table) {
        Ok(texts) => {
            let printed = headed_texts(alloc, table.as_slice(), texts.as_slice())?;
            Ok(printed)
        }
        Err(error) => Err(error.map_fault(|fault| SplitFault::Exports(fault))),
    }
}

/// Writes the text of each file system behind a line with its mount point.
fn headed_texts(alloc: Global, table: &[Mount], texts: &[String]) -> Result<String, AllocError>
    ensures { IfOk result (λ printed. string_bytes printed ≡ spec.headed_texts table.now (map string_bytes texts.now)) }
{
    let mut printed = String::new(alloc);
    let mut rest = texts;
    for mount in table {
        let Some((text, others)) = rest.split_first() else {
            return Ok(printed);
        };
        push_headed(mount, text.as_str(), &mut printed)?;
        rest = others;
    }
    Ok(printed)
}

/// Writes a text behind a line with a mount point.
fn push_headed(mount: &Mount, text: &str, printed: &mut String) -> Result<(), AllocError>
    ensures { OnOk result (string_bytes printed.new ≡ string_bytes printed.old ++ spec.headed_text mount.now text.now) }
{
    printed.push_str("== ")?;
    printed.push_str(mount.path.text())?;
    printed.push_str("\n")?;
    printed.push_str(text)?;
    Ok(())
}
