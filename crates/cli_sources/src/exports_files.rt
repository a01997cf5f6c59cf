//! The exports files that are read as one: the first, the second of a folder, and those of `--and`.

ghost use Rattle.std.specs.Prelude.{◌≡◌, ◌+◌, ◌≤◌, [], ◌∷◌, IfOk, Some, length, map};
ghost use Rattle.std.specs.Bool.{Decides};
ghost use Rattle.std.specs.Option.{option_map};
ghost use Rattle.std.specs.String.{string_bytes};
ghost use Rattle.desk_text.specs.Lines.{IsReadable};
ghost use Rattle.desk_joined.specs.Joining.{IsJoined};
ghost use Rattle.cli_files.specs.Files.{Leaves};
ghost use Rattle.cli_words.specs.Words.{rows_in};
ghost use Rattle.cli_sources.specs.ExportsFiles as spec;
ghost use Rattle.cli_sources.specs.ExportsFiles.{and_file, exports_list, more_list, zfs_list};
ghost use Rattle.cli_sources.specs.PrivateExportsFiles.{AddsInTurn, AddsOne, ReadsWholeText, first_text};
ghost use Rattle.cli_sources.specs.TableFiles.{input_count, named};

use crate::subject::{Subject, and_files};
use crate::table_files::{TextFile, inputs, read_file};
use clap::ArgMatches;
use cli_files::files::{is_input, read_text};
use cli_output::failure::Failure;
use cli_words::words::is_set;
use desk_joined::{Joined, NamedText};
use desk_text::Sequence;
use std::alloc::{AllocError, Global};
use std::io::BufRead;

/// The most bytes that a text may have to be read. (Ten files, each of at most 16 MiB, have fewer.)
const LONGEST_TEXT: usize = 4_294_967_294;

/// The exports files behind the first.
#[derive(Clone, Copy)]
pub struct MoreFiles<'a> {
    /// The second of a folder, if it is asked for.
    pub zfs: Option<&'a str>,
    /// Those of `--and`.
    pub and: &'a [&'a str],
}

/// Finds the exports files behind the first.
pub fn more_files<'w: 'a, 'a>(words: &'a ArgMatches<'w>, subject: &'a Subject<'w>) -> MoreFiles<'a>
    ensures { more_list result ≡ spec.more_files subject.entry.now (rows_in words.entry.now) }
{
    MoreFiles {
        zfs: zfs_file(words, subject),
        and: and_files(words),
    }
}

/// Finds the second exports file of a folder, if it is asked for.
fn zfs_file<'a>(words: &ArgMatches<'_>, subject: &'a Subject<'_>) -> Option<&'a str>
    ensures { zfs_list (option_map (λ path. path.now) result) ≡ spec.zfs_files subject.entry.now (rows_in words.now) }
{
    match subject {
        Subject::Site(folder) if is_set(words, "zfs") => Some(folder.zfs.as_str()),
        Subject::Site(_) | Subject::File(_) => None,
    }
}

/// Counts those of them that are standard input.
pub fn more_inputs(files: MoreFiles<'_>) -> usize
    ensures within { result ≤ length files.entry.and.now + 1 }
    ensures counted { result ≡ input_count (more_list files.entry) }
{
    zfs_inputs(files.zfs) as usize + and_inputs(files.and)
}

/// Counts the second exports file of a folder, if it is asked for and is standard input.
fn zfs_inputs(zfs: Option<&str>) -> u32
    ensures small { result ≤ 1 }
    ensures counted { result ≡ input_count (zfs_list (option_map (λ path. path.now) zfs.entry)) }
{
    match zfs {
        Some(path) => inputs(path),
        None => 0,
    }
}

/// Counts those of `--and` that are standard input.
fn and_inputs(files: &[&str]) -> usize
    ensures within { result ≤ length files.now }
    ensures counted { result ≡ input_count (map (λ word. and_file word.now) files.now) }
{
    files.iter().filter(|path| is_input(path)).count()
}

/// Reads the first exports file and those behind it, in turn, and joins them if they are several.
pub fn read_exports<I: BufRead>(
    rt: &HostRuntime,
    first: TextFile<'_>,
    more: MoreFiles<'_>,
    input: &mut I,
) -> Result<Joined, Failure>
    ensures text { ReadsWholeText (exports_list first.entry more.entry) (I.remaining input.old) (I.remaining input.new) result }
    ensures short { IfOk result (λ whole. IsReadable (string_bytes whole.text)) }
{
    let text = read_file(rt, first, input)?;
    if is_empty(more) {
        return Ok(alone(rt.alloc(), text));
    }
    let mut whole = begun(rt.alloc(), first, text)?;
    add_more(rt, more, input, &mut whole)?;
    if is_readable(&whole) {
        Ok(whole)
    } else {
        Err(Failure::Memory)
    }
}

/// Tests whether there are no files behind the first.
fn is_empty(more: MoreFiles<'_>) -> bool
    ensures { Decides result (more_list more.entry ≡ []) }
{
    more.zfs.is_none() && more.and.is_empty()
}

/// Tests whether a whole can be read.
fn is_readable(whole: &Joined) -> bool
    ensures { Decides result (IsReadable (string_bytes whole.now.text)) }
{
    whole.text.len() <= LONGEST_TEXT
}

/// Makes the whole of a text that is read as it is.
fn alone(alloc: Global, text: String) -> Joined
    ensures text { string_bytes result.text ≡ string_bytes text }
    ensures origins { result.origins ≡ [] }
{
    Joined {
        text,
        origins: Sequence::new(alloc),
    }
}

/// Joins the text of the first file, behind which others will stand.
fn begun(alloc: Global, first: TextFile<'_>, text: String) -> Result<Joined, AllocError>
    ensures { IfOk result (IsJoined (first_text (named first.entry) (string_bytes text) ∷ [])) }
{
    let mut whole = Joined::new(alloc);
    let file = NamedText {
        path: first.path.unwrap_or(""),
        text: text.as_str(),
    };
    whole.add(alloc, file)?;
    Ok(whole)
}

/// Reads the exports files behind the first, in turn, and adds each.
fn add_more<I: BufRead>(
    rt: &HostRuntime,
    files: MoreFiles<'_>,
    input: &mut I,
    whole: &mut Joined,
) -> Result<(), Failure>
    ensures { AddsInTurn (more_list files.entry) (I.remaining input.old) (I.remaining input.new) whole.old whole.new result }
{
    add_zfs(rt, files.zfs, input, whole)?;
    add_each(rt, files.and, input, whole)
}

/// Reads the second exports file of a folder, if it is asked for, and adds it.
fn add_zfs<I: BufRead>(
    rt: &HostRuntime,
    zfs: Option<&str>,
    input: &mut I,
    whole: &mut Joined,
) -> Result<(), Failure>
    ensures { AddsInTurn (zfs_list (option_map (λ path. path.now) zfs.entry)) (I.remaining input.old) (I.remaining input.new) whole.old whole.new result }
{
    match zfs {
        Some(path) => add_file(rt, "--zfs", path, input, whole),
        None => Ok(()),
    }
}

/// Reads the files of `--and`, in turn, and adds each.
fn add_each<I: BufRead>(
    rt: &HostRuntime,
    files: &[&str],
    input: &mut I,
    whole: &mut Joined,
) -> Result<(), Failure>
    ensures { AddsInTurn (map (λ word. and_file word.now) files.now) (I.remaining input.old) (I.remaining input.new) whole.old whole.new result }
{
    for path in files {
        add_file(rt, "--and", path, input, whole)?;
    }
    Ok(())
}

/// Reads a file, and adds its text.
fn add_file<I: BufRead>(
    rt: &HostRuntime,
    argument: &'static str,
    path: &str,
    input: &mut I,
    whole: &mut Joined,
) -> Result<(), Failure>
    ensures added { AddsOne argument.entry.now path.now (I.remaining input.old) whole.old whole.new result }
    ensures left { Leaves (Some path.now) (I.remaining input.old) (I.remaining input.new) }
{
    let text = read_text(rt, argument, path, input)?;
    let file = NamedText {
        path,
        text: text.as_str(),
    };
    whole.add(rt.alloc(), file)?;
    Ok(())
}
