//! The files of texts and of the tables beside them: which they are, how many are standard input, their texts, and both as sources.

ghost use Rattle.std.specs.Prelude.{◌≡◌, ◌≤◌, [], Err, IfOk, MatchResult, None, Some, if◌then◌else◌, map, unwrap_or};
ghost use Rattle.std.specs.Option.{option_copied};
ghost use Rattle.std.specs.String.{string_bytes};
ghost use Rattle.clap.specs.Words.{first_of};
ghost use Rattle.desk_policy.specs.PerTable.{EachTable};
ghost use Rattle.cli_files.specs.Files.{Leaves, ReadsIfGiven, ReadsInTurn, is_input, is_input_if_given};
ghost use Rattle.cli_words.specs.Words.{rows_in};
ghost use Rattle.cli_sources.specs.InTurn.{ReadsTo};
ghost use Rattle.cli_sources.specs.TableFiles as spec;
ghost use Rattle.cli_sources.specs.TableFiles.{IsPlain, IsShort, given_path, input_count, named, paths_in, table_list, texts_in};

use clap::ArgMatches;
use cli_files::files::{is_input, read_if_given, read_or_empty};
use cli_files::site_folder::SiteFiles;
use cli_output::failure::Failure;
use cli_words::words::given;
use desk_findings::Source;
use desk_policy::PerTable;
use std::io::BufRead;

/// A file that a command reads: the argument that names it, as the usage does, and its path, if it is given.
#[derive(Clone, Copy)]
pub struct TextFile<'a> {
    pub argument: &'static str,
    pub path: Option<&'a str>,
    /// Whether it may be missing, and is then empty.
    pub optional: bool,
}

/// Finds the files of the tables: those of their options, or else those of a folder, if there is one. Those of a folder may be missing.
pub fn table_files<'w: 'a, 'a>(
    words: &ArgMatches<'w>,
    folder: Option<&'a SiteFiles>,
) -> PerTable<TextFile<'a>>
    ensures { map named (table_list result) ≡ spec.table_files (option_copied folder.entry) (rows_in words.now) }
{
    match folder {
        None => PerTable {
            hosts: option_file(words, "hosts", "--hosts"),
            networks: option_file(words, "networks", "--networks"),
            passwd: option_file(words, "passwd", "--passwd"),
            group: option_file(words, "group", "--group"),
            netgroup: option_file(words, "netgroup", "--netgroup"),
        },
        Some(paths) => PerTable {
            hosts: option_or(words, "hosts", "--hosts", paths.hosts.as_str()),
            networks: option_or(words, "networks", "--networks", paths.networks.as_str()),
            passwd: option_or(words, "passwd", "--passwd", paths.passwd.as_str()),
            group: option_or(words, "group", "--group", paths.group.as_str()),
            netgroup: option_or(words, "netgroup", "--netgroup", paths.netgroup.as_str()),
        },
    }
}

/// Finds the file that the option of this name gives, if it is given.
fn option_file<'w: 'a, 'a>(
    words: &ArgMatches<'w>,
    name: &str,
    argument: &'static str,
) -> TextFile<'a>
    ensures { named result ≡ spec.table_file argument.entry.now (first_of name.now (rows_in words.now)) None }
{
    TextFile {
        argument,
        path: given(words, name),
        optional: false,
    }
}

/// Finds the file that the option of this name gives, or else that of a folder, which may be missing.
fn option_or<'w: 'a, 'a>(
    words: &ArgMatches<'w>,
    name: &str,
    argument: &'static str,
    path: &'a str,
) -> TextFile<'a>
    ensures { named result ≡ spec.table_file argument.entry.now (first_of name.now (rows_in words.now)) (Some path.entry.now) }
{
    match given(words, name) {
        Some(file) => TextFile {
            argument,
            path: Some(file),
            optional: false,
        },
        None => TextFile {
            argument: "--site",
            path: Some(path),
            optional: true,
        },
    }
}

/// Counts the tables whose file is standard input.
pub fn table_inputs(files: PerTable<TextFile<'_>>) -> u32
    ensures small { result ≤ 5 }
    ensures counted { result ≡ input_count (map named (table_list files.entry)) }
{
    file_inputs(files.hosts)
        + file_inputs(files.networks)
        + file_inputs(files.passwd)
        + file_inputs(files.group)
        + file_inputs(files.netgroup)
}

/// Counts a file, if it is given and is standard input.
pub fn file_inputs(file: TextFile<'_>) -> u32
    ensures small { result ≤ 1 }
    ensures counted { result ≡ (if is_input_if_given (named file.entry).1 then 1 else 0) }
{
    match file.path {
        Some(path) => inputs(path),
        None => 0,
    }
}

/// Counts a file, if it is standard input.
pub fn inputs(file: &str) -> u32
    ensures small { result ≤ 1 }
    ensures counted { result ≡ (if is_input file.now then 1 else 0) }
{
    if is_input(file) { 1 } else { 0 }
}

/// Reads the files of the tables, in the order hosts, networks, passwd, group, netgroup. A table that is not given is empty.
pub fn read_tables<I: BufRead>(
    rt: &HostRuntime,
    files: PerTable<TextFile<'_>>,
    input: &mut I,
) -> Result<PerTable<String>, Failure>
    ensures texts { let files = map named (table_list files.entry) in
        MatchResult result (λ texts. ReadsTo files (I.remaining input.old) (map string_bytes (table_list texts)) (I.remaining input.new))
        (λ failure. ReadsInTurn files (I.remaining input.old) (Err failure)) }
    ensures short { IfOk result (EachTable IsShort) }
{
    let hosts = read_file(rt, files.hosts, input)?;
    let networks = read_file(rt, files.networks, input)?;
    let passwd = read_file(rt, files.passwd, input)?;
    let group = read_file(rt, files.group, input)?;
    let netgroup = read_file(rt, files.netgroup, input)?;
    Ok(PerTable {
        hosts,
        networks,
        passwd,
        group,
        netgroup,
    })
}

/// Reads a file. One that is not given is empty, and so is one that may be missing and is.
pub fn read_file<I: BufRead>(
    rt: &HostRuntime,
    file: TextFile<'_>,
    input: &mut I,
) -> Result<String, Failure>
    ensures text { ReadsIfGiven (named file.entry).0 (named file.entry).1 (I.remaining input.old) result }
    ensures short { IfOk result IsShort }
    ensures left { Leaves (named file.entry).1 (I.remaining input.old) (I.remaining input.new) }
{
    match file.path {
        Some(path) if file.optional => read_or_empty(rt, file.argument, path, input),
        path => read_if_given(rt, file.argument, path, input),
    }
}

/// Lends the texts of the tables with the paths of their files.
pub fn table_sources<'a>(
    files: PerTable<TextFile<'a>>,
    texts: &'a PerTable<String>,
) -> PerTable<Source<'a>>
    ensures paths { paths_in (table_list result) ≡ map given_path (map named (table_list files.entry)) }
    ensures texts { texts_in (table_list result) ≡ map string_bytes (table_list texts.now) }
    ensures plain { EachTable IsPlain result }
{
    PerTable {
        hosts: source_of(files.hosts, texts.hosts.as_str()),
        networks: source_of(files.networks, texts.networks.as_str()),
        passwd: source_of(files.passwd, texts.passwd.as_str()),
        group: source_of(files.group, texts.group.as_str()),
        netgroup: source_of(files.netgroup, texts.netgroup.as_str()),
    }
}

/// Lends a text with the path of its file, which is empty if it is not given.
pub fn source_of<'a>(file: TextFile<'a>, text: &'a str) -> Source<'a>
    ensures path { result.path.now ≡ unwrap_or (named file.entry).1 [] }
    ensures text { result.text.now ≡ text.entry.now }
    ensures origins { result.origins.now ≡ [] }
{
    match file.path {
        Some(path) => Source {
            path,
            text,
            origins: &[],
        },
        None => Source {
            path: "",
            text,
            origins: &[],
        },
    }
}
