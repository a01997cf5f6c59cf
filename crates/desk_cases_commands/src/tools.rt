//! The commands beside `exportdesk` that a file of commands may have: `rm FILE..`, `cp FROM TO`, `cmp -s FILE FILE`,
//! `ln FROM TO` and `ln -s FROM TO`, `mkdir FOLDER`, `rmdir FOLDER`, `chmod MODE FILE`, `printf 'TEXT' > FILE` (with the
//! escapes of cases) and `sqlite3 FILE "STATEMENTS"` print nothing; `ls FOLDER` prints the names in a folder in byte order,
//! and `stat -c %a FILE` the mode of a file. They end with the status 0, or 1 if they fail, and then print no message.

use desk_cases_texts::answers::Asked;
use desk_cases_texts::escapes;
use sqlite::{Connection, Error};
use std::alloc::AllocError;
use std::fs::Permissions;
use std::os::unix::fs::{MetadataExt, PermissionsExt, symlink};
use std::{fs, io};

/// Runs a command, and adds what it prints, and its status in the form of a file of commands. Tells whether it is one of
/// these.
pub fn run(rt: &HostRuntime, shown: &mut String, line: &str) -> Asked {
    match attempt(rt, shown, line)? {
        Some(true) => shown.push_str("[0]\n")?,
        Some(false) => shown.push_str("[1]\n")?,
        None => return Ok(false),
    }
    Ok(true)
}

/// Runs a command, and adds what it prints. Tells whether it succeeded, if it is one of these.
fn attempt(rt: &HostRuntime, shown: &mut String, line: &str) -> Result<Option<bool>, AllocError> {
    let (name, rest) = line.split_once(' ').unwrap_or((line, ""));
    match name {
        "rm" => Ok(Some(remove(rt, rest))),
        "cp" => Ok(copy(rt, rest)),
        "cmp" => Ok(compare(rt, rest)),
        "ln" => Ok(link(rt, rest)),
        "mkdir" => Ok(Some(fs::create_dir(rt, rest).is_ok())),
        "rmdir" => Ok(Some(fs::remove_dir(rt, rest).is_ok())),
        "chmod" => Ok(set_mode(rt, rest)),
        "ls" => Ok(Some(print_names(rt, shown, rest).is_ok())),
        "stat" => print_mode(rt, shown, rest),
        "printf" => write(rt, rest),
        "sqlite3" => Ok(change(rt, rest)),
        _ => Ok(None),
    }
}

/// Removes files, whose names stand between blanks.
fn remove(rt: &HostRuntime, files: &str) -> bool {
    let mut removed = true;
    for file in files.split(' ') {
        removed = fs::remove_file(rt, file).is_ok() && removed;
    }
    removed
}

/// Copies a file.
fn copy(rt: &HostRuntime, files: &str) -> Option<bool> {
    let (from, to) = files.split_once(' ')?;
    Some(fs::copy(rt, from, to).is_ok())
}

/// Compares two files to the byte.
fn compare(rt: &HostRuntime, words: &str) -> Option<bool> {
    let (one, other) = words.strip_prefix("-s ")?.split_once(' ')?;
    Some(have_same_bytes(rt, one, other).unwrap_or(false))
}

/// Tests whether two files hold the same bytes.
fn have_same_bytes(rt: &HostRuntime, one: &str, other: &str) -> io::Result<bool> {
    let one = fs::read(rt, one)?;
    let other = fs::read(rt, other)?;
    Ok(one.as_slice() == other.as_slice())
}

/// Gives a file a second name, or makes a symbolic link.
fn link(rt: &HostRuntime, words: &str) -> Option<bool> {
    let (from, to) = words.strip_prefix("-s ").unwrap_or(words).split_once(' ')?;
    let linked = if words.starts_with("-s ") {
        symlink(rt, from, to)
    } else {
        fs::hard_link(rt, from, to)
    };
    Some(linked.is_ok())
}

/// Sets the mode of a file, which is written in octal.
fn set_mode(rt: &HostRuntime, words: &str) -> Option<bool> {
    let (mode, file) = words.split_once(' ')?;
    let mode = u32::from_str_radix(mode, 8).ok()?;
    Some(fs::set_permissions(rt, file, Permissions::from_mode(mode)).is_ok())
}

/// Prints the names in a folder.
fn print_names(rt: &HostRuntime, shown: &mut String, folder: &str) -> io::Result<()> {
    let mut names = Vec::new(rt.alloc());
    for entry in fs::read_dir(rt, folder)? {
        names.push(String::from_str(rt.alloc(), entry?.file_name())?)?;
    }
    names.sort_unstable();
    for name in &names {
        write!(shown, "{name}\n")?;
    }
    Ok(())
}

/// Prints the mode of a file in octal.
fn print_mode(
    rt: &HostRuntime,
    shown: &mut String,
    words: &str,
) -> Result<Option<bool>, AllocError> {
    let Some(file) = words.strip_prefix("-c %a ") else {
        return Ok(None);
    };
    let Ok(found) = fs::symlink_metadata(rt, file) else {
        return Ok(Some(false));
    };
    let mode = found.mode() & 0o7777;
    write!(shown, "{mode:o}\n")?;
    Ok(Some(true))
}

/// Writes a text into a file.
fn write(rt: &HostRuntime, rest: &str) -> Result<Option<bool>, AllocError> {
    let Some((text, file)) = rest.split_once("' > ") else {
        return Ok(None);
    };
    let Some(text) = text.strip_prefix('\'') else {
        return Ok(None);
    };
    let mut bytes = Vec::new(rt.alloc());
    if !escapes::push(rt.alloc(), &mut bytes, text)? {
        return Ok(None);
    }
    Ok(Some(fs::write(rt, file, bytes.as_slice()).is_ok()))
}

/// Runs statements on a database, and copies its log into its file.
fn change(rt: &HostRuntime, rest: &str) -> Option<bool> {
    let (file, statements) = rest.split_once(" \"")?;
    let statements = statements.strip_suffix('"')?;
    Some(run_statements(rt, file, statements).is_ok())
}

/// Runs statements on a database that is opened for them, and closes it.
fn run_statements(rt: &HostRuntime, file: &str, statements: &str) -> Result<(), Error> {
    let mut conn = Connection::open(rt, file)?;
    conn.execute_batch(statements)?;
    conn.close()
}
