//! Questions on sites and whole exports texts: what they are read as, whether they are consistent, and their warnings.
//! Whether they are consistent is asked twice: of the view that scans the lines, and of the index; if the index says
//! otherwise, both are told (`add_by_keys`).

ghost use Rattle.desk_text.specs.Lines.{IsReadable};

use crate::answers::{Asked, say, split};
use crate::indexes::{add_by_keys, index_of};
use crate::site::{InForce, Site};
use desk_exports::Profile;
use desk_index::Index;
use desk_policy::{
    ExportsText, Plain, Policy, PolicyView, SiteFault, SiteFile, Warning, compile, parse,
    parse_whole,
};
use desk_tables::FileSystems;
use desk_text::{ReadError, Text};
use std::alloc::{AllocError, Global};
use std::collections::BTreeSet;

/// Answers a question on a site or a whole text, or on the warnings of either.
pub fn answer(alloc: Global, site: &mut Site, out: &mut String, question: &str, text: &str) -> Asked
    requires { IsReadable text.now }
{
    match question {
        "site" => new(alloc, site, out, text),
        "profile" => profile(site, out, text),
        "file" => file(alloc, site, out, text),
        "parse" | "compile" => of_texts(alloc, site, out, question),
        "whole" | "build" => of_whole(alloc, site, out, question, text),
        "warnings" => warnings(site, out),
        _ => Ok(false),
    }
}

/// `site`: `new`. Forgets the texts of the site, and the keys of its lines.
fn new(alloc: Global, site: &mut Site, out: &mut String, text: &str) -> Asked {
    if !text.is_empty() {
        return Ok(false);
    }
    site.texts = desk_policy::Site::new(alloc);
    site.keys = BTreeSet::new(alloc);
    say(out, "new")
}

/// `profile NUMBER`: `set`. Exports texts are then read by this profile, also those that are kept from then on; 2 until it is set.
fn profile(site: &mut Site, out: &mut String, text: &str) -> Asked {
    site.profile = match text {
        "1" => Profile::One,
        "2" => Profile::Two,
        _ => return Ok(false),
    };
    say(out, "set")
}

/// `file NAME TEXT`: `kept`. Sets a text of the site: that of `custodians`, `filesystems`, `hosts`, `networks`, `passwd`,
/// `group` or `netgroup`, or of `exports:` and a mount point.
fn file(alloc: Global, site: &mut Site, out: &mut String, text: &str) -> Asked {
    let (name, text) = split(text);
    let text = Text::copy(alloc, text)?;
    if !keep(alloc, &mut site.texts, site.profile, name, text)? {
        return Ok(false);
    }
    say(out, "kept")
}

/// Sets the text of the file with this name; that of an exports file is read by this profile. Tells whether there is such a
/// file.
pub fn keep(
    alloc: Global,
    texts: &mut desk_policy::Site,
    profile: Profile,
    name: &str,
    text: Text,
) -> Result<bool, AllocError> {
    match SiteFile::of(name) {
        Some(file) => {
            texts.files.set(file, text);
            Ok(true)
        }
        None => keep_exports(alloc, texts, profile, name, text),
    }
}

fn keep_exports(
    alloc: Global,
    texts: &mut desk_policy::Site,
    profile: Profile,
    name: &str,
    body: Text,
) -> Result<bool, AllocError> {
    let Some(mount) = name.strip_prefix("exports:") else {
        return Ok(false);
    };
    let text = ExportsText { profile, body };
    texts.exports.insert(String::from_str(alloc, mount)?, text)?;
    Ok(true)
}

/// `parse`: `read`, and `compile`: `consistent`; or the fault. Both set the policy, by the texts of the site.
fn of_texts(alloc: Global, site: &mut Site, out: &mut String, question: &str) -> Asked {
    if !site.texts.is_readable() {
        return Ok(false);
    }
    if question == "parse" {
        let policy = parse(alloc, &site.texts);
        let again = parse(alloc, &site.texts);
        set_policy(site, out, policy)?;
        set_index_of(alloc, site, again)
    } else {
        let view = compile(alloc, &site.texts);
        let index = compile(alloc, &site.texts);
        set_view(site, out, view)?;
        set_index(alloc, site, out, index)
    }
}

/// `whole TEXT`: `read`, and `build TEXT`: `consistent`; or the fault. Both set the policy, by a text for all file systems,
/// with the file systems that the file read last.
fn of_whole(alloc: Global, site: &mut Site, out: &mut String, question: &str, text: &str) -> Asked
    requires { IsReadable text.now }
{
    let Some(filesystems) = &site.filesystems else {
        return Ok(false);
    };
    let filesystems = filesystems.share()?;
    let asked = if question == "whole" {
        set_whole(alloc, site, out, &filesystems, text)
    } else {
        set_built(alloc, site, out, &filesystems, text)
    };
    drop(filesystems);
    asked
}

/// Sets the policy of a text for all of these file systems.
fn set_whole(
    alloc: Global,
    site: &mut Site,
    out: &mut String,
    filesystems: &FileSystems,
    text: &str,
) -> Asked
    requires { IsReadable text.now }
{
    let profile = site.profile;
    set_policy(site, out, whole(alloc, profile, filesystems, text))?;
    set_index_of(alloc, site, whole(alloc, profile, filesystems, text))
}

/// Sets both views of that policy.
fn set_built(
    alloc: Global,
    site: &mut Site,
    out: &mut String,
    filesystems: &FileSystems,
    text: &str,
) -> Asked
    requires { IsReadable text.now }
{
    let profile = site.profile;
    let policy = whole(alloc, profile, filesystems, text);
    set_view(site, out, built(alloc, policy))?;
    set_index(
        alloc,
        site,
        out,
        built(alloc, whole(alloc, profile, filesystems, text)),
    )
}

/// Reads the policy of a text for all of these file systems.
fn whole(
    alloc: Global,
    profile: Profile,
    filesystems: &FileSystems,
    text: &str,
) -> Result<Policy, ReadError<SiteFault>>
    requires { IsReadable text.now }
{
    parse_whole(alloc, profile, text, filesystems.share()?)
}

/// Builds a view of a policy, if that was read.
fn built<V: PolicyView>(
    alloc: Global,
    policy: Result<Policy, ReadError<SiteFault>>,
) -> Result<V, ReadError<SiteFault>> {
    match policy {
        Ok(policy) => V::build(alloc, policy),
        Err(error) => Err(error),
    }
}

/// Sets the policy, or answers with the fault.
fn set_policy(
    site: &mut Site,
    out: &mut String,
    policy: Result<Policy, ReadError<SiteFault>>,
) -> Asked {
    match policy {
        Ok(policy) => {
            site.put(InForce::Policy(policy));
            say(out, "read")
        }
        Err(error) => say_fault(out, error),
    }
}

/// Sets the index of the policy in force, which was read again for it, unless lines of it contradict each other.
fn set_index_of(
    alloc: Global,
    site: &mut Site,
    policy: Result<Policy, ReadError<SiteFault>>,
) -> Asked {
    if let Ok(policy) = policy {
        site.put_index(index_of(alloc, policy)?);
    }
    Ok(true)
}

/// Sets the view that is in force, or answers with the fault.
fn set_view(site: &mut Site, out: &mut String, view: Result<Plain, ReadError<SiteFault>>) -> Asked {
    match view {
        Ok(view) => {
            site.put(InForce::View(view));
            say(out, "consistent")
        }
        Err(error) => say_fault(out, error),
    }
}

/// Sets the index of the view in force. Tells what the index answers, if that is something else.
fn set_index(
    alloc: Global,
    site: &mut Site,
    out: &mut String,
    index: Result<Index, ReadError<SiteFault>>,
) -> Asked {
    let mut by_keys = String::new(alloc);
    match index {
        Ok(index) => {
            site.put_index(Some(index));
            by_keys.push_str("consistent")?;
        }
        Err(error) => {
            say_fault(&mut by_keys, error)?;
        }
    }
    add_by_keys(out, by_keys.as_str())
}

/// Answers with a fault: `fault exports:/a line 2 rule 26 Contradiction line 1 address 10.0.0.5`.
pub fn say_fault(out: &mut String, error: ReadError<SiteFault>) -> Asked {
    match error {
        ReadError::Memory => Err(AllocError),
        ReadError::Fault(fault) => {
            write!(out, "{fault}")?;
            Ok(true)
        }
    }
}

/// `warnings`: the warnings of the policy, in order, with `; ` between them, each its file, its line, its kind and its
/// word; or `none`.
fn warnings(site: &Site, out: &mut String) -> Asked {
    let Some(in_force) = &site.policy else {
        return Ok(false);
    };
    for (place, warning) in in_force.policy().warnings().iter().enumerate() {
        if place > 0 {
            out.push_str("; ")?;
        }
        add_warning(out, warning)?;
    }
    Ok(true)
}

fn add_warning(out: &mut String, warning: &Warning) -> Result<(), AllocError> {
    let (file, line) = (warning.file.as_str(), warning.line);
    let (kind, word) = (warning.kind.name(), warning.word.as_str());
    write!(out, "{file} {line} {kind} {word}")
}
