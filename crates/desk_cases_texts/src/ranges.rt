//! Questions on who may mount a directory, by ranges of addresses, and on what another policy would change. Each is asked of
//! both views; if the index answers something else, both are told (`add_by_keys`).

use crate::answers::{Asked, say};
use crate::indexes::add_by_keys;
use crate::listings::say_lines;
use crate::site::{Before, InForce, Site};
use desk_impact::{impact, impact_text, those_that_matter};
use desk_index::Index;
use desk_policy::{Plain, PolicyView};
use desk_text::Path;
use desk_who::{who, who_text};
use std::alloc::Global;

/// Answers a question on ranges of addresses.
pub fn answer(
    alloc: Global,
    site: &mut Site,
    out: &mut String,
    question: &str,
    text: &str,
) -> Asked {
    match question {
        "before" => set_before(site, out, text),
        "who" => ranges(alloc, site, out, text),
        "impact" => changes(alloc, site, out, text, false),
        "matters" => changes(alloc, site, out, text, true),
        _ => Ok(false),
    }
}

/// `before`: `kept`. Sets the views in force aside: what the policy that is set next changes is asked against them.
fn set_before(site: &mut Site, out: &mut String, text: &str) -> Asked {
    if !text.is_empty() {
        return Ok(false);
    }
    match (site.policy.take(), site.index.take()) {
        (Some(InForce::View(plain)), Some(index)) => {
            site.before = Some(Before { plain, index });
            say(out, "kept")
        }
        _ => Ok(false),
    }
}

/// `who DIR`: the printed ranges of addresses and their verdicts on a directory, with `|` for each line feed.
fn ranges(alloc: Global, site: &Site, out: &mut String, text: &str) -> Asked {
    let (Some(InForce::View(plain)), Some(index)) = (&site.policy, &site.index) else {
        return Ok(false);
    };
    match Path::read(alloc, text) {
        Ok(path) => say_both_ranges(alloc, plain, index, out, &path),
        Err(_) => Ok(false),
    }
}

fn say_both_ranges(
    alloc: Global,
    plain: &Plain,
    index: &Index,
    out: &mut String,
    path: &Path,
) -> Asked {
    say_ranges(alloc, plain, out, path)?;
    let mut by_keys = String::new(alloc);
    say_ranges(alloc, index, &mut by_keys, path)?;
    add_by_keys(out, by_keys.as_str())
}

/// Answers with the ranges of a directory under a view.
fn say_ranges<V: PolicyView>(alloc: Global, view: &V, out: &mut String, path: &Path) -> Asked {
    let ranges = who(alloc, view, path)?;
    let text = who_text(alloc, view.policy(), ranges.as_slice())?;
    say_lines(out, text.as_str())
}

/// `impact DIR`: the printed ranges of addresses of whose mount of a directory the views in force say something else than those
/// that were set aside, with `|` for each line feed. `matters DIR`: of these the ones that matter to a client.
fn changes(alloc: Global, site: &Site, out: &mut String, text: &str, matters: bool) -> Asked {
    let (Some(before), Some(InForce::View(plain)), Some(index)) = (
        &site.before,
        &site.policy,
        &site.index,
    ) else {
        return Ok(false);
    };
    match Path::read(alloc, text) {
        Ok(path) => say_both_changes(alloc, before, plain, index, out, &path, matters),
        Err(_) => Ok(false),
    }
}

fn say_both_changes(
    alloc: Global,
    before: &Before,
    plain: &Plain,
    index: &Index,
    out: &mut String,
    path: &Path,
    matters: bool,
) -> Asked {
    say_changes(alloc, &before.plain, plain, out, path, matters)?;
    let mut by_keys = String::new(alloc);
    say_changes(alloc, &before.index, index, &mut by_keys, path, matters)?;
    add_by_keys(out, by_keys.as_str())
}

/// Answers with the changes between two views: all of them, or those that matter.
fn say_changes<V: PolicyView>(
    alloc: Global,
    before: &V,
    after: &V,
    out: &mut String,
    path: &Path,
    matters: bool,
) -> Asked {
    let mut changes = impact(alloc, before, after, path)?;
    if matters {
        changes = those_that_matter(alloc, changes.as_slice())?;
    }
    let text = impact_text(alloc, before.policy(), after.policy(), changes.as_slice())?;
    say_lines(out, text.as_str())
}
