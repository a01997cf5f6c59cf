//! The walk through the members of a group.

ghost use Rattle.std.specs.Prelude.{◌≡◌, ◌++◌, ◌∷◌, [], IfOk, OnOk, length, map, reverse, string_bytes, suc};
ghost use Rattle.std.specs.BTreeSet.{contains_text};
ghost use Rattle.desk_netgroup.specs.GroupLine.{group_named};
ghost use Rattle.desk_netgroup.specs.Netgroups.{AreHostsOf};
ghost use Rattle.desk_netgroup.specs.PrivateWalk.{AddsNew, Enters};
ghost use Rattle.desk_netgroup.specs.Walk.{all_members, hosts_met, new_texts};
ghost use Rattle.desk_netgroup.specs.declared.group_line.Member.TheVariants.{Group};

use crate::group_line::Member;
use crate::netgroups::Netgroups;
use std::alloc::{AllocError, Global};
use std::collections::BTreeSet;

/// Walks through a group and its member groups, and gives each host as often as it is met: depth
/// first, and from left to right. Each group is entered once.
pub fn met_hosts<'a>(
    alloc: Global,
    groups: &'a Netgroups,
    name: &str,
) -> Result<Vec<&'a str>, AllocError>
    ensures hosts { IfOk result (λ v. AreHostsOf groups.now name.now (map (λ x. x.now) v.items)) }
    ensures order { IfOk result (λ v. map (λ x. x.now) v.items ≡ hosts_met (suc (length (all_members groups.now))) groups.now (Group name.now ∷ [])) }
{
    let mut entered = BTreeSet::new(alloc);
    let mut pending = Vec::new(alloc);
    let mut met = Vec::new(alloc);
    enter(alloc, groups, name, &mut entered, &mut pending)?;
    while let Some(member) = pending.pop() {
        match member {
            Member::Host(host) => met.push(host.as_str())?,
            Member::Group(group) => {
                enter(alloc, groups, group.as_str(), &mut entered, &mut pending)?;
            }
        }
    }
    Ok(met)
}

/// Enters a group, unless it is not defined or was entered before: its members are then pending, the
/// first of them on top.
fn enter<'a>(
    alloc: Global,
    groups: &'a Netgroups,
    name: &str,
    entered: &mut BTreeSet<String>,
    pending: &mut Vec<&'a Member>,
) -> Result<(), AllocError>
    ensures { OnOk result (Enters (group_named groups.now name.now) name.now (contains_text entered.old) (contains_text entered.new)
        (map (λ x. x.now) pending.old.items) (map (λ x. x.now) pending.new.items)) }
{
    let Some(line) = groups.group(name) else {
        return Ok(());
    };
    if entered.contains(name) {
        return Ok(());
    }
    entered.insert(String::from_str(alloc, name)?)?;
    push_reversed(pending, line.members.as_slice())
}

/// Adds the members so that the first of them is on top.
fn push_reversed<'a>(pending: &mut Vec<&'a Member>, members: &'a [Member]) -> Result<(), AllocError>
    ensures { OnOk result (map (λ x. x.now) pending.new.items ≡ map (λ x. x.now) pending.old.items ++ reverse members.now) }
{
    for member in members.iter().rev() {
        pending.push(member)?;
    }
    Ok(())
}

/// Gives copies of texts in the order of their first places, without duplicates.
pub fn distinct_copies(alloc: Global, texts: &[&str]) -> Result<Vec<String>, AllocError>
    ensures { IfOk result (λ v. map string_bytes v.items ≡ new_texts [] (map (λ x. x.now) texts.now)) }
{
    let mut seen = BTreeSet::new(alloc);
    let mut kept = Vec::new(alloc);
    for text in texts {
        add_new(alloc, &mut seen, &mut kept, text)?;
    }
    Ok(kept)
}

/// Adds a copy of the text, unless it was seen before.
fn add_new(
    alloc: Global,
    seen: &mut BTreeSet<String>,
    kept: &mut Vec<String>,
    text: &str,
) -> Result<(), AllocError>
    ensures { OnOk result (AddsNew text.now (contains_text seen.old) (contains_text seen.new) (map string_bytes kept.old.items) (map string_bytes kept.new.items)) }
{
    if !seen.contains(text) {
        seen.insert(String::from_str(alloc, text)?)?;
        kept.push(String::from_str(alloc, text)?)?;
    }
    Ok(())
}
