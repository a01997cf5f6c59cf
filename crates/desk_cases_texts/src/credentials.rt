//! Questions on users, groups and credentials.

ghost use Rattle.desk_text.specs.Lines.{IsReadable};

use crate::answers::{Asked, add_texts, end_list, number, numbers, say_each, say_whether, split};
use crate::site::{Site, set};
use desk_tables::{Cred, CredFault, Group, Groups, User, Users, credential, has_fault};
use std::alloc::Global;

/// Answers a question on users, groups or credentials. `users TEXT` and `groups TEXT`: `read`, or the fault.
pub fn answer(alloc: Global, site: &mut Site, out: &mut String, question: &str, text: &str) -> Asked
    requires { IsReadable text.now }
{
    match question {
        "users" => set(&mut site.users, out, Users::read(alloc, text)),
        "groups" => set(&mut site.groups, out, Groups::read(alloc, text)),
        "user" => user(out, site.users.by_name(text)),
        "uid" => uid(&site.users, out, text),
        "group" => group(out, site.groups.by_name(text)),
        "member" => member(&site.groups, out, text),
        "credential" => read(site, out, text),
        "faults" => faults(site, out, text),
        "with_group" => with_group(out, text),
        _ => Ok(false),
    }
}

/// `user NAME`: the user's name, uid and gid, or `none`.
fn user(out: &mut String, found: Option<&User>) -> Asked {
    if let Some(user) = found {
        let (name, uid, gid) = (user.name.as_str(), user.uid, user.gid);
        write!(out, "{name} {uid} {gid}")?;
    }
    Ok(true)
}

/// `uid NUMBER`: the same of the first user with this uid.
fn uid(users: &Users, out: &mut String, text: &str) -> Asked {
    match number(text) {
        Some(uid) => user(out, users.by_uid(uid)),
        None => Ok(false),
    }
}

/// `group NAME`: its gid and members, or `none`.
fn group(out: &mut String, found: Option<&Group>) -> Asked {
    if let Some(group) = found {
        let gid = group.gid;
        write!(out, "{gid} ")?;
        add_texts(out, group.members.as_slice())?;
    }
    end_list(out)
}

/// `member GROUP NAME`: `yes` or `no`.
fn member(groups: &Groups, out: &mut String, text: &str) -> Asked {
    let (group, name) = split(text);
    match groups.by_name(group) {
        Some(group) => say_whether(out, group.has_member(name)),
        None => Ok(false),
    }
}

/// `credential TEXT`: the credential, or `fault NUMBER`.
fn read(site: &Site, out: &mut String, text: &str) -> Asked {
    match credential(&site.users, &site.groups, text) {
        Ok(cred) => write!(out, "{cred}")?,
        Err(fault) => {
            let number = fault.number();
            write!(out, "fault {number}")?;
        }
    }
    Ok(true)
}

/// `faults TEXT`: the numbers of all faults of a credential text, or `none`.
fn faults(site: &Site, out: &mut String, text: &str) -> Asked {
    for fault in [
        CredFault::UnknownUser,
        CredFault::UnknownGroup,
        CredFault::TooManyGroups,
        CredFault::EmptyElement,
        CredFault::Range,
    ] {
        if has_fault(&site.users, &site.groups, text, fault) {
            let number = fault.number();
            write!(out, "{number} ")?;
        }
    }
    end_list(out)
}

/// `with_group UID GID`: the credential of a user with one group, its groups as they are printed, and each.
fn with_group(out: &mut String, text: &str) -> Asked {
    let Some((uid, gid)) = numbers(text) else {
        return Ok(false);
    };
    let cred = Cred::with_group(uid, gid);
    let gids = &cred.gids;
    write!(out, "{cred} {gids} ")?;
    say_each(out, gids.as_slice())
}
