//! Credential texts: a user, or a user and groups. (exports(5))
//!
//! Each fault is asked of the text by itself, so that an exports line can ask each of its rules by itself; the first in the
//! order of their numbers is reported.

ghost use Rattle.std.specs.Prelude.{◌≡◌, ◌==◌, ◌≤◌, ◌&&◌, IfSome, List, Ok, Some, [], find, is_none, length};
ghost use Rattle.std.specs.List.{filter_map, list_any};
ghost use Rattle.std.specs.Option.{option_copied};
ghost use Rattle.desk_tables.specs.CredentialText.{lone_user_breaks, cred_breaks, cred_fault_number, cred_faults, elements, gid_of, is_name, is_out_of_range, read_credential, uid_of, user_named, user_and_groups_breaks};
ghost use Rattle.desk_tables.specs.PrivateCredentialText.{AreSoundGids, lone_user_answer, sound_gid, sound_uid, user_and_groups_answer};
ghost use Rattle.desk_tables.specs.Groups.{group_of_name};
ghost use Rattle.desk_tables.specs.Users.{user_of_name};
ghost use Rattle.desk_tables.specs.declared.credential_text.CredFault.TheVariants.{TooManyGroups};
ghost use Rattle.desk_tables.specs.declared.groups.Group.{Group};

use crate::colon_lines::read_number;
use crate::credentials::{Cred, GroupIds};
use crate::groups::Groups;
use crate::users::{User, Users};
use desk_text::is_digits;
use thiserror::Error;

/// Why a text is not a credential. Of several faults the first in this order is reported.
#[derive(Clone, Copy, Debug, PartialEq, Eq, Error)]
pub enum CredFault {
    #[error("no user has this name or number")]
    UnknownUser,
    #[error("no group has this name")]
    UnknownGroup,
    #[error("there are more than sixteen groups")]
    TooManyGroups,
    #[error("a name or a number is empty")]
    EmptyElement,
    #[error("a number is not a decimal up to 4294967295")]
    Range,
}

impl CredFault {
    /// Returns the number of the fault, from 1.
    pub fn number(self) -> u32
        ensures { result ≡ cred_fault_number self }
    {
        self as u32 + 1
    }
}

/// The most groups that a credential has.
const MOST_GROUPS: usize = 16;

/// The faults, in the order in which they are checked.
const CRED_FAULTS: [CredFault; 5] = [
    CredFault::UnknownUser,
    CredFault::UnknownGroup,
    CredFault::TooManyGroups,
    CredFault::EmptyElement,
    CredFault::Range,
];

/// Reads a credential: a user alone, with its own gid and those of the groups that list it; or a user and groups with
/// colons between them, as they are written. Users and groups are names or numbers; `user:` has no groups.
pub fn credential(users: &Users, groups: &Groups, text: &str) -> Result<Cred, CredFault>
    ensures { Some result ≡ read_credential users.now groups.now text.now }
{
    match text.split_once(':') {
        None => lone_user(users, groups, text),
        Some((user, others)) => {
            if others.is_empty() {
                without_groups(users, groups, user)
            } else {
                with_groups(users, groups, user, others)
            }
        }
    }
}

/// Reads the credential of a user alone.
fn lone_user(users: &Users, groups: &Groups, user: &str) -> Result<Cred, CredFault>
    ensures { Some result ≡ lone_user_answer users.now groups.now user.now }
{
    if user.is_empty() {
        return Err(CredFault::EmptyElement);
    }
    if is_out_of_range(user) {
        return Err(CredFault::Range);
    }
    let Some(user) = user_named(users, user) else {
        return Err(CredFault::UnknownUser);
    };
    match groups.gids_of(user) {
        Some(gids) => Ok(Cred {
            uid: user.uid,
            gids,
        }),
        None => Err(CredFault::TooManyGroups),
    }
}

/// Finds the user for which an element alone stands.
fn user_named<'a>(users: &'a Users, element: &str) -> Option<&'a User>
    ensures { option_copied result ≡ user_named users.now element.now }
{
    if is_digits(element) {
        let uid = read_number(element)?;
        return users.by_uid(uid);
    }
    if element.is_empty() {
        return None;
    }
    users.by_name(element)
}

/// Reads the credential of a user with no groups.
fn without_groups(users: &Users, groups: &Groups, user: &str) -> Result<Cred, CredFault>
    ensures { Some result ≡ user_and_groups_answer users.now groups.now user.now [] }
{
    if user.is_empty() {
        return Err(CredFault::EmptyElement);
    }
    if is_out_of_range(user) {
        return Err(CredFault::Range);
    }
    match uid_of(users, user) {
        Some(uid) => Ok(Cred {
            uid,
            gids: GroupIds::none(),
        }),
        None => Err(CredFault::UnknownUser),
    }
}

/// Reads the credential of a user and the groups that others names.
fn with_groups(users: &Users, groups: &Groups, user: &str, others: &str) -> Result<Cred, CredFault>
    ensures { Some result ≡ user_and_groups_answer users.now groups.now user.now (elements others.now) }
{
    // Most have no fault, which one walk tells.
    if let Some(cred) = sound_credential(users, groups, user, others) {
        return Ok(cred);
    }
    if let Some(fault) = user_and_groups_fault(users, groups, user, others) {
        return Err(fault);
    }
    match uid_of(users, user) {
        Some(uid) => Ok(Cred {
            uid,
            gids: gids_in(groups, others),
        }),
        None => Err(CredFault::UnknownUser),
    }
}

/// Reads the credential of a user and the groups that others names, if none of them has a fault.
fn sound_credential(users: &Users, groups: &Groups, user: &str, others: &str) -> Option<Cred>
    ensures { IfSome result (λ cred. user_and_groups_answer users.now groups.now user.now (elements others.now) ≡ Some (Ok cred)) }
{
    let uid = sound_uid(users, user)?;
    let gids = sound_gids(groups, others)?;
    Some(Cred { uid, gids })
}

/// Finds the number of a user, if the element is not empty.
fn sound_uid(users: &Users, user: &str) -> Option<u32>
    ensures { result ≡ sound_uid users.now user.now }
{
    if user.is_empty() {
        return None;
    }
    uid_of(users, user)
}

/// Lists the numbers of the groups that a text names, if each of them has one and they are at most sixteen.
fn sound_gids(groups: &Groups, others: &str) -> Option<GroupIds>
    ensures { IfSome result (AreSoundGids groups.now (elements others.now)) }
{
    let mut gids = GroupIds::none();
    for element in others.split(':') {
        if gids.is_full() {
            return None;
        }
        gids.push(sound_gid(groups, element)?);
    }
    Some(gids)
}

/// Finds the number of a group, if the element is not empty.
fn sound_gid(groups: &Groups, element: &str) -> Option<u32>
    ensures { result ≡ sound_gid groups.now element.now }
{
    if element.is_empty() {
        return None;
    }
    gid_of(groups, element)
}

/// Finds the first fault of a user and the groups that others names.
fn user_and_groups_fault(
    users: &Users,
    groups: &Groups,
    user: &str,
    others: &str,
) -> Option<CredFault>
    ensures { result ≡ find (user_and_groups_breaks users.now groups.now user.now (elements others.now)) cred_faults }
{
    CRED_FAULTS.iter().copied().find(|fault| user_and_groups_breaks(
        users, groups, user, others, *fault,
    ))
}

/// Tests whether a text has a fault, whatever other faults it has.
pub fn has_fault(users: &Users, groups: &Groups, text: &str, fault: CredFault) -> bool
    ensures { result ≡ cred_breaks users.now groups.now (elements text.now) fault }
{
    match text.split_once(':') {
        None => lone_user_breaks(users, groups, text, fault),
        Some((user, others)) => {
            if others.is_empty() {
                without_groups_breaks(users, user, fault)
            } else {
                user_and_groups_breaks(users, groups, user, others, fault)
            }
        }
    }
}

/// Tests whether a user alone has a fault.
fn lone_user_breaks(users: &Users, groups: &Groups, user: &str, fault: CredFault) -> bool
    ensures { result ≡ lone_user_breaks users.now groups.now user.now fault }
{
    match fault {
        CredFault::UnknownUser => {
            !user.is_empty() && !is_out_of_range(user) && user_named(users, user).is_none()
        }
        CredFault::UnknownGroup => false,
        CredFault::TooManyGroups => has_many_groups(users, groups, user),
        CredFault::EmptyElement => user.is_empty(),
        CredFault::Range => is_out_of_range(user),
    }
}

/// Tests whether a user alone has more than sixteen groups.
fn has_many_groups(users: &Users, groups: &Groups, user: &str) -> bool
    ensures { result ≡ lone_user_breaks users.now groups.now user.now TooManyGroups }
{
    match user_named(users, user) {
        Some(user) => groups.gids_of(user).is_none(),
        None => false,
    }
}

/// Tests whether a user with no groups has a fault.
fn without_groups_breaks(users: &Users, user: &str, fault: CredFault) -> bool
    ensures { (groups : List Group) → result ≡ user_and_groups_breaks users.now groups user.now [] fault }
{
    match fault {
        CredFault::UnknownUser => is_unknown_user(users, user),
        CredFault::UnknownGroup | CredFault::TooManyGroups => false,
        CredFault::EmptyElement => user.is_empty(),
        CredFault::Range => is_out_of_range(user),
    }
}

/// Tests whether a user and the groups that others names have a fault.
fn user_and_groups_breaks(
    users: &Users,
    groups: &Groups,
    user: &str,
    others: &str,
    fault: CredFault,
) -> bool
    ensures { result ≡ user_and_groups_breaks users.now groups.now user.now (elements others.now) fault }
{
    match fault {
        CredFault::UnknownUser => is_unknown_user(users, user),
        CredFault::UnknownGroup => any_unknown_group(groups, others),
        CredFault::TooManyGroups => element_count(others) > MOST_GROUPS,
        CredFault::EmptyElement => user.is_empty() || any_empty(others),
        CredFault::Range => is_out_of_range(user) || any_out_of_range(others),
    }
}

fn is_unknown_user(users: &Users, user: &str) -> bool
    ensures { result ≡ (is_name user.now && is_none (user_of_name users.now user.now)) }
{
    is_name(user) && users.by_name(user).is_none()
}

fn element_count(text: &str) -> usize
    ensures { result ≡ length (elements text.now) }
{
    text.split(':').count()
}

fn any_unknown_group(groups: &Groups, others: &str) -> bool
    ensures { result ≡ list_any (λ e. is_name e && is_none (group_of_name groups.now e)) (elements others.now) }
{
    others
        .split(':')
        .any(|element| is_unknown_group(groups, element))
}

fn is_unknown_group(groups: &Groups, element: &str) -> bool
    ensures { result ≡ (is_name element.now && is_none (group_of_name groups.now element.now)) }
{
    is_name(element) && groups.by_name(element).is_none()
}

fn any_empty(others: &str) -> bool
    ensures { result ≡ list_any (λ e. length e == 0) (elements others.now) }
{
    others.split(':').any(|element| element.is_empty())
}

fn any_out_of_range(others: &str) -> bool
    ensures { result ≡ list_any is_out_of_range (elements others.now) }
{
    others.split(':').any(|element| is_out_of_range(element))
}

/// Tests whether an element consists of digits but is not a number.
fn is_out_of_range(element: &str) -> bool
    ensures { result ≡ is_out_of_range element.now }
{
    is_digits(element) && read_number(element).is_none()
}

/// Tests whether an element is a name: it is not empty, and does not consist of digits.
fn is_name(element: &str) -> bool
    ensures { result ≡ is_name element.now }
{
    !is_digits(element) && !element.is_empty()
}

/// Finds the number of a user, which is written or that of its name.
fn uid_of(users: &Users, element: &str) -> Option<u32>
    ensures { result ≡ uid_of users.now element.now }
{
    if is_digits(element) {
        return read_number(element);
    }
    users.by_name(element).map(|user| user.uid)
}

/// Finds the number of a group, which is written or that of its name.
fn gid_of(groups: &Groups, element: &str) -> Option<u32>
    ensures { result ≡ gid_of groups.now element.now }
{
    if is_digits(element) {
        return read_number(element);
    }
    groups.by_name(element).map(|group| group.gid)
}

/// Lists the numbers of the groups that a text names, of which there are at most sixteen.
fn gids_in(groups: &Groups, others: &str) -> GroupIds
    requires { length (elements others.now) ≤ 16 }
    ensures { result ≡ filter_map (gid_of groups.now) (elements others.now) }
{
    let mut gids = GroupIds::none();
    for element in others.split(':') {
        if let Some(gid) = gid_of(groups, element) {
            gids.push(gid);
        }
    }
    gids
}
