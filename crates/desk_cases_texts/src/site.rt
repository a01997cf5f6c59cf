//! The tables and the policy that questions are asked of.

use crate::answers::{Asked, say};
use desk_exports::Profile;
use desk_index::Index;
use desk_netgroup::Netgroups;
use desk_policy::{Plain, Policy, PolicyView, Verdict, decide};
use desk_tables::{Custodians, FileSystems, Groups, Hosts, Networks, TableFault, Users};
use desk_text::{Addr, Path, ReadError};
use std::alloc::{AllocError, Global};
use std::collections::BTreeSet;

/// What was read last. Until then a table is without rows, or there is none, and the texts of the site are empty.
#[derive(Drop)]
pub struct Site {
    /// The profile by which exports texts are read.
    pub profile: Profile,
    pub hosts: Hosts,
    pub networks: Networks,
    pub netgroups: Netgroups,
    pub users: Users,
    pub groups: Groups,
    pub filesystems: Option<FileSystems>,
    pub custodians: Option<Custodians>,
    pub texts: desk_policy::Site,
    pub policy: Option<InForce>,
    /// The policy by its keys, unless lines of it contradict each other.
    pub index: Option<Index>,
    /// The views that were set aside, against which changes are asked (`ranges`).
    pub before: Option<Before>,
    /// The keys that lines of the site had when they were asked for, as questions write them (`indexes`).
    pub keys: BTreeSet<String>,
}

/// A policy, or a view of one.
#[derive(Drop)]
pub enum InForce {
    Policy(Policy),
    View(Plain),
}

/// Both views of a policy that was in force.
#[derive(Drop)]
pub struct Before {
    pub plain: Plain,
    pub index: Index,
}

impl InForce {
    pub fn policy(&self) -> &Policy {
        match self {
            InForce::Policy(policy) => policy,
            InForce::View(view) => view.policy(),
        }
    }

    pub fn decide(&self, address: Addr, path: &Path) -> Verdict<'_> {
        match self {
            InForce::Policy(policy) => decide(policy, address, path),
            InForce::View(view) => view.decide(address, path),
        }
    }
}

impl Site {
    /// Profile 2, tables without rows, empty texts, and no policy.
    pub fn new(alloc: Global) -> Site {
        Site {
            profile: Profile::Two,
            hosts: Hosts::new(alloc),
            networks: Networks::new(alloc),
            netgroups: Netgroups::new(alloc),
            users: Users::new(alloc),
            groups: Groups::new(alloc),
            filesystems: None,
            custodians: None,
            texts: desk_policy::Site::new(alloc),
            policy: None,
            index: None,
            before: None,
            keys: BTreeSet::new(alloc),
        }
    }

    /// Puts a policy or a view in force, which is not known by its keys yet.
    pub fn put(&mut self, in_force: InForce) {
        self.policy = Some(in_force);
        self.index = None;
    }

    /// Puts the index of that policy beside it, if there is one.
    pub fn put_index(&mut self, index: Option<Index>) {
        self.index = index;
    }
}

/// Sets a table: `read`, or the fault.
pub fn set<T: Drop>(
    table: &mut T,
    out: &mut String,
    read: Result<T, ReadError<TableFault>>,
) -> Asked {
    match read {
        Ok(read) => {
            *table = read;
            say(out, "read")
        }
        Err(error) => say_fault(out, error),
    }
}

/// Sets a table of which there was none: `read`, or the fault.
pub fn set_some<T: Drop>(
    table: &mut Option<T>,
    out: &mut String,
    read: Result<T, ReadError<TableFault>>,
) -> Asked {
    match read {
        Ok(read) => {
            *table = Some(read);
            say(out, "read")
        }
        Err(error) => say_fault(out, error),
    }
}

/// Answers that a table cannot be read: `fault line 2 Fields`.
fn say_fault(out: &mut String, error: ReadError<TableFault>) -> Asked {
    match error {
        ReadError::Memory => Err(AllocError),
        ReadError::Fault(fault) => {
            let (line, name) = (fault.line, fault.rule.name());
            write!(out, "fault line {line} {name}")?;
            Ok(true)
        }
    }
}
