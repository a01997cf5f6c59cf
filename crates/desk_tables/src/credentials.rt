//! Credentials: as whom a client acts. (exports(5))

ghost use Rattle.std.specs.Prelude.{◌≡◌, ◌==◌, ◌<◌, ◌≤◌, ◌++◌, [], ◌∷◌, length};
ghost use Rattle.std.specs.Option.{option_map};
ghost use Rattle.desk_tables.specs.Credentials.{at_most_16};
ghost use Rattle.desk_tables.specs.PrivateCredentials.{AddsOnce};

use arrayvec::ArrayVec;
use std::fmt;
use std::marker::Model;

/// Up to sixteen group numbers, in their order.
#[derive(Clone, Drop)]
pub struct GroupIds {
    items: ArrayVec<u32, 16>,
}

impl Model for GroupIds {
    ghost use Rattle.std.specs.Prelude.{◌≤◌, List, ℕ, length};

    ghost Value = { List ℕ };

    ghost view = { λ g. g.items.items };

    ghost invariant = { λ g. length g.items.items ≤ 16 };
}

impl GroupIds {
    /// Lends the group numbers, of which there are at most sixteen.
    pub fn as_slice(&self) -> &[u32]
        ensures value { result.now ≡ self.now }
        ensures few { length result.now ≤ 16 }
    {
        self.items.as_slice()
    }

    /// Makes the list of these numbers; there is none of more than sixteen.
    pub fn from_slice(gids: &[u32]) -> Option<GroupIds>
        ensures { result ≡ at_most_16 gids.now }
    {
        if gids.len() > 16 {
            return None;
        }
        let mut items = GroupIds::none();
        for gid in gids {
            items.push(*gid);
        }
        Some(items)
    }

    /// Makes the list of one group number.
    pub(crate) fn of(gid: u32) -> GroupIds
        ensures { result ≡ gid ∷ [] }
    {
        let mut gids = GroupIds {
            items: ArrayVec::new(),
        };
        gids.push(gid);
        gids
    }

    /// Makes the list of no group numbers.
    pub(crate) fn none() -> GroupIds
        ensures { result ≡ [] }
    {
        GroupIds {
            items: ArrayVec::new(),
        }
    }

    /// Tests whether there are sixteen group numbers.
    pub(crate) fn is_full(&self) -> bool
        ensures { result ≡ (length self.now == 16) }
    {
        self.items.is_full()
    }

    /// Adds a group number; there is room for it.
    pub(crate) fn push(&mut self, gid: u32)
        requires { length self.old < 16 }
        ensures { self.new ≡ self.old ++ gid ∷ [] }
    {
        self.items.push(gid);
    }

    /// Adds a group number that is not among them yet, and tells whether there was room for it.
    pub(crate) fn insert_distinct(&mut self, gid: u32) -> bool
        ensures adds { AddsOnce result self.old gid self.new }
        ensures few { length self.old ≤ 16 → length self.new ≤ 16 }
    {
        if self.as_slice().contains(&gid) {
            return true;
        }
        if self.items.is_full() {
            return false;
        }
        self.push(gid);
        true
    }
}

/// A user's number and the numbers of its groups.
#[derive(Clone, Drop)]
pub struct Cred {
    pub uid: u32,
    pub gids: GroupIds,
}

impl Cred {
    /// Makes the credential of these numbers; there is none with more than sixteen groups.
    pub fn of_numbers(uid: u32, gids: &[u32]) -> Option<Cred>
        ensures { result ≡ option_map (λ ids. record { uid = uid; gids = ids }) (at_most_16 gids.now) }
    {
        let gids = GroupIds::from_slice(gids)?;
        Some(Cred { uid, gids })
    }

    /// Makes the credential of a user with one group.
    pub fn with_group(uid: u32, gid: u32) -> Cred
        ensures { result ≡ record { uid = uid; gids = gid ∷ [] } }
    {
        Cred {
            uid,
            gids: GroupIds::of(gid),
        }
    }
}

/// Prints the group numbers in decimal, with colons between them.
impl fmt::Display for GroupIds {
    ghost use Rattle.std.specs.Prelude.{Some};
    ghost use Rattle.desk_tables.specs.Credentials.{gids_text};

    ghost output = { λ g. Some (gids_text g) };

    fn fmt<W: fmt::Write>(&self, f: &mut fmt::Formatter<W>) -> fmt::Result {
        let Some((first, others)) = self.as_slice().split_first() else {
            return Ok(());
        };
        write!(f, "{first}")?;
        for gid in others {
            write!(f, ":{gid}")?;
        }
        Ok(())
    }
}

/// Prints the number of the user, a colon, and the group numbers with colons between them, as `0:10`; `3:` if there are none.
impl fmt::Display for Cred {
    ghost use Rattle.std.specs.Prelude.{Some};
    ghost use Rattle.desk_tables.specs.Credentials.{cred_text};

    ghost output = { λ c. Some (cred_text c) };

    fn fmt<W: fmt::Write>(&self, f: &mut fmt::Formatter<W>) -> fmt::Result {
        let Cred { uid, gids } = self;
        write!(f, "{uid}:{gids}")
    }
}
