//! The groups of a netgroup file. (netgroup(5))

ghost use Rattle.std.specs.Prelude.{◌≡◌, [], ◌∷◌, ◌++◌, IfOk, MatchOption, None, IfSome, IsSome, map, string_bytes};
ghost use Rattle.std.specs.List.{All};
ghost use Rattle.std.specs.Option.{option_copied};
ghost use Rattle.desk_text.specs.Lines.{IsReadable};
ghost use Rattle.desk_text.specs.Reading.{Reads};
ghost use Rattle.desk_netgroup.specs.Faults.{IsPlaced};
ghost use Rattle.desk_netgroup.specs.GroupLine.{group_named};
ghost use Rattle.desk_netgroup.specs.Netgroups.{AreDistinct, AreHostsOf, netgroup_faults, read_netgroups};
ghost use Rattle.desk_netgroup.specs.Walk.{hosts_in_order};

use crate::faults::{GroupFault, PlacedFault};
use crate::group_line::GroupLine;
use crate::index::{add_first, line_at};
use crate::line::read_line;
use crate::slices::with_place;
use crate::walk::{distinct_copies, met_hosts};
use desk_text::{ReadError, Sequence, logical_lines};
use std::alloc::{AllocError, Global};
use std::collections::BTreeMap;
use std::marker::Model;

/// The groups that the lines of a netgroup file define, in order, with the place of each by name.
pub struct Netgroups {
    lines: Sequence<GroupLine>,
    index: BTreeMap<String, usize>,
}

// It is written out, so that the crates above do not prove again how each part is dropped.
impl Drop for Netgroups {
    fn drop(self) {
        let Netgroups { lines: _, index: _ } = self;
    }
}

impl Model for Netgroups {
    ghost use Rattle.std.specs.Prelude.{List};
    ghost use Rattle.desk_netgroup.specs.PrivateIndex.{HasNames};
    ghost use Rattle.desk_netgroup.specs.declared.group_line.GroupLine.{GroupLine};

    ghost Value = { List GroupLine };

    ghost view = { λ groups. groups.lines };

    ghost invariant = { λ groups. HasNames groups.lines groups.index };
}

impl Netgroups {
    /// Makes the groups of an empty file.
    pub fn new(alloc: Global) -> Netgroups
        ensures { result ≡ [] }
    {
        Netgroups {
            lines: Sequence::new(alloc),
            index: BTreeMap::new(alloc),
        }
    }

    /// Reads a netgroup file: on each line a name, and members, each a group's name or a triple
    /// `(host,user,domain)`. The first faulty line is refused with the first rule that it breaks. The
    /// text has at most 4,294,967,294 bytes. (netgroup(5))
    pub fn read(alloc: Global, text: &str) -> Result<Netgroups, ReadError<GroupFault>>
        requires { IsReadable text.now }
        ensures { Reads result (read_netgroups text.now) }
    {
        let lines = logical_lines(alloc, text)?;
        let mut groups = Netgroups::new(alloc);
        for line in &lines {
            let group = read_line(alloc, line, &groups)?;
            groups = groups.with_group(alloc, group)?;
        }
        Ok(groups)
    }

    /// Finds the faults of a netgroup file: all its faulty lines, in order, each with the first rule that it breaks after
    /// the groups that the earlier good lines define, and the place of the slice at fault. `read` reports the first of them.
    pub fn faults(alloc: Global, text: &str) -> Result<Sequence<PlacedFault>, AllocError>
        requires { IsReadable text.now }
        ensures faults { IfOk result (λ found. map (λ one. one.fault) found ≡ netgroup_faults text.now) }
        ensures placed { IfOk result (All (IsPlaced text.now)) }
    {
        let lines = logical_lines(alloc, text)?;
        let mut groups = Netgroups::new(alloc);
        let mut found = Sequence::new(alloc);
        for line in &lines {
            match ReadError::split(read_line(alloc, line, &groups))? {
                Ok(group) => groups = groups.with_group(alloc, group)?,
                Err(fault) => found.push(with_place(alloc, line, fault)?)?,
            }
        }
        drop(groups);
        Ok(found)
    }

    /// Finds the hosts of a group, with those of its member groups at any depth: without duplicates, in the
    /// order in which they are first met, depth first and from left to right. A member group that is
    /// not defined adds nothing, nor does one that was entered before. None if the group itself is
    /// not defined. (netgroup(5))
    pub fn hosts_of(&self, alloc: Global, name: &str) -> Result<Option<Vec<String>>, AllocError>
        ensures defined { IfOk result (λ answer. MatchOption answer (group_named self.now name.now ≡ None) (λ hosts. IsSome (group_named self.now name.now))) }
        ensures hosts { IfOk result (λ answer. IfSome answer (λ hosts. AreHostsOf self.now name.now (map string_bytes hosts.items))) }
        ensures order { IfOk result (λ answer. IfSome answer (λ hosts. map string_bytes hosts.items ≡ hosts_in_order self.now name.now)) }
        ensures once { IfOk result (λ answer. IfSome answer (λ hosts. AreDistinct (map string_bytes hosts.items))) }
    {
        if self.group(name).is_none() {
            return Ok(None);
        }
        let met = met_hosts(alloc, self, name)?;
        Ok(Some(distinct_copies(alloc, met.as_slice())?))
    }

    /// Gives the lines, each of which defines a group, in order.
    pub fn lines(&self) -> &[GroupLine]
        ensures { result.now ≡ self.now }
    {
        self.lines.as_slice()
    }

    /// Finds the line that defines a group.
    pub fn group(&self, name: &str) -> Option<&GroupLine>
        ensures { option_copied result ≡ group_named self.now name.now }
    {
        line_at(self.lines.as_slice(), self.index.get(name))
    }

    /// Gives the groups with one more at the end.
    fn with_group(self, alloc: Global, group: GroupLine) -> Result<Netgroups, AllocError>
        ensures { IfOk result (λ groups. groups ≡ self ++ group ∷ []) }
    {
        let Netgroups {
            mut lines,
            mut index,
        } = self;
        let place = lines.as_slice().len();
        add_first(alloc, &mut index, group.name.as_str(), place)?;
        lines.push(group)?;
        Ok(Netgroups { lines, index })
    }
}
