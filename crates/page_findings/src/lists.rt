//! The lists of lines that decide for some clients, each made once.

ghost use Rattle.std.specs.Prelude.{◌≡◌, [], IfOk, List, map};
ghost use Rattle.desk_text.specs.Address.{number_of};
ghost use Rattle.desk_text.specs.Laws.{IsSetOf};
ghost use Rattle.desk_policy.specs.Keys.{HasBlock};
ghost use Rattle.desk_impact.specs.Sections.{PlaceBreaches, section_value};
ghost use Rattle.page_findings.specs.PrivateDeciding.{AddsList, AllInOrder, AreKnown, HasMore, lines_between, lines_for, lines_on};

use crate::naming::{push_between, sorted};
use desk_exports::Clients;
use desk_impact::Section;
use desk_policy::Row;
use desk_text::{Addr, Sequence};
use std::alloc::{AllocError, Global};
use std::collections::BTreeMap;

/// Lists of lines that decide for some clients. Those for networks have their places by first and last addresses, and those for hosts
/// by their addresses.
#[derive(Drop)]
pub(crate) struct Lists<'a> {
    lists: Sequence<Sequence<u32>>,
    networks: BTreeMap<(u32, u32), usize>,
    hosts: BTreeMap<&'a [Addr], usize>,
}

impl<'a> Lists<'a> {
    /// Makes no lists.
    pub(crate) fn new(alloc: Global) -> Lists<'a>
        ensures none { result.lists ≡ [] }
        ensures known { (places : List PlaceBreaches) → AreKnown places result }
    {
        Lists {
            lists: Sequence::new(alloc),
            networks: BTreeMap::new(alloc),
            hosts: BTreeMap::new(alloc),
        }
    }

    /// Gives the lists away.
    pub(crate) fn into_lists(self) -> Sequence<Sequence<u32>>
        ensures { result ≡ self.entry.lists }
    {
        let Lists {
            lists,
            networks: _,
            hosts: _,
        } = self;
        lists
    }

    /// Finds the place of the list of a line's clients, which is made if it is not there yet.
    pub(crate) fn place_for_clients(
        &mut self,
        alloc: Global,
        sections: &[Section<'_>],
        row: &'a Row,
    ) -> Result<usize, AllocError>
        requires { AllInOrder (map section_value sections.now) }
        ensures block { HasBlock row.now.entry.clients }
        ensures has { IfOk result (λ place.
            HasMore (map section_value sections.now) self.old self.new place (lines_for row.now.entry.clients row.now.addrs (map section_value sections.now))) }
    {
        match &row.entry.clients {
            Clients::Hosts(_) => self.place_for_addresses(alloc, sections, row.addrs.as_slice()),
            Clients::Net(net, _) => self.place_for_network(
                alloc,
                sections,
                net.first(),
                net.last(),
            ),
            Clients::Net6(_) => self.place_for_addresses(alloc, sections, &[]),
            Clients::World => {
                let first = Addr::from_number(0);
                let last = Addr::from_number(u32::MAX);
                self.place_for_network(alloc, sections, first, last)
            }
        }
    }

    /// Finds the place of the list of the addresses from the first to the last, or makes it.
    fn place_for_network(
        &mut self,
        alloc: Global,
        sections: &[Section<'_>],
        first: Addr,
        last: Addr,
    ) -> Result<usize, AllocError>
        requires { AllInOrder (map section_value sections.now) }
        ensures { IfOk result (λ place.
            HasMore (map section_value sections.now) self.old self.new place (lines_between (number_of first) (number_of last) (map section_value sections.now))) }
    {
        let key = (first.number(), last.number());
        if let Some(place) = self.networks.get(&key) {
            return Ok(*place);
        }
        let list = list_between(alloc, sections, first, last)?;
        let place = self.add(list)?;
        self.networks.insert(key, place)?;
        Ok(place)
    }

    /// Finds the place of the list of these addresses, or makes it.
    fn place_for_addresses(
        &mut self,
        alloc: Global,
        sections: &[Section<'_>],
        addresses: &'a [Addr],
    ) -> Result<usize, AllocError>
        requires { AllInOrder (map section_value sections.now) }
        ensures { IfOk result (λ place.
            HasMore (map section_value sections.now) self.old self.new place (lines_on (map number_of addresses.now) (map section_value sections.now))) }
    {
        if let Some(place) = self.hosts.get(&addresses) {
            return Ok(*place);
        }
        let list = list_on(alloc, sections, addresses)?;
        let place = self.add(list)?;
        self.hosts.insert(addresses, place)?;
        Ok(place)
    }

    /// Adds a list, and gives its place.
    fn add(&mut self, list: Vec<u32>) -> Result<usize, AllocError>
        ensures { IfOk result (λ place. AddsList self.old self.new place list.items) }
    {
        let place = self.lists.len();
        self.lists.push(Sequence::from_vec(list))?;
        Ok(place)
    }
}

/// Lists the lines that verdicts name at the addresses from the first to the last.
fn list_between(
    alloc: Global,
    sections: &[Section<'_>],
    first: Addr,
    last: Addr,
) -> Result<Vec<u32>, AllocError>
    requires { AllInOrder (map section_value sections.now) }
    ensures { IfOk result (λ list. IsSetOf (lines_between (number_of first) (number_of last) (map section_value sections.now)) list.items) }
{
    let mut lines = Vec::new(alloc);
    push_between(&mut lines, sections, first, last)?;
    Ok(sorted(lines))
}

/// Lists the lines that verdicts name at these addresses.
fn list_on(
    alloc: Global,
    sections: &[Section<'_>],
    addresses: &[Addr],
) -> Result<Vec<u32>, AllocError>
    requires { AllInOrder (map section_value sections.now) }
    ensures { IfOk result (λ list. IsSetOf (lines_on (map number_of addresses.now) (map section_value sections.now)) list.items) }
{
    let mut lines = Vec::new(alloc);
    for address in addresses {
        push_between(&mut lines, sections, *address, *address)?;
    }
    Ok(sorted(lines))
}
