//! What the texts of a site are warned of: words that are accepted, but odd.

ghost use Rattle.std.specs.Prelude.{◌≡◌, [], ◌++◌, IfOk, None, OnOk, Some, codes, if◌then◌else◌};
ghost use Rattle.desk_policy.specs.Warning as spec;
ghost use Rattle.desk_policy.specs.declared.warning.WarningKind.TheVariants.{UnknownHost};

use crate::names::is_address_like;
use desk_exports::{Boxed, Clients, Entry, Names};
use desk_netgroup::{GroupLine, Member, Netgroups};
use desk_tables::{FsId, Hosts};
use desk_text::{Addr, Said, Sequence, Text, is_dotted, is_ipv6};
use std::alloc::{AllocError, Global};

/// What is odd about a word.
#[derive(Clone, Copy, PartialEq, Eq)]
pub enum WarningKind {
    /// A network has neither a prefix nor a mask, so that its class counts.
    ClassMask,
    /// A name or a network is of IPv6, and matches nobody.
    Ipv6,
    /// A name is not an address, a netgroup or a host.
    UnknownHost,
    /// A member of a netgroup is not defined.
    UnknownMember,
}

/// All kinds of warnings.
const KINDS: &[WarningKind] = &[
    WarningKind::ClassMask,
    WarningKind::Ipv6,
    WarningKind::UnknownHost,
    WarningKind::UnknownMember,
];

impl WarningKind {
    /// Gives all kinds, in the order of their numbers.
    pub fn all() -> &'static [WarningKind]
        ensures { result.now ≡ spec.warning_kinds }
    {
        KINDS
    }

    /// Gives the number of the kind, from 1.
    pub fn number(self) -> u32
        ensures { result ≡ spec.kind_number self }
    {
        self.said().number
    }

    /// Gives the name of the kind.
    pub fn name(self) -> &'static str
        ensures { result.now ≡ spec.kind_name self }
    {
        self.said().name
    }

    /// Gives what is said of the word that is odd, behind the word.
    pub fn sentence(self) -> &'static str
        ensures { result.now ≡ spec.kind_sentence self }
    {
        self.said().sentence
    }

    /// Gives what is printed of the kind.
    fn said(self) -> Said
        ensures number { result.number ≡ spec.kind_number self }
        ensures name { result.name.now ≡ spec.kind_name self }
        ensures sentence { result.sentence.now ≡ spec.kind_sentence self }
    {
        match self {
            WarningKind::ClassMask => Said {
                number: 1,
                name: "ClassMask",
                sentence: "has neither a prefix nor a mask, so that its class counts, by its first number (/8 up to 127, /16 up to 191, /24 up to 223): write out the prefix that you mean",
            },
            WarningKind::Ipv6 => Said {
                number: 2,
                name: "Ipv6",
                sentence: "has a colon, so it counts as IPv6 and matches nobody: write IPv4, and blanks between hosts",
            },
            WarningKind::UnknownHost => Said {
                number: 3,
                name: "UnknownHost",
                sentence: "is not an address, a known host or (outside a triple) a known netgroup, and matches nobody: correct it, or give the file that has it (--hosts, --netgroup or --site)",
            },
            WarningKind::UnknownMember => Said {
                number: 4,
                name: "UnknownMember",
                sentence: "is not a netgroup of the file, and adds nobody: define it, or write a host as (HOST,,)",
            },
        }
    }
}

/// A word of a line of a file that is accepted, but odd. Exports files are named `exports:` and their mount point, and a
/// whole exports text `exports`. The word is a member of a netgroup line, or one of the clients that an exports line writes:
/// a name or the network. Its index counts these from 0, as `member_places` of desk_netgroup and `client_places` of
/// desk_exports list them.
#[derive(Drop)]
pub struct Warning {
    pub file: Text,
    pub line: u32,
    pub kind: WarningKind,
    pub index: usize,
    pub word: Text,
}

/// Lists the warnings of a netgroup file by itself, in the order of its lines and of the members of each.
pub fn netgroup_warnings(
    alloc: Global,
    netgroups: &Netgroups,
    hosts: &Hosts,
) -> Result<Sequence<Warning>, AllocError>
    ensures { IfOk result (λ warnings. warnings ≡ spec.netgroup_warnings netgroups.now hosts.now) }
{
    let mut warnings = Sequence::new(alloc);
    push_netgroup(alloc, netgroups, hosts, &mut warnings)?;
    Ok(warnings)
}

/// Adds the warnings of the netgroup file, in the order of its lines and of the members of each.
pub(crate) fn push_netgroup(
    alloc: Global,
    netgroups: &Netgroups,
    hosts: &Hosts,
    warnings: &mut Sequence<Warning>,
) -> Result<(), AllocError>
    ensures { OnOk result (warnings.new ≡ warnings.old ++ spec.netgroup_warnings netgroups.now hosts.now) }
{
    for line in netgroups.lines() {
        push_group(alloc, netgroups, hosts, line, warnings)?;
    }
    Ok(())
}

/// Adds the warnings of a netgroup line.
fn push_group(
    alloc: Global,
    netgroups: &Netgroups,
    hosts: &Hosts,
    line: &GroupLine,
    warnings: &mut Sequence<Warning>,
) -> Result<(), AllocError>
    ensures { OnOk result (warnings.new ≡ warnings.old ++ spec.group_warnings netgroups.now hosts.now line.now) }
{
    for (index, member) in line.members.as_slice().iter().enumerate() {
        let kind = member_kind(alloc, netgroups, hosts, member)?;
        push_if(
            alloc,
            warnings,
            "netgroup",
            line.line,
            index,
            member_word(member),
            kind,
        )?;
    }
    Ok(())
}

/// Gives the word of a member.
fn member_word(member: &Member) -> &str
    ensures { result.now ≡ spec.member_word member.now }
{
    match member {
        Member::Group(name) | Member::Host(name) => name.as_str(),
    }
}

/// Tells what is odd about a member of a group, if anything is.
fn member_kind(
    alloc: Global,
    netgroups: &Netgroups,
    hosts: &Hosts,
    member: &Member,
) -> Result<Option<WarningKind>, AllocError>
    ensures { IfOk result (λ kind. kind ≡ spec.member_kind netgroups.now hosts.now member.now) }
{
    match member {
        Member::Host(name) => host_kind(alloc, hosts, name.as_str()),
        Member::Group(name) => {
            if netgroups.group(name.as_str()).is_some() {
                return Ok(None);
            }
            Ok(Some(WarningKind::UnknownMember))
        }
    }
}

/// Adds the warnings of the line of an entry in this file.
pub(crate) fn push_entry(
    alloc: Global,
    netgroups: &Netgroups,
    hosts: &Hosts,
    file: &str,
    entry: &Entry,
    warnings: &mut Sequence<Warning>,
) -> Result<(), AllocError>
    ensures { OnOk result (warnings.new ≡ warnings.old ++ spec.entry_warnings netgroups.now hosts.now file.now entry.now) }
{
    match &entry.clients {
        Clients::Hosts(names) => push_names(
            alloc, netgroups, hosts, file, entry.line, names, warnings,
        ),
        Clients::Net(_, Some(value)) => push_if(
            alloc,
            warnings,
            file,
            entry.line,
            0,
            value.as_str(),
            Some(WarningKind::ClassMask),
        ),
        Clients::Net6(value) => push_if(
            alloc,
            warnings,
            file,
            entry.line,
            0,
            value.as_str(),
            Some(WarningKind::Ipv6),
        ),
        Clients::Net(_, None) | Clients::World => Ok(()),
    }
}

/// Lists the warnings of a whole exports text.
pub fn whole_warnings(
    alloc: Global,
    netgroups: &Netgroups,
    hosts: &Hosts,
    entries: &[(FsId, Boxed<Entry>)],
) -> Result<Sequence<Warning>, AllocError>
    ensures { IfOk result (λ warnings. warnings ≡ spec.whole_warnings netgroups.now hosts.now entries.now) }
{
    let mut warnings = Sequence::new(alloc);
    for (_, entry) in entries {
        push_entry(alloc, netgroups, hosts, "exports", entry, &mut warnings)?;
    }
    Ok(warnings)
}

/// Adds the warnings of the written names of a line.
fn push_names(
    alloc: Global,
    netgroups: &Netgroups,
    hosts: &Hosts,
    file: &str,
    line: u32,
    names: &Names,
    warnings: &mut Sequence<Warning>,
) -> Result<(), AllocError>
    ensures { OnOk result (warnings.new
        ≡ warnings.old ++ spec.word_warnings file.now line (λ name. name) (spec.name_kind netgroups.now hosts.now) names.now) }
{
    for index in 0..names.len() {
        let name = names.get(index);
        let kind = name_kind(alloc, netgroups, hosts, name)?;
        push_if(alloc, warnings, file, line, index, name, kind)?;
    }
    Ok(())
}

/// Tells what is odd about a written name, if anything is.
fn name_kind(
    alloc: Global,
    netgroups: &Netgroups,
    hosts: &Hosts,
    name: &str,
) -> Result<Option<WarningKind>, AllocError>
    ensures { IfOk result (λ kind. kind ≡ spec.name_kind netgroups.now hosts.now name.now) }
{
    if !is_address_like(name) && netgroups.group(name).is_some() {
        return Ok(None);
    }
    host_kind(alloc, hosts, name)
}

/// Tells what is odd about a host's text, if anything is.
fn host_kind(alloc: Global, hosts: &Hosts, name: &str) -> Result<Option<WarningKind>, AllocError>
    ensures { IfOk result (λ kind. kind ≡ spec.host_kind hosts.now name.now) }
{
    if is_ipv6(name) {
        return Ok(Some(WarningKind::Ipv6));
    }
    if is_dotted(name) {
        return Ok(unknown_unless(Addr::read(name).is_ok()));
    }
    Ok(unknown_unless(!hosts.addresses(alloc, name)?.is_empty()))
}

/// Warns of an unknown host, unless it is known.
fn unknown_unless(is_known: bool) -> Option<WarningKind>
    ensures { result ≡ (if is_known then None else Some UnknownHost) }
{
    if is_known {
        None
    } else {
        Some(WarningKind::UnknownHost)
    }
}

/// Adds the warning of a word, if there is one.
fn push_if(
    alloc: Global,
    warnings: &mut Sequence<Warning>,
    file: &str,
    line: u32,
    index: usize,
    word: &str,
    kind: Option<WarningKind>,
) -> Result<(), AllocError>
    ensures { OnOk result (warnings.new ≡ warnings.old ++ spec.warning_if file.now line index word.now kind) }
{
    if let Some(kind) = kind {
        warnings.push(Warning {
            file: Text::copy(alloc, file)?,
            line,
            kind,
            index,
            word: Text::copy(alloc, word)?,
        })?;
    }
    Ok(())
}
