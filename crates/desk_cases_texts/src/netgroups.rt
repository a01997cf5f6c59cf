//! Questions on the netgroup file.

ghost use Rattle.desk_text.specs.Lines.{IsReadable};

use crate::answers::{Asked, end_list, say, say_each};
use crate::site::Site;
use desk_netgroup::{GroupFault, GroupLine, Member, Netgroups, Token};
use desk_policy::addresses_of;
use desk_tables::Hosts;
use desk_text::ReadError;
use std::alloc::{AllocError, Global};

/// Answers a question on the netgroup file. `tokens TEXT`: its tokens.
pub fn answer(alloc: Global, site: &mut Site, out: &mut String, question: &str, text: &str) -> Asked
    requires { IsReadable text.now }
{
    match question {
        "netgroups" => read(alloc, site, out, text),
        "groups_of" => lines(site.netgroups.lines(), out),
        "hosts_of" => hosts_of(alloc, &site.netgroups, out, text),
        "stands_for" => stands_for(alloc, &site.netgroups, &site.hosts, out, text),
        "tokens" => tokens(alloc, out, text),
        _ => Ok(false),
    }
}

/// `netgroups TEXT`: `read`, or the fault with the earlier line of a name that is listed twice.
fn read(alloc: Global, site: &mut Site, out: &mut String, text: &str) -> Asked
    requires { IsReadable text.now }
{
    match Netgroups::read(alloc, text) {
        Ok(netgroups) => {
            site.netgroups = netgroups;
            say(out, "read")
        }
        Err(error) => say_fault(out, error),
    }
}

fn say_fault(out: &mut String, error: ReadError<GroupFault>) -> Asked {
    match error {
        ReadError::Memory => Err(AllocError),
        ReadError::Fault(fault) => {
            let (line, name) = (fault.line, fault.rule.name());
            write!(out, "fault line {line} {name}")?;
            if let Some(other) = fault.other {
                write!(out, " line {other}")?;
            }
            Ok(true)
        }
    }
}

/// `groups_of`: the groups of the file in order, each its line, its name and its members, and `;`.
fn lines(lines: &[GroupLine], out: &mut String) -> Asked {
    for line in lines {
        add_line(out, line)?;
    }
    Ok(true)
}

fn add_line(out: &mut String, line: &GroupLine) -> Result<(), AllocError> {
    let (number, name) = (line.line, line.name.as_str());
    write!(out, "{number} {name}")?;
    for member in line.members.as_slice() {
        add_member(out, member)?;
    }
    out.push(';')
}

fn add_member(out: &mut String, member: &Member) -> Result<(), AllocError> {
    let (kind, name) = match member {
        Member::Group(name) => ("group", name.as_str()),
        Member::Host(name) => ("host", name.as_str()),
    };
    write!(out, " {kind}:{name}")
}

/// `hosts_of NAME`: the hosts of the group, `no hosts`, or `not defined`.
fn hosts_of(alloc: Global, netgroups: &Netgroups, out: &mut String, name: &str) -> Asked {
    let Some(hosts) = netgroups.hosts_of(alloc, name)? else {
        return say(out, "not defined");
    };
    if hosts.is_empty() {
        return say(out, "no hosts");
    }
    say_each(out, hosts.as_slice())
}

/// `stands_for NAME`: the addresses for which a written name stands by the groups and the hosts, or `none`.
fn stands_for(
    alloc: Global,
    netgroups: &Netgroups,
    hosts: &Hosts,
    out: &mut String,
    name: &str,
) -> Asked {
    say_each(out, addresses_of(alloc, netgroups, hosts, name)?.as_slice())
}

/// `tokens TEXT`: its tokens, with a blank between them.
fn tokens(alloc: Global, out: &mut String, text: &str) -> Asked {
    add_tokens(out, desk_netgroup::tokens(alloc, text)?.as_slice())?;
    end_list(out)
}

fn add_tokens(out: &mut String, tokens: &[Token]) -> Result<(), AllocError> {
    for token in tokens {
        let token = match token {
            Token::Open => "(",
            Token::Close => ")",
            Token::Comma => ",",
            Token::Word(word) => word.as_str(),
        };
        write!(out, "{token} ")?;
    }
    Ok(())
}
