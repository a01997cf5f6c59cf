//! How a line of a netgroup file is read.

ghost use Rattle.std.specs.Prelude.{◌≡◌, ◌≤◌, ◌++◌, ◌∷◌, IfOk, IfSome, MatchOption, OnOk, length};
ghost use Rattle.std.specs.List.{list_any};
ghost use Rattle.std.specs.Option.{option_copied};
ghost use Rattle.desk_text.specs.Reading.{ReadsAs};
ghost use Rattle.desk_text.specs.declared.reading.ReadError.TheVariants.{Fault};
ghost use Rattle.desk_netgroup.specs.Faults.{after_first_word, fault_on, has_unclosed, is_comment, is_long, is_word};
ghost use Rattle.desk_netgroup.specs.GroupLine as form;
ghost use Rattle.desk_netgroup.specs.Netgroups.{unless_fault};
ghost use Rattle.desk_netgroup.specs.PrivateLine.{after_close, after_comma, after_field, after_triple, host_field, is_open_after};

use crate::faults::{GroupFault, GroupRule};
use crate::group_line::{GroupLine, Member};
use crate::netgroups::Netgroups;
use crate::token::{Token, push_tokens};
use desk_text::{Line, ReadError, Sequence, Text};
use std::alloc::{AllocError, Global};

/// The longest word, in bytes.
pub(crate) const LONGEST_WORD: usize = 255;

/// Reads the group that a line defines after earlier ones, or returns the first rule that it breaks.
pub fn read_line(
    alloc: Global,
    line: &Line,
    earlier: &Netgroups,
) -> Result<GroupLine, ReadError<GroupFault>>
    ensures { ReadsAs (λ group. Some group) result (unless_fault (form.group_on line.now) (fault_on earlier.now line.now)) }
{
    let number = line.number();
    let tokens = line_tokens(alloc, line)?;
    let tokens = tokens.as_slice();
    if has_stray_comment(tokens) {
        return Err(fault(number, GroupRule::StrayComment));
    }
    if has_unclosed(tokens) {
        return Err(fault(number, GroupRule::Unclosed));
    }
    if has_long_word(tokens) {
        return Err(fault(number, GroupRule::BadTriple));
    }
    let Some(group) = read_group(alloc, number, tokens)? else {
        return Err(fault(number, GroupRule::BadTriple));
    };
    if let Some(other) = earlier.group(group.name.as_str()) {
        return Err(ReadError::Fault(GroupFault {
            line: number,
            rule: GroupRule::Duplicate,
            other: Some(other.line),
        }));
    }
    Ok(group)
}

fn fault(line: u32, rule: GroupRule) -> ReadError<GroupFault>
    ensures { result ≡ Fault (record { line = line; rule = rule; other = None }) }
{
    ReadError::Fault(GroupFault {
        line,
        rule,
        other: None,
    })
}

/// Gives the tokens of a line.
fn line_tokens(alloc: Global, line: &Line) -> Result<Vec<Token>, AllocError>
    ensures { IfOk result (λ v. v.items ≡ form.tokens_of line.now) }
{
    let mut tokens = Vec::new(alloc);
    for part in line.parts() {
        push_tokens(alloc, &mut tokens, part.text)?;
    }
    Ok(tokens)
}

/// Tells whether a word after the first begins with `#`.
fn has_stray_comment(tokens: &[Token]) -> bool
    ensures { result ≡ list_any is_comment (after_first_word tokens.now) }
{
    has_comment(after_first_word(tokens))
}

/// Gives what stands after the first word.
fn after_first_word(tokens: &[Token]) -> &[Token]
    ensures { result.now ≡ after_first_word tokens.now }
{
    let mut rest = tokens;
    while let [token, more @ ..] = rest {
        if is_word(token) {
            return more;
        }
        rest = more;
    }
    rest
}

fn has_comment(tokens: &[Token]) -> bool
    ensures { result ≡ list_any is_comment tokens.now }
{
    tokens.iter().any(|token| is_comment(token))
}

fn is_word(token: &Token) -> bool
    ensures { result ≡ is_word token.now }
{
    matches!(token, Token::Word(_))
}

fn is_comment(token: &Token) -> bool
    ensures { result ≡ is_comment token.now }
{
    match token {
        Token::Word(word) => word.as_str().starts_with('#'),
        _ => false,
    }
}

/// Tells whether a `(` has no `)` after it.
fn has_unclosed(tokens: &[Token]) -> bool
    ensures { result ≡ has_unclosed tokens.now }
{
    let mut is_open = false;
    for token in tokens {
        is_open = is_open_after(is_open, token);
    }
    is_open
}

/// Tells whether a `(` is open after a token, if one is open before it.
fn is_open_after(was_open: bool, token: &Token) -> bool
    ensures { result ≡ is_open_after was_open token.now }
{
    match token {
        Token::Open => true,
        Token::Close => false,
        Token::Comma | Token::Word(_) => was_open,
    }
}

/// Tells whether a word is longer than 255 bytes.
fn has_long_word(tokens: &[Token]) -> bool
    ensures { result ≡ list_any is_long tokens.now }
{
    tokens.iter().any(|token| is_long(token))
}

fn is_long(token: &Token) -> bool
    ensures { result ≡ is_long token.now }
{
    match token {
        Token::Word(word) => word.as_str().len() > LONGEST_WORD,
        _ => false,
    }
}

/// Reads the group that the tokens of a line define, if they have the form.
fn read_group(alloc: Global, line: u32, tokens: &[Token]) -> Result<Option<GroupLine>, AllocError>
    ensures { IfOk result (λ group. group ≡ form.group_of line tokens.now) }
{
    let [Token::Word(name), rest @ ..] = tokens else {
        return Ok(None);
    };
    let Some(members) = read_members(alloc, rest)? else {
        return Ok(None);
    };
    let name = Text::copy(alloc, name.as_str())?;
    Ok(Some(GroupLine {
        line,
        name,
        members,
    }))
}

/// Reads the members that tokens write, if they have the form.
fn read_members(alloc: Global, tokens: &[Token]) -> Result<Option<Sequence<Member>>, AllocError>
    ensures { IfOk result (λ members. members ≡ form.members tokens.now) }
{
    let mut members = Sequence::new(alloc);
    let mut rest = tokens;
    while let [token, more @ ..] = rest {
        let Some(after) = read_member(alloc, &mut members, token, more)? else {
            return Ok(None);
        };
        rest = after;
    }
    Ok(Some(members))
}

/// Adds the member that a token begins, if it begins one, and gives what stands after it; None if
/// the tokens have not the form.
fn read_member<'a>(
    alloc: Global,
    members: &mut Sequence<Member>,
    token: &Token,
    more: &'a [Token],
) -> Result<Option<&'a [Token]>, AllocError>
    ensures read { IfOk result (λ rest. MatchOption rest (form.members (token.now ∷ more.now) ≡ None)
        (λ after. form.followed_by members.old (form.members (token.now ∷ more.now)) ≡ form.followed_by members.new (form.members after.now))) }
    ensures shorter { IfOk result (λ rest. IfSome rest (λ after. length after.now ≤ length more.now)) }
{
    match token {
        Token::Close => Ok(None),
        Token::Comma => Ok(Some(more)),
        Token::Word(group) => {
            let name = Text::copy(alloc, group.as_str())?;
            members.push(Member::Group(name))?;
            Ok(Some(more))
        }
        Token::Open => {
            push_host(alloc, members, host_field(more))?;
            Ok(after_triple(more))
        }
    }
}

/// Adds the member of a host field, unless the field is empty or `-`.
fn push_host(alloc: Global, members: &mut Sequence<Member>, host: &str) -> Result<(), AllocError>
    ensures { OnOk result (members.new ≡ members.old ++ form.host_member host.now) }
{
    if !host.is_empty() && host != "-" {
        members.push(Member::Host(Text::copy(alloc, host)?))?;
    }
    Ok(())
}

/// Gives the host field of a triple, from what stands after its `(`.
fn host_field(tokens: &[Token]) -> &str
    ensures { result.now ≡ host_field tokens.now }
{
    match tokens {
        [Token::Word(host), ..] => host.as_str(),
        _ => "",
    }
}

/// Gives what stands after a triple, from what stands after its `(`.
fn after_triple(tokens: &[Token]) -> Option<&[Token]>
    ensures { option_copied result ≡ after_triple tokens.now }
{
    let rest = after_comma(after_field(tokens))?;
    let rest = after_comma(after_field(rest))?;
    after_close(after_field(rest))
}

/// Gives what stands after a field, which is a word or empty.
fn after_field(tokens: &[Token]) -> &[Token]
    ensures { result.now ≡ after_field tokens.now }
{
    match tokens {
        [Token::Word(_), rest @ ..] => rest,
        _ => tokens,
    }
}

fn after_comma(tokens: &[Token]) -> Option<&[Token]>
    ensures { option_copied result ≡ after_comma tokens.now }
{
    match tokens {
        [Token::Comma, rest @ ..] => Some(rest),
        _ => None,
    }
}

fn after_close(tokens: &[Token]) -> Option<&[Token]>
    ensures { option_copied result ≡ after_close tokens.now }
{
    match tokens {
        [Token::Close, rest @ ..] => Some(rest),
        _ => None,
    }
}
