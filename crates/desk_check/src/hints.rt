//! Hints for words that other systems have in their exports files, chiefly Linux, or older texts. (exports(5) of FreeBSD and
//! of Linux)

ghost use Rattle.std.specs.Prelude.{◌≡◌, Some};
ghost use Rattle.std.specs.Option.{option_map};
ghost use Rattle.desk_text.specs.Address.{number_of};
ghost use Rattle.desk_exports.specs.Clients.{prefix_text};
ghost use Rattle.desk_exports.specs.Grammar.{after_dash, option_name};
ghost use Rattle.desk_exports.specs.Options.{is_name_among};
ghost use Rattle.desk_check.specs.Hints as spec;

use desk_exports::{Keyword, Rule};
use desk_findings::Matter;
use desk_policy::{SiteRule, WarningKind};
use desk_tables::TableRule;
use desk_text::Addr;

/// Returns what to write in place of the word that a finding is about, if it is one that other systems or older texts have.
pub fn hint(matter: Matter, word: &str) -> Option<&'static str>
    ensures { option_map (λ hint. hint.now) result ≡ spec.hint matter word.now }
{
    match matter {
        Matter::Fault(SiteRule::Table(TableRule::Custodian), _) => custodian_hint(word),
        Matter::Fault(SiteRule::Line(Rule::UnknownOption), _) => option_hint(after_dash(word)),
        Matter::Fault(SiteRule::Line(Rule::BadAddress), _) => host_hint(word),
        Matter::Fault(SiteRule::Line(Rule::BadMask), _) => mask_hint(word),
        Matter::Fault(SiteRule::Line(Rule::NoMask), _) => network_hint(word),
        Matter::Warning(WarningKind::UnknownHost) => unknown_host_hint(word),
        _ => None,
    }
}

/// Returns the hint for a custodian who is not listed. One who is not named is that of the site, and the mark of a guarded
/// file system is none.
fn custodian_hint(word: &str) -> Option<&'static str>
    ensures { option_map (λ hint. hint.now) result ≡ spec.custodian_hint word.now }
{
    if word.is_empty() {
        Some("write one for site")
    } else if word == "!guarded" {
        Some("write it once, behind the mount point")
    } else {
        None
    }
}

/// Returns the hint for an option that is not accepted as it is written, without its dash. One that is empty is shown by
/// its whole word, with the commas.
fn option_hint(option: &str) -> Option<&'static str>
    ensures { option_map (λ hint. hint.now) result ≡ spec.option_hint option.now }
{
    if has_byte(option, b',') && has_empty_piece(option) {
        Some("take out a comma too many")
    } else if has_byte(option, b'=') {
        value_hint(option_name(option))
    } else {
        name_hint(option)
    }
}

/// Tests whether an option between the commas is empty.
fn has_empty_piece(options: &str) -> bool
    ensures { result ≡ spec.has_empty_piece options.now }
{
    options.split(',').any(|option| option.is_empty())
}

/// Returns the hint for the name of an option that is not accepted with its value.
fn value_hint(name: &str) -> Option<&'static str>
    ensures { option_map (λ hint. hint.now) result ≡ spec.value_hint name.now }
{
    match name {
        "ro" | "o" => Some(
            "write -ro without a value, and each client that the value names as a host behind the options",
        ),
        "root" => Some(
            "write -maproot=root, and each client that the value names as a host, on a line of its own: a line without hosts is for everybody",
        ),
        "rw" | "access" => {
            Some("write each client that the value names as a host behind the options")
        }
        _ if Keyword::of(name).takes_no_value() => Some("write it without a value"),
        _ => name_hint(name),
    }
}

/// Returns the hint for an option of Linux of this name.
fn name_hint(name: &str) -> Option<&'static str>
    ensures { option_map (λ hint. hint.now) result ≡ spec.name_hint name.now }
{
    match name {
        "rw" => Some("leave it out, since a line without -ro is read-write"),
        "no_root_squash" => Some("write -maproot=root"),
        "root_squash" => Some("leave it out, since root is mapped to nobody without it"),
        "all_squash" => Some("write -mapall=nobody"),
        "anonuid" | "anongid" => Some("write -maproot=UID:GID, or -mapall=UID:GID for every user"),
        _ if has_no_counterpart(name) => Some("leave it out, since FreeBSD has no such option"),
        _ => None,
    }
}

/// Tests whether Linux has an option of this name that FreeBSD has no counterpart of.
fn has_no_counterpart(name: &str) -> bool
    ensures { result ≡ is_name_among spec.names_without_counterpart name.now }
{
    matches!(
        name,
        "sync"
            | "async"
            | "secure"
            | "insecure"
            | "subtree_check"
            | "no_subtree_check"
            | "wdelay"
            | "no_wdelay"
            | "hide"
            | "nohide"
            | "crossmnt"
            | "fsid"
    )
}

/// Returns the hint for a word that stands among the hosts.
fn host_hint(word: &str) -> Option<&'static str>
    ensures { option_map (λ hint. hint.now) result ≡ spec.host_hint word.now }
{
    if has_byte(word, b'(') {
        parenthesis_hint(word)
    } else if has_byte(word, b'*') || has_byte(word, b'?') {
        Some("there are no wildcards: write hosts, a netgroup, or -network with a prefix")
    } else if begins_with_at(word) {
        Some("write a netgroup without the @")
    } else if has_byte(word, b',') {
        Some(
            "write a dash before options, blanks between hosts, and -mask before a mask: a line without hosts or a network is for everybody",
        )
    } else if has_byte(word, b'=') {
        bare_value_hint(option_name(word))
    } else {
        bare_hint(word)
    }
}

/// Returns the hint for a word with a parenthesis, before which a host or a network may stand.
fn parenthesis_hint(word: &str) -> Option<&'static str>
    ensures { option_map (λ hint. hint.now) result ≡ Some (spec.parenthesis_hint word.now) }
{
    if has_byte(word, b'/') {
        Some(
            "write -network before the network, -mask in place of the / before a mask, and the options before both, with a dash and without parentheses",
        )
    } else {
        Some(
            "write the options before the hosts, with a dash and without parentheses, as in -ro 10.0.0.5",
        )
    }
}

/// Returns the hint for the name of an option that has a value, but no dash.
fn bare_value_hint(name: &str) -> Option<&'static str>
    ensures { option_map (λ hint. hint.now) result ≡ spec.bare_value_hint name.now }
{
    match name {
        "ro" => Some("write -ro without a value, and each client that the value names as a host"),
        "root" => Some(
            "write -maproot=root, and each client that the value names as a host, on a line of its own: a line without hosts is for everybody",
        ),
        "rw" | "access" => Some("write each client that the value names as a host"),
        _ => bare_hint(name),
    }
}

/// Returns the hint for the name of an option that has no dash. What takes it from the hosts says that some must stay.
fn bare_hint(name: &str) -> Option<&'static str>
    ensures { option_map (λ hint. hint.now) result ≡ spec.bare_hint name.now }
{
    match Keyword::of(name) {
        Keyword::Network | Keyword::Mask => Some("write a dash before it"),
        Keyword::LeftOut | Keyword::Unknown => bare_other_hint(name),
        // A letter by itself is rather a host.
        _ if name.len() == 1 => None,
        _ => Some(
            "write a dash before it, and name the hosts: a line without hosts is for everybody",
        ),
    }
}

/// Returns the hint for the name of an option of another system that has no dash.
fn bare_other_hint(name: &str) -> Option<&'static str>
    ensures { option_map (λ hint. hint.now) result ≡ spec.bare_other_hint name.now }
{
    if name == "rw" {
        Some(
            "leave it out, but keep or name a host: a line without -ro is read-write, and one without hosts is for everybody",
        )
    } else {
        bare_name_hint(name)
    }
}

/// Returns the hint for an option of Linux of this name that has no dash.
fn bare_name_hint(name: &str) -> Option<&'static str>
    ensures { option_map (λ hint. hint.now) result ≡ spec.bare_name_hint name.now }
{
    match name {
        "no_root_squash" => Some(
            "write -maproot=root before the hosts, and name them: a line without hosts is for everybody",
        ),
        "root_squash" => Some(
            "leave it out, but keep or name a host: root is mapped to nobody without it, and a line without hosts is for everybody",
        ),
        "all_squash" => Some(
            "write -mapall=nobody before the hosts, and name them: a line without hosts is for everybody",
        ),
        "anonuid" | "anongid" => Some(
            "write -maproot=UID:GID, or -mapall=UID:GID for every user, before the hosts, and name them: a line without hosts is for everybody",
        ),
        _ if has_no_counterpart(name) => Some(
            "leave it out, but keep or name a host: FreeBSD has no such option, and a line without hosts is for everybody",
        ),
        _ => None,
    }
}

/// Returns the hint for a word that stands among the hosts and is accepted.
fn unknown_host_hint(word: &str) -> Option<&'static str>
    ensures { option_map (λ hint. hint.now) result ≡ spec.unknown_host_hint word.now }
{
    if has_byte(word, b'/') && !has_byte(word, b'(') {
        Some("write -network before a network, and -mask in place of the / before a mask")
    } else {
        host_hint(word)
    }
}

/// Returns the hint for a network or a mask that is not accepted: a mask behind a `/` goes behind `-mask`.
fn mask_hint(word: &str) -> Option<&'static str>
    ensures { option_map (λ hint. hint.now) result ≡ spec.mask_hint word.now }
{
    if has_byte(behind_slash(word), b'.') {
        Some("write -mask in place of the /, as in -network 10.0.0.0 -mask 255.255.255.0")
    } else {
        None
    }
}

/// Returns the hint for a network that has neither a prefix nor a mask, by its number; or, if that does not stand there as it
/// is, what the class of each address would give.
fn network_hint(word: &str) -> Option<&'static str>
    ensures { option_map (λ hint. hint.now) result ≡ spec.network_hint word.now }
{
    match Addr::read_short(word) {
        Ok(address) => class_hint(address),
        Err(_) => Some(
            "older texts mean the prefix of its class, by its first number: /8 up to 127, /16 up to 191, /24 up to 223",
        ),
    }
}

/// Returns the hint for such a network by the class of its address.
fn class_hint(address: Addr) -> Option<&'static str>
    ensures { option_map (λ hint. hint.now) result ≡ spec.class_hint (number_of address) }
{
    let first_part = address.number() / 0x100_0000;
    if first_part < 128 {
        Some("its class would be /8, which older texts mean")
    } else if first_part < 192 {
        Some("its class would be /16, which older texts mean")
    } else if first_part < 224 {
        Some("its class would be /24, which older texts mean")
    } else {
        None
    }
}

/// Tests whether a word has this byte.
fn has_byte(word: &str, byte: u8) -> bool
    ensures { result ≡ spec.has_byte byte word.now }
{
    word.as_bytes().contains(&byte)
}

/// Tests whether a word begins with `@`.
fn begins_with_at(word: &str) -> bool
    ensures { result ≡ spec.begins_with_at word.now }
{
    word.as_bytes().first() == Some(&b'@')
}

/// Returns a word without the dash that it begins with.
fn after_dash(word: &str) -> &str
    ensures { result.now ≡ after_dash word.now }
{
    word.strip_prefix('-').unwrap_or(word)
}

/// Returns what stands behind the first `/` of a word.
fn behind_slash(word: &str) -> &str
    ensures { result.now ≡ prefix_text word.now }
{
    match word.split_once('/') {
        Some((_, behind)) => behind,
        None => "",
    }
}

/// Returns what stands before the first `=` of a word.
fn option_name(word: &str) -> &str
    ensures { result.now ≡ option_name word.now }
{
    match word.split_once('=') {
        Some((name, _)) => name,
        None => word,
    }
}
