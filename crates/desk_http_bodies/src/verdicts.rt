//! The bodies of replies to a mount request.

ghost use Rattle.std.specs.Prelude.{◌≡◌, [], IfOk, OnOk, codes, map};
ghost use Rattle.std.specs.Option.{option_map};
ghost use Rattle.std.specs.String.{string_bytes};
ghost use Rattle.serde_json.specs.Data.{object, put as put_member, string};
ghost use Rattle.serde_json.specs.View.{members_view, view as data_of};
ghost use Rattle.serde_json.specs.Written.{compact_text};
ghost use Rattle.desk_tables.specs.Credentials.{cred_text};
ghost use Rattle.desk_policy.specs.ActingAs as acting;
ghost use Rattle.desk_policy.specs.Verdict.{verdict_result};
ghost use Rattle.desk_http_bodies.specs.Verdicts as spec;
ghost use Rattle.desk_http_bodies.specs.Verdicts.{denied_data, flavour_data, flavours_data, grant_data, mapped_cred, map_word, verdict_data};

use crate::members::{put_flag, put_number, put_text, put_text_if};
use desk_exports::{Flavour, Mapping, Terms};
use desk_policy::{Denial, Policy, Verdict, act_as, mount_text};
use desk_tables::Cred;
use desk_text::Text;
use serde_json::{Map, Value, json, put};
use std::alloc::{AllocError, Global};

/// Writes the body of a verdict under the policy, for a client with this credential of its own, if it told one.
#[tactic(auto, using(crate::proofs::Floats::verdict_has_none))]
pub fn verdict_body(
    alloc: Global,
    policy: &Policy,
    verdict: &Verdict<'_>,
    own: &Option<Cred>,
) -> Result<String, AllocError>
    ensures { IfOk result (λ body. string_bytes body ≡ compact_text (verdict_data policy.now own.now (verdict_result verdict.now))) }
{
    let value = verdict_value(alloc, policy, verdict, own)?;
    value.to_string(alloc)
}

/// Makes the value of a verdict.
pub fn verdict_value(
    alloc: Global,
    policy: &Policy,
    verdict: &Verdict<'_>,
    own: &Option<Cred>,
) -> Result<Value, AllocError>
    ensures { IfOk result (λ value. data_of value ≡ verdict_data policy.now own.now (verdict_result verdict.now)) }
{
    match verdict {
        Verdict::Granted { fs, line, terms } => {
            granted_value(alloc, mount_text(policy, *fs), *line, terms, own)
        }
        Verdict::Denied(denial) => denied_value(alloc, policy, *denial),
    }
}

/// Makes the value of a denial.
fn denied_value(alloc: Global, policy: &Policy, denial: Denial) -> Result<Value, AllocError>
    ensures { IfOk result (λ value. data_of value ≡ denied_data policy.now denial) }
{
    match denial {
        Denial::NoFileSystem => json!(in alloc; {"reason": 1u32, "verdict": "denied"}),
        Denial::NoLine(fs) => {
            let mount = mount_text(policy, fs);
            json!(in alloc; {"fs": mount, "reason": 2u32, "verdict": "denied"})
        }
        Denial::NotListed(fs, line) => {
            let mount = mount_text(policy, fs);
            json!(in alloc; {"fs": mount, "line": line, "reason": 3u32, "verdict": "denied"})
        }
    }
}

/// Makes the value of a granted mount.
fn granted_value(
    alloc: Global,
    fs: &str,
    line: u32,
    terms: &Terms,
    own: &Option<Cred>,
) -> Result<Value, AllocError>
    ensures { IfOk result (λ value. data_of value
        ≡ grant_data fs.now line terms.now (option_map (λ cred. cred_text (acting.act_as terms.now cred)) own.now)) }
{
    let acts = acts_text(alloc, terms, own)?;
    let mut members = Map::new(alloc);
    put_grant(alloc, fs, line, terms, &acts, &mut members)?;
    Ok(Value::Object(members))
}

/// Writes the credential as which a client acts that told its own.
fn acts_text(alloc: Global, terms: &Terms, own: &Option<Cred>) -> Result<Option<Text>, AllocError>
    ensures { IfOk result (λ acts. acts ≡ option_map (λ cred. cred_text (acting.act_as terms.now cred)) own.now) }
{
    match own {
        Some(own) => {
            let acts = cred_text(alloc, &act_as(terms, own))?;
            Ok(Some(Text::from_string(acts)))
        }
        None => Ok(None),
    }
}

/// Adds the members of a granted mount, of which the client acts as this, if it told a credential. (The map is lent, so that its proof is
/// cheap.)
fn put_grant(
    alloc: Global,
    fs: &str,
    line: u32,
    terms: &Terms,
    acts: &Option<Text>,
    members: &mut Map<String, Value>,
) -> Result<(), AllocError>
    requires { members.old.entries ≡ [] }
    ensures { OnOk result (object (members_view members.new.entries) ≡ grant_data fs.now line terms.now acts.now) }
{
    put_text_if(alloc, "acts", acts, members)?;
    put_flavours(alloc, terms.flavours.as_slice(), members)?;
    put_text(alloc, "fs", fs, members)?;
    put_number(alloc, "line", line, members)?;
    put_text(alloc, "map", map_word(&terms.map.get()), members)?;
    put_mapped(alloc, &terms.map.get(), members)?;
    put_flag(alloc, "ro", terms.ro, members)?;
    put_text(alloc, "verdict", "granted", members)
}

/// Adds the flavours.
pub fn put_flavours(
    alloc: Global,
    flavours: &[Flavour],
    members: &mut Map<String, Value>,
) -> Result<(), AllocError>
    ensures { OnOk result (members_view members.new.entries ≡ put_member (codes "flavours") (flavours_data flavours.now) (members_view members.old.entries)) }
{
    let value = flavours_value(alloc, flavours)?;
    put(members, alloc, "flavours", value)
}

/// Adds the credential as which the mapped clients act.
pub fn put_mapped(
    alloc: Global,
    map: &Mapping,
    members: &mut Map<String, Value>,
) -> Result<(), AllocError>
    ensures { OnOk result (members_view members.new.entries ≡ put_member (codes "mapped") (string (cred_text (spec.mapped_cred map.now))) (members_view members.old.entries)) }
{
    let text = cred_text(alloc, mapped_cred(map))?;
    put_text(alloc, "mapped", text.as_str(), members)
}

/// Writes a credential as text.
pub(crate) fn cred_text(alloc: Global, cred: &Cred) -> Result<String, AllocError>
    ensures { IfOk result (λ text. string_bytes text ≡ cred_text cred.now) }
{
    format!(in alloc; "{cred}")
}

/// Makes the list of flavours.
pub(crate) fn flavours_value(alloc: Global, flavours: &[Flavour]) -> Result<Value, AllocError>
    ensures { IfOk result (λ value. data_of value ≡ flavours_data flavours.now) }
{
    let values = flavour_values(alloc, flavours)?;
    Ok(Value::from(values))
}

/// Makes the values of the list of flavours.
fn flavour_values(alloc: Global, flavours: &[Flavour]) -> Result<Vec<Value>, AllocError>
    ensures { IfOk result (λ values. map data_of values.items ≡ map flavour_data flavours.now) }
{
    let mut values = Vec::new(alloc);
    for flavour in flavours {
        values.push(Value::try_from_str(alloc, flavour.word())?)?;
    }
    Ok(values)
}

/// Tells who is mapped.
pub fn map_word(map: &Mapping) -> &'static str
    ensures { result.now ≡ spec.map_word map.now }
{
    match map {
        Mapping::Root(_) => "root",
        Mapping::All(_) => "all",
    }
}

/// Lends the credential as which they act.
pub(crate) fn mapped_cred(map: &Mapping) -> &Cred
    ensures { result.now ≡ spec.mapped_cred map.now }
{
    match map {
        Mapping::Root(cred) => cred,
        Mapping::All(cred) => cred,
    }
}
