//! The bodies of replies to an edit.

ghost use Rattle.std.specs.Prelude.{◌≡◌, [], IfOk, OnOk};
ghost use Rattle.std.specs.Option.{option_map};
ghost use Rattle.std.specs.String.{string_bytes};
ghost use Rattle.serde_json.specs.Data.{object};
ghost use Rattle.serde_json.specs.View.{members_view, view};
ghost use Rattle.serde_json.specs.Written.{compact_text};
ghost use Rattle.desk_text.specs.Address.{addr_text, number_of};
ghost use Rattle.desk_http_bodies.specs.Edits.{done_data, fault_data, fault_entries, plain_data, proposed_data, refused_data, stale_data};

use crate::members::{put_number, put_number_if, put_text, put_text_if};
use desk_core::Refusal;
use desk_policy::SiteFault;
use desk_text::{Addr, Text};
use serde_json::{Map, Value, json};
use std::alloc::{AllocError, Global};

/// Writes the body for an edit that was stored as a revision, or that is the newest revision already.
pub fn done_body(alloc: Global, already: bool, rev: u32) -> Result<String, AllocError>
    ensures { IfOk result (λ body. string_bytes body ≡ compact_text (done_data already rev)) }
{
    let value = done_value(alloc, already, rev)?;
    value.to_string(alloc)
}

/// Makes the value for an edit that was stored.
fn done_value(alloc: Global, already: bool, rev: u32) -> Result<Value, AllocError>
    ensures { IfOk result (λ value. view value ≡ done_data already rev) }
{
    json!(in alloc; {"already": already, "rev": rev})
}

/// Writes the body for an edit that is proposed, or that was before.
pub fn proposed_body(alloc: Global, already: bool, rev: u32) -> Result<String, AllocError>
    ensures { IfOk result (λ body. string_bytes body ≡ compact_text (proposed_data already rev)) }
{
    let value = proposed_value(alloc, already, rev)?;
    value.to_string(alloc)
}

/// Makes the value for an edit that is proposed.
fn proposed_value(alloc: Global, already: bool, rev: u32) -> Result<Value, AllocError>
    ensures { IfOk result (λ value. view value ≡ proposed_data already rev) }
{
    json!(in alloc; {"already": already, "proposed": true, "rev": rev})
}

/// Writes the body for an edit that is refused.
pub fn refusal_body(alloc: Global, refusal: &Refusal) -> Result<String, AllocError>
    ensures { IfOk result (λ body. string_bytes body ≡ compact_text (refused_data refusal.now)) }
{
    let value = refusal_value(alloc, refusal)?;
    value.to_string(alloc)
}

/// Makes the value of a refusal.
fn refusal_value(alloc: Global, refusal: &Refusal) -> Result<Value, AllocError>
    ensures { IfOk result (λ value. view value ≡ refused_data refusal.now) }
{
    match refusal {
        Refusal::Stale(current) => stale_value(alloc, refusal, *current),
        Refusal::Fault(fault) => fault_value(alloc, refusal, fault),
        _ => plain_value(alloc, refusal),
    }
}

/// Makes the value of a refusal of which there is no more to say.
fn plain_value(alloc: Global, refusal: &Refusal) -> Result<Value, AllocError>
    ensures { IfOk result (λ value. view value ≡ plain_data refusal.now) }
{
    json!(in alloc; {"error": refusal.name(), "number": refusal.number()})
}

/// Makes the value of a refusal with the number of the newest revision.
fn stale_value(alloc: Global, refusal: &Refusal, current: u32) -> Result<Value, AllocError>
    ensures { IfOk result (λ value. view value ≡ stale_data refusal.now current) }
{
    json!(in alloc; {"current": current, "error": refusal.name(), "number": refusal.number()})
}

/// Makes the value of a refusal with the fault of the site.
fn fault_value(alloc: Global, refusal: &Refusal, fault: &SiteFault) -> Result<Value, AllocError>
    ensures { IfOk result (λ value. view value ≡ fault_data refusal.now fault.now) }
{
    let address = address_text(alloc, fault.address)?;
    let mut members = Map::new(alloc);
    put_fault(alloc, refusal, fault, &address, &mut members)?;
    Ok(Value::Object(members))
}

/// Writes the address of a fault, if it has one.
fn address_text(alloc: Global, address: Option<Addr>) -> Result<Option<Text>, AllocError>
    ensures { IfOk result (λ text. text ≡ option_map (λ a. addr_text (number_of a)) address) }
{
    match address {
        Some(address) => {
            let text = format!(in alloc; "{address}")?;
            Ok(Some(Text::from_string(text)))
        }
        None => Ok(None),
    }
}

/// Adds the members of a refusal with the fault of the site. (The map is lent, so that its proof is cheap.)
fn put_fault(
    alloc: Global,
    refusal: &Refusal,
    fault: &SiteFault,
    address: &Option<Text>,
    members: &mut Map<String, Value>,
) -> Result<(), AllocError>
    requires { members.old.entries ≡ [] }
    ensures { OnOk result (object (members_view members.new.entries) ≡ fault_entries refusal.now fault.now address.now) }
{
    put_text_if(alloc, "address", address, members)?;
    put_text(alloc, "error", refusal.name(), members)?;
    put_text(alloc, "file", fault.file.as_str(), members)?;
    put_number(alloc, "line", fault.line, members)?;
    put_number(alloc, "number", refusal.number(), members)?;
    put_number_if(alloc, "other", fault.other, members)?;
    put_number(alloc, "rule", fault.rule.number(), members)
}
