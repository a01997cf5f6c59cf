//! The bodies of replies to what a client may mount.

ghost use Rattle.std.specs.Prelude.{◌≡◌, IfOk, map};
ghost use Rattle.std.specs.String.{string_bytes};
ghost use Rattle.serde_json.specs.View.{view as data_of};
ghost use Rattle.serde_json.specs.Written.{compact_text};
ghost use Rattle.desk_text.specs.Address.{number_of};
ghost use Rattle.desk_http_bodies.specs.Exports.{dir_data, exports_data, system_data};
ghost use Rattle.desk_http_bodies.specs.Json.{count};

use crate::verdicts::{cred_text, flavours_value, map_word, mapped_cred};
use desk_policy::{Policy, Shown, mount_text};
use desk_text::{Addr, Path};
use serde_json::{Value, json};
use std::alloc::{AllocError, Global};

/// Writes the body of what a client of this address may mount under the policy.
pub fn exports_body(
    alloc: Global,
    policy: &Policy,
    address: Addr,
    shown: &[Shown],
) -> Result<String, AllocError>
    ensures { IfOk result (λ body. string_bytes body ≡ compact_text (exports_data policy.now (number_of address) shown.now)) }
{
    let value = exports_value(alloc, policy, address, shown)?;
    value.to_string(alloc)
}

/// Makes the value of what a client may mount.
fn exports_value(
    alloc: Global,
    policy: &Policy,
    address: Addr,
    shown: &[Shown],
) -> Result<Value, AllocError>
    ensures { IfOk result (λ value. data_of value ≡ exports_data policy.now (number_of address) shown.now) }
{
    let host = format!(in alloc; "{address}")?;
    let systems = system_values(alloc, policy, shown)?;
    json!(in alloc; {"host": host, "systems": systems})
}

/// Makes the values of what is shown of each file system.
fn system_values(alloc: Global, policy: &Policy, shown: &[Shown]) -> Result<Vec<Value>, AllocError>
    ensures { IfOk result (λ values. map data_of values.items ≡ map (system_data policy.now) shown.now) }
{
    let mut values = Vec::new(alloc);
    for system in shown {
        values.push(system_value(alloc, policy, system)?)?;
    }
    Ok(values)
}

/// Makes the value of what is shown of a file system.
fn system_value(alloc: Global, policy: &Policy, shown: &Shown) -> Result<Value, AllocError>
    ensures { IfOk result (λ value. data_of value ≡ system_data policy.now shown.now) }
{
    let dirs = dir_values(alloc, shown.dirs.as_slice())?;
    let flavours = flavours_value(alloc, shown.terms.flavours.as_slice())?;
    let lines = line_values(alloc, shown.lines.as_slice())?;
    let map = shown.terms.map.get();
    let mapped = cred_text(alloc, mapped_cred(&map))?;
    let mount = mount_text(policy, shown.fs);
    json!(in alloc; {
        "alldirs": shown.alldirs,
        "dirs": dirs,
        "flavours": flavours,
        "lines": lines,
        "map": map_word(&map),
        "mapped": mapped.as_str(),
        "mount": mount,
        "ro": shown.terms.ro,
    })
}

/// Makes the values of directories.
pub fn dir_values(alloc: Global, dirs: &[Path]) -> Result<Vec<Value>, AllocError>
    ensures { IfOk result (λ values. map data_of values.items ≡ map dir_data dirs.now) }
{
    let mut values = Vec::new(alloc);
    for dir in dirs {
        values.push(Value::try_from_str(alloc, dir.text())?)?;
    }
    Ok(values)
}

/// Makes the values of line numbers.
fn line_values(alloc: Global, lines: &[u32]) -> Result<Vec<Value>, AllocError>
    ensures { IfOk result (λ values. map data_of values.items ≡ map count lines.now) }
{
    let mut values = Vec::new(alloc);
    for line in lines {
        values.push(Value::from(*line))?;
    }
    Ok(values)
}
