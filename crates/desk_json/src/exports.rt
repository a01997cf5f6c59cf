//! All exports of a policy, as `exports` prints them as JSON.

ghost use Rattle.std.specs.Prelude.{◌≡◌, ◌∷◌, [], ◌++◌, IfOk, OnOk, codes, length, map};
ghost use Rattle.std.specs.Fmt.{decimal};
ghost use Rattle.std.specs.List.{flat_map, range_with_len};
ghost use Rattle.std.specs.String.{string_bytes};
ghost use Rattle.serde_json.specs.Data.{object, put as put_member, string};
ghost use Rattle.serde_json.specs.View.{members_view, view as data_of};
ghost use Rattle.serde_json.specs.Written.{compact_text};
ghost use Rattle.desk_text.specs.Address.{addr_text};
ghost use Rattle.desk_policy.specs.Policy.{rows_of};
ghost use Rattle.desk_policy.specs.Prints.{mount_text};
ghost use Rattle.desk_http_bodies.specs.Exports.{dir_data};
ghost use Rattle.desk_http_bodies.specs.Json.{list};
ghost use Rattle.desk_json.specs.Exports.{all_exports_data, clients_data, line_data, system_lines};

use desk_exports::{Clients, Entry, Names};
use desk_http_bodies::exports::dir_values;
use desk_http_bodies::members::{put_flag, put_number, put_text};
use desk_http_bodies::verdicts::{map_word, put_flavours, put_mapped};
use desk_policy::{Policy, Row};
use desk_text::{Net, Path};
use serde_json::{Map, Value, json, put};
use std::alloc::{AllocError, Global};

/// Writes the object of all exports of a policy.
pub fn exports_object(alloc: Global, policy: &Policy) -> Result<String, AllocError>
    ensures { IfOk result (λ text. string_bytes text ≡ compact_text (all_exports_data policy.now)) }
{
    let value = exports_value(alloc, policy)?;
    value.to_string(alloc)
}

/// Makes the value of all exports of a policy.
fn exports_value(alloc: Global, policy: &Policy) -> Result<Value, AllocError>
    ensures { IfOk result (λ value. data_of value ≡ all_exports_data policy.now) }
{
    let values = line_values(alloc, policy)?;
    json!(in alloc; {"exports": values})
}

/// Makes the values of all lines of a policy, by mount point and line.
fn line_values(alloc: Global, policy: &Policy) -> Result<Vec<Value>, AllocError>
    ensures { IfOk result (λ values. map data_of values.items ≡ flat_map (system_lines policy.now) (range_with_len 0 (length policy.now.table))) }
{
    let mut values = Vec::new(alloc);
    for place in 0..policy.filesystems().len() {
        let mount = mount_at(policy, place);
        push_lines(alloc, mount, rows_at(policy, place), &mut values)?;
    }
    Ok(values)
}

/// Lends the printed mount point of the file system at this place of the table.
fn mount_at(policy: &Policy, place: usize) -> &str
    ensures { result.now ≡ mount_text policy.now place }
{
    match policy.filesystems().as_slice().get(place) {
        Some(mount) => mount.path.text(),
        None => "",
    }
}

/// Lends the lines of the file system at this place of the table.
fn rows_at(policy: &Policy, place: usize) -> &[Row]
    ensures { result.now ≡ rows_of policy.now place }
{
    match policy.rows_by_filesystem().get(place) {
        Some(list) => list.as_slice(),
        None => &[],
    }
}

/// Adds the values of the lines of a file system with this printed mount point.
fn push_lines(
    alloc: Global,
    mount: &str,
    rows: &[Row],
    values: &mut Vec<Value>,
) -> Result<(), AllocError>
    ensures { OnOk result (map data_of values.new.items ≡ map data_of values.old.items ++ map (λ row. line_data mount.now row.entry) rows.now) }
{
    for row in rows {
        values.push(line_value(alloc, mount, &row.entry)?)?;
    }
    Ok(())
}

/// Makes the value of a line.
fn line_value(alloc: Global, mount: &str, entry: &Entry) -> Result<Value, AllocError>
    ensures { IfOk result (λ value. data_of value ≡ line_data mount.now entry.now) }
{
    let mut members = Map::new(alloc);
    put_line(alloc, mount, entry, &mut members)?;
    Ok(Value::Object(members))
}

/// Adds the members of a line. (The map is lent, so that its proof is cheap.)
fn put_line(
    alloc: Global,
    mount: &str,
    entry: &Entry,
    members: &mut Map<String, Value>,
) -> Result<(), AllocError>
    requires { members.old.entries ≡ [] }
    ensures { OnOk result (object (members_view members.new.entries) ≡ line_data mount.now entry.now) }
{
    put_flag(alloc, "alldirs", entry.alldirs, members)?;
    put_clients(alloc, &entry.clients, members)?;
    put_dirs(alloc, entry.dirs.as_slice(), members)?;
    put_flavours(alloc, entry.terms.flavours.as_slice(), members)?;
    put_text(alloc, "fs", mount, members)?;
    put_number(alloc, "line", entry.line, members)?;
    put_text(alloc, "map", map_word(&entry.terms.map.get()), members)?;
    put_mapped(alloc, &entry.terms.map.get(), members)?;
    put_flag(alloc, "ro", entry.terms.ro, members)
}

/// Adds whom a line is for.
fn put_clients(
    alloc: Global,
    clients: &Clients,
    members: &mut Map<String, Value>,
) -> Result<(), AllocError>
    ensures { OnOk result (members_view members.new.entries ≡ put_member (codes "clients") (list (clients_data clients.now)) (members_view members.old.entries)) }
{
    let values = client_values(alloc, clients)?;
    put(members, alloc, "clients", Value::from(values))
}

/// Adds the directories of a line.
fn put_dirs(
    alloc: Global,
    dirs: &[Path],
    members: &mut Map<String, Value>,
) -> Result<(), AllocError>
    ensures { OnOk result (members_view members.new.entries ≡ put_member (codes "dirs") (list (map dir_data dirs.now)) (members_view members.old.entries)) }
{
    let values = dir_values(alloc, dirs)?;
    put(members, alloc, "dirs", Value::from(values))
}

/// Makes the values of whom a line is for.
fn client_values(alloc: Global, clients: &Clients) -> Result<Vec<Value>, AllocError>
    ensures { IfOk result (λ values. map data_of values.items ≡ clients_data clients.now) }
{
    match clients {
        Clients::Hosts(names) => name_values(alloc, names),
        Clients::Net(net, _) => net_values(alloc, *net),
        Clients::Net6(_) => one_value(alloc, "(ipv6)"),
        Clients::World => one_value(alloc, "(everyone)"),
    }
}

/// Makes the values of names.
fn name_values(alloc: Global, names: &Names) -> Result<Vec<Value>, AllocError>
    ensures { IfOk result (λ values. map data_of values.items ≡ map (λ name. string name) names.now) }
{
    let mut values = Vec::new(alloc);
    for index in 0..names.len() {
        values.push(Value::try_from_str(alloc, names.get(index))?)?;
    }
    Ok(values)
}

/// Makes the list of a network alone, by its first address and its prefix.
fn net_values(alloc: Global, net: Net) -> Result<Vec<Value>, AllocError>
    ensures { IfOk result (λ values. map data_of values.items ≡ string (addr_text net.first ++ 47 ∷ decimal net.prefix) ∷ []) }
{
    let text = net_text(alloc, net)?;
    one_value(alloc, text.as_str())
}

/// Writes a network as its first address and its prefix.
fn net_text(alloc: Global, net: Net) -> Result<String, AllocError>
    ensures { IfOk result (λ text. string_bytes text ≡ addr_text net.first ++ 47 ∷ decimal net.prefix) }
{
    let first = net.first();
    let prefix = net.prefix().get();
    format!(in alloc; "{first}/{prefix}")
}

/// Makes the list of a text alone.
fn one_value(alloc: Global, text: &str) -> Result<Vec<Value>, AllocError>
    ensures { IfOk result (λ values. map data_of values.items ≡ string text.now ∷ []) }
{
    let value = Value::try_from_str(alloc, text)?;
    let mut values = Vec::new(alloc);
    values.push(value)?;
    Ok(values)
}
