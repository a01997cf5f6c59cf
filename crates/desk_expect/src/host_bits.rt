//! Networks in a text of expectations that are written with host bits.

ghost use Rattle.std.specs.Prelude.{◌≡◌, ◌++◌, IfOk, OnOk};
ghost use Rattle.std.specs.List.{flat_map};
ghost use Rattle.std.specs.String.{string_bytes};
ghost use Rattle.desk_text.specs.Lines.{IsReadable};
ghost use Rattle.desk_expect.specs.HostBits as spec;

use crate::form::{form_of, named};
use crate::reading::line_values;
use desk_text::{Line, Net, NetText, ReadError, Text, logical_lines};
use std::alloc::{AllocError, Global};

/// Tells each network of the expectations of a file that is written with host bits, and which network is meant, in lines of their own, in the order
/// of the text. The text has at most 4,294,967,294 bytes.
pub fn host_bits_text(alloc: Global, file: &str, text: &str) -> Result<String, AllocError>
    requires { IsReadable text.now }
    ensures { IfOk result (λ told. string_bytes told ≡ spec.host_bits_text file.now text.now) }
{
    let lines = logical_lines(alloc, text)?;
    let mut told = String::new(alloc);
    for line in &lines {
        push_line(alloc, file, line, &mut told)?;
    }
    Ok(told)
}

/// Tells those of a line.
fn push_line(alloc: Global, file: &str, line: &Line, told: &mut String) -> Result<(), AllocError>
    ensures { OnOk result (string_bytes told.new ≡ string_bytes told.old ++ spec.told_line file.now line.now) }
{
    match ReadError::split(line_values(alloc, line))? {
        Ok(words) => push_words(file, line.number(), words.as_slice(), told),
        Err(_) => Ok(()),
    }
}

/// Tells those of a line of these words.
fn push_words(file: &str, number: u32, words: &[Text], told: &mut String) -> Result<(), AllocError>
    ensures { OnOk result (string_bytes told.new ≡ string_bytes told.old ++ spec.told_words file.now number words.now) }
{
    match form_of(words) {
        Some(form) => {
            push_names(file, number, named(form.whom), told)?;
            push_names(file, number, form.but, told)
        }
        None => Ok(()),
    }
}

/// Tells those among names.
fn push_names(file: &str, number: u32, names: &[Text], told: &mut String) -> Result<(), AllocError>
    ensures { OnOk result (string_bytes told.new ≡ string_bytes told.old ++ flat_map (spec.told_name file.now number) names.now) }
{
    for name in names {
        push_name(file, number, name.as_str(), told)?;
    }
    Ok(())
}

/// Tells a name, if it is one.
fn push_name(file: &str, number: u32, name: &str, told: &mut String) -> Result<(), AllocError>
    ensures { OnOk result (string_bytes told.new ≡ string_bytes told.old ++ spec.told_name file.now number name.now) }
{
    match net_meant(name) {
        Some(net) => push_meant(file, number, name, net, told),
        None => Ok(()),
    }
}

/// Finds the network that a name means which is written with host bits.
fn net_meant(name: &str) -> Option<Net>
    ensures { result ≡ spec.net_meant name.now }
{
    let written = NetText::read(name).ok()?;
    let prefix = written.prefix?;
    let net = Net::new(written.addr, prefix);
    if net.first().number() == written.addr.number() {
        return None;
    }
    Some(net)
}

/// Adds the line that tells the network which is meant.
fn push_meant(
    file: &str,
    number: u32,
    name: &str,
    net: Net,
    told: &mut String,
) -> Result<(), AllocError>
    ensures { OnOk result (string_bytes told.new ≡ string_bytes told.old ++ spec.meant_line file.now number name.now net) }
{
    push_written(file, number, name, told)?;
    told.push_str(" has host bits: ")?;
    push_net(net, told)
}

/// Adds a name, and where it stands.
fn push_written(file: &str, number: u32, name: &str, told: &mut String) -> Result<(), AllocError>
    ensures { OnOk result (string_bytes told.new ≡ string_bytes told.old ++ spec.name_text file.now number name.now) }
{
    write!(told, "{file}:{number}: {name}")
}

/// Adds the network that is meant.
fn push_net(net: Net, told: &mut String) -> Result<(), AllocError>
    ensures { OnOk result (string_bytes told.new ≡ string_bytes told.old ++ spec.net_text net) }
{
    let first = net.first();
    let prefix = net.prefix().get();
    write!(told, "{first}/{prefix} is meant\n")
}
