//! All faults of a text of expectations: each faulty line with the first rule that it breaks, and the place of the word at fault.

ghost use Rattle.std.specs.Prelude.{◌≡◌, IfOk, IfSome, OnOk};
ghost use Rattle.std.specs.Option.{option_map};
ghost use Rattle.desk_text.specs.Lines.{IsReadable};
ghost use Rattle.desk_text.specs.Reading.{fault_of};
ghost use Rattle.desk_expect.specs.FaultyLines.{AreFaultsIn};
ghost use Rattle.desk_expect.specs.PrivateFaultyLines.{AddsFault, IsFaultOn};
ghost use Rattle.desk_expect.specs.Reading.{answered};

use crate::faults::make_fault;
use crate::reading::read_line;
use crate::rules::PlacedFault;
use desk_netgroup::Netgroups;
use desk_tables::Hosts;
use desk_text::{Line, ReadError, Sequence, logical_lines};
use std::alloc::{AllocError, Global};

/// Finds all faulty lines of a text of expectations, in order, each with the first rule that it breaks and the place of the word at
/// fault. `read_expectations` refuses the text with the first of them. The text has at most 4,294,967,294 bytes.
pub fn find_faults(
    alloc: Global,
    text: &str,
    netgroups: &Netgroups,
    hosts: &Hosts,
) -> Result<Sequence<PlacedFault>, AllocError>
    requires { IsReadable text.now }
    ensures { IfOk result (AreFaultsIn netgroups.now hosts.now text.now) }
{
    let lines = logical_lines(alloc, text)?;
    let mut found = Sequence::new(alloc);
    for line in &lines {
        push_fault(alloc, netgroups, hosts, line, &mut found)?;
    }
    Ok(found)
}

/// Adds the fault of a line, if it has one.
fn push_fault(
    alloc: Global,
    netgroups: &Netgroups,
    hosts: &Hosts,
    line: &Line,
    found: &mut Sequence<PlacedFault>,
) -> Result<(), AllocError>
    ensures { OnOk result (AddsFault netgroups.now hosts.now line.now found.old found.new) }
{
    if let Some(fault) = line_fault(alloc, netgroups, hosts, line)? {
        found.push(fault)?;
    }
    Ok(())
}

/// Finds the fault of a line, if it has one.
fn line_fault(
    alloc: Global,
    netgroups: &Netgroups,
    hosts: &Hosts,
    line: &Line,
) -> Result<Option<PlacedFault>, AllocError>
    ensures fault { IfOk result (λ found. option_map (λ one. one.fault) found ≡ fault_of (answered netgroups.now hosts.now line.now)) }
    ensures placed { IfOk result (λ found. IfSome found (IsFaultOn netgroups.now hosts.now line.now)) }
{
    match ReadError::split(read_line(alloc, netgroups, hosts, line))? {
        Ok(expectation) => {
            drop(expectation);
            Ok(None)
        }
        Err(rule) => Ok(Some(make_fault(alloc, netgroups, hosts, line, rule)?)),
    }
}
