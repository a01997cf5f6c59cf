//! Questions on expectations of the policy in force. They are asked of the index.

ghost use Rattle.desk_text.specs.Lines.{IsReadable};

use crate::answers::Asked;
use crate::listings::say_lines;
use crate::site::{InForce, Site};
use desk_expect::{
    Expectation, PlacedFault, find_outside, outside_text, read_expectations, test_report,
};
use desk_policy::PolicyView;
use desk_text::ReadError;
use std::alloc::{AllocError, Global};

/// Answers a question on expectations.
pub fn answer(alloc: Global, site: &Site, out: &mut String, question: &str, text: &str) -> Asked
    requires { IsReadable text.now }
{
    let asks_outside = match question {
        "expect" => false,
        "outside" => true,
        _ => return Ok(false),
    };
    match read_expectations(alloc, text, &site.netgroups, &site.hosts) {
        Ok(expectations) => {
            let asked = if asks_outside {
                say_outside(alloc, site, out, expectations.as_slice())
            } else {
                say_all(alloc, site, out, expectations.as_slice())
            };
            drop(expectations);
            asked
        }
        Err(ReadError::Fault(placed)) => say_fault(out, placed),
        Err(ReadError::Memory) => Err(AllocError),
    }
}

/// `expect TEXT`: what is reported of the expectations of a text, which are read with the hosts and the netgroups that were read
/// last, with `|` for each line feed; or its fault, with its line and where it begins and ends there in bytes.
fn say_all(alloc: Global, site: &Site, out: &mut String, expectations: &[Expectation]) -> Asked {
    let Some(index) = &site.index else {
        return Ok(false);
    };
    let report = test_report(alloc, index, "expectations", expectations)?;
    say_lines(out, report.text.as_str())
}

/// `outside TEXT`: the directories of its lines of which neither they nor anything below them is in a file system, with `|` for
/// each line feed.
fn say_outside(
    alloc: Global,
    site: &Site,
    out: &mut String,
    expectations: &[Expectation],
) -> Asked {
    let Some(InForce::View(plain)) = &site.policy else {
        return Ok(false);
    };
    let found = find_outside(alloc, plain.policy().filesystems(), expectations)?;
    let text = outside_text(alloc, "expectations", found.as_slice())?;
    say_lines(out, text.as_str())
}

fn say_fault(out: &mut String, placed: PlacedFault) -> Asked {
    let line = placed.fault.line;
    let number = placed.fault.rule.number();
    let name = placed.fault.rule.name();
    let (at, start, end) = (placed.place.line, placed.place.start, placed.place.end);
    write!(
        out,
        "fault line {line} rule {number} {name} at {at}:{start}-{end}"
    )?;
    Ok(true)
}
