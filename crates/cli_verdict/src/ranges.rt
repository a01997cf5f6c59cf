//! Who may mount a directory, as commands print it.

ghost use Rattle.std.specs.Prelude.{◌≡◌, IfOk, map};
ghost use Rattle.std.specs.String.{string_bytes};
ghost use Rattle.desk_who.specs.Who.{range_value};
ghost use Rattle.cli_verdict.specs.Ranges.{PrintsHere, PrintsRanges, PrintsThere, ranges_text};

use crate::object_lines::object_line;
use cli_output::printed::Printed;
use desk_index::Index;
use desk_json::who_object;
use desk_policy::{Policy, PolicyView};
use desk_server_prints::{first_wider_note, left_out_note, server_who};
use desk_text::Path;
use desk_who::{Range, who, who_text};
use std::alloc::{AllocError, Global};

/// Prints the verdict of every address on a path by ranges, by the rule of this desk or by that of mountd(8): each range in a line, or
/// all as one object, which names the file of each line, if several texts were read as one.
pub fn print_ranges(
    alloc: Global,
    index: &Index,
    path: &Path,
    mountd: bool,
    json: bool,
) -> Result<Printed, AllocError>
    ensures { IfOk result (PrintsRanges mountd json index.now path.now) }
{
    if mountd {
        print_there(alloc, index, path, json)
    } else {
        print_here(alloc, index, path, json)
    }
}

/// Prints it by the rule of this desk. Standard error says to which client first mountd(8) grants what is denied.
fn print_here(alloc: Global, index: &Index, path: &Path, json: bool) -> Result<Printed, AllocError>
    ensures { IfOk result (PrintsHere json index.now path.now) }
{
    let note = first_wider_note(alloc, index, path)?;
    let ranges = who(alloc, index, path)?;
    let text = ranges_text(alloc, index.policy(), path, ranges.as_slice(), json)?;
    Ok(Printed {
        status: 0,
        text,
        note,
    })
}

/// Prints it by the rule of mountd(8). Standard error names the lines that mountd(8) may leave out.
fn print_there(alloc: Global, index: &Index, path: &Path, json: bool) -> Result<Printed, AllocError>
    ensures { IfOk result (PrintsThere json index.now path.now) }
{
    let note = left_out_note(alloc, index)?;
    let ranges = server_who(alloc, index, path)?;
    let text = ranges_text(alloc, index.policy(), path, ranges.as_slice(), json)?;
    Ok(Printed {
        status: 0,
        text,
        note,
    })
}

/// Writes ranges of verdicts on a path, in lines or as one object.
fn ranges_text(
    alloc: Global,
    policy: &Policy,
    path: &Path,
    ranges: &[Range<'_>],
    json: bool,
) -> Result<String, AllocError>
    ensures { IfOk result (λ text. string_bytes text ≡ ranges_text json policy.now path.now (map range_value ranges.now)) }
{
    if json {
        let object = who_object(alloc, policy, path, ranges)?;
        object_line(alloc, object.as_str())
    } else {
        who_text(alloc, policy, ranges)
    }
}
