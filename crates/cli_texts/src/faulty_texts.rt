//! What is printed of the fault of an exports text or of its tables: its line, or its finding as JSON, and on standard error the finding
//! that `check` prints of it.

ghost use Rattle.std.specs.Prelude.{IfOk};
ghost use Rattle.std.specs.String.{string_bytes};
ghost use Rattle.desk_text.specs.Lines.{IsReadable};
ghost use Rattle.desk_findings.specs.CheckFaults.{AreReadable};
ghost use Rattle.cli_texts.specs.FaultyTexts.{AnswersError, PrintsThisFault, TellsFault};

use crate::fault_line::fault_text;
use cli_output::failure::Failure;
use cli_output::printed::Printed;
use cli_sources::line_ends::end_line;
use desk_check::{fault_json, tell_fault};
use desk_findings::WholeSources;
use desk_policy::SiteFault;
use desk_tables::FileSystems;
use desk_text::ReadError;
use std::alloc::{AllocError, Global};

/// Answers with the fault of these texts, in a line or as JSON, or that memory ran out.
pub fn answer_error(
    alloc: Global,
    json: bool,
    sources: WholeSources<'_>,
    filesystems: &FileSystems,
    error: ReadError<SiteFault>,
) -> Result<Printed, Failure>
    requires tables { AreReadable sources.tables }
    requires exports { IsReadable sources.exports.text.now }
    ensures { AnswersError json sources.entry filesystems.now error result }
{
    match error {
        ReadError::Fault(fault) => Ok(print_fault(alloc, json, sources, filesystems, &fault)?),
        ReadError::Memory => Err(Failure::Memory),
    }
}

/// Prints a fault of these texts, and on standard error the first finding about it of those that `check` makes in the same texts.
fn print_fault(
    alloc: Global,
    json: bool,
    sources: WholeSources<'_>,
    filesystems: &FileSystems,
    fault: &SiteFault,
) -> Result<Printed, AllocError>
    requires tables { AreReadable sources.tables }
    requires exports { IsReadable sources.exports.text.now }
    ensures { IfOk result (PrintsThisFault json sources.entry filesystems.now fault.now) }
{
    let own = filesystems.share()?;
    let note = tell_fault(alloc, sources, own, fault)?;
    let text = told_fault(alloc, json, sources, filesystems, fault)?;
    Ok(Printed {
        status: 3,
        text,
        note,
    })
}

/// Writes a fault of these texts in a line, or as JSON: the list of that finding alone.
fn told_fault(
    alloc: Global,
    json: bool,
    sources: WholeSources<'_>,
    filesystems: &FileSystems,
    fault: &SiteFault,
) -> Result<String, AllocError>
    requires tables { AreReadable sources.tables }
    requires exports { IsReadable sources.exports.text.now }
    ensures { IfOk result (λ text. TellsFault json sources.entry filesystems.now fault.now (string_bytes text)) }
{
    if json {
        let own = filesystems.share()?;
        Ok(fault_json(alloc, sources, own, fault)?)
    } else {
        Ok(end_line(fault_text(alloc, sources.exports.origins, fault)?)?)
    }
}
