//! What is told of a fault of `try` or `split` beside its fixed line, or in its place: the finding that `check` prints of it.

ghost use Rattle.std.specs.Prelude.{◌≡◌, IfOk, IfSome, option_to_list, slice_get};
ghost use Rattle.std.specs.Option.{option_copied};
ghost use Rattle.std.specs.String.{string_bytes};
ghost use Rattle.desk_text.specs.Lines.{IsReadable};
ghost use Rattle.desk_findings.specs.CheckFaults.{AreReadable};
ghost use Rattle.desk_findings.specs.Finding.{HasSlice, HaveSlices};
ghost use Rattle.desk_check.specs.FindingJson.{findings_json};
ghost use Rattle.desk_check.specs.ToldFault.{ListsFault, ListsSplitFault, TellsOf, TellsOfSplit, told_text};

use crate::finding_json::findings_json;
use crate::finding_prints::finding_text;
use desk_findings::{Finding, Source, WholeSources, find_split_fault, first_about, gather};
use desk_policy::SiteFault;
use desk_split::SplitFault;
use desk_tables::FileSystems;
use std::alloc::{AllocError, Global};
use std::slice;

/// Prints the first finding about a fault of `try` of those that `check` makes in the same texts, with its line and carets;
/// nothing if there is none.
pub fn tell_fault(
    alloc: Global,
    sources: WholeSources<'_>,
    filesystems: FileSystems,
    fault: &SiteFault,
) -> Result<String, AllocError>
    requires tables { AreReadable sources.tables }
    requires exports { IsReadable sources.exports.text.now }
    ensures { IfOk result (λ text. TellsOf sources.entry filesystems fault.now (string_bytes text)) }
{
    let gathered = gather(alloc, sources, filesystems, false)?;
    let told = told_text(alloc, first_about(gathered.findings.as_slice(), fault))?;
    drop(gathered);
    Ok(told)
}

/// Prints a finding with its line and carets, or nothing if there is none.
fn told_text(alloc: Global, finding: Option<&Finding>) -> Result<String, AllocError>
    requires { IfSome (option_copied finding) HasSlice }
    ensures { IfOk result (λ text. string_bytes text ≡ told_text (option_copied finding.entry)) }
{
    match finding {
        Some(finding) => finding_text(alloc, finding, false),
        None => Ok(String::new(alloc)),
    }
}

/// Prints the same finding as the one element of the list that `check --json` prints, with the line end; the empty list if there
/// is none.
pub fn fault_json(
    alloc: Global,
    sources: WholeSources<'_>,
    filesystems: FileSystems,
    fault: &SiteFault,
) -> Result<String, AllocError>
    requires tables { AreReadable sources.tables }
    requires exports { IsReadable sources.exports.text.now }
    ensures { IfOk result (λ text. ListsFault sources.entry filesystems fault.now (string_bytes text)) }
{
    let gathered = gather(alloc, sources, filesystems, false)?;
    let told = one_json(alloc, first_about(gathered.findings.as_slice(), fault))?;
    drop(gathered);
    Ok(told)
}

/// Prints a finding as the one element of a list, which is empty if there is none.
fn one_json(alloc: Global, finding: Option<&Finding>) -> Result<String, AllocError>
    requires { IfSome (option_copied finding) HasSlice }
    ensures { IfOk result (λ text. string_bytes text ≡ findings_json (option_to_list (option_copied finding.entry))) }
{
    match finding {
        Some(finding) => findings_json(alloc, slice::from_ref(finding)),
        None => findings_json(alloc, &[]),
    }
}

/// Prints the first of these findings, or nothing if there is none.
pub fn told_first(alloc: Global, findings: &[Finding]) -> Result<String, AllocError>
    requires { HaveSlices findings.now }
    ensures { IfOk result (λ text. string_bytes text ≡ told_text (slice_get findings.now 0)) }
{
    told_text(alloc, findings.first())
}

/// Prints the finding that `check` makes of a fault of `split` in one of these texts, in the same way.
pub fn tell_split_fault(
    alloc: Global,
    file: Source<'_>,
    filesystems: Source<'_>,
    fault: SplitFault,
) -> Result<String, AllocError>
    requires file { IsReadable file.text.now }
    requires filesystems { IsReadable filesystems.text.now }
    ensures { IfOk result (λ text. TellsOfSplit file.entry filesystems.entry fault (string_bytes text)) }
{
    let findings = find_split_fault(alloc, file, filesystems, fault)?;
    let told = told_first(alloc, findings.as_slice())?;
    drop(findings);
    Ok(told)
}

/// Prints the same finding as the one element of the list that `check --json` prints, with the line end.
pub fn split_fault_json(
    alloc: Global,
    file: Source<'_>,
    filesystems: Source<'_>,
    fault: SplitFault,
) -> Result<String, AllocError>
    requires file { IsReadable file.text.now }
    requires filesystems { IsReadable filesystems.text.now }
    ensures { IfOk result (λ text. ListsSplitFault file.entry filesystems.entry fault (string_bytes text)) }
{
    let findings = find_split_fault(alloc, file, filesystems, fault)?;
    let told = first_json(alloc, findings.as_slice())?;
    drop(findings);
    Ok(told)
}

/// Prints the first of these findings as the one element of a list, which is empty if there is none.
fn first_json(alloc: Global, findings: &[Finding]) -> Result<String, AllocError>
    requires { HaveSlices findings.now }
    ensures { IfOk result (λ text. string_bytes text ≡ findings_json (option_to_list (slice_get findings.now 0))) }
{
    one_json(alloc, findings.first())
}
