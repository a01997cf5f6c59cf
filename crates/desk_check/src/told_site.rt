//! What standard error tells beside the fault of a site: the finding that `check` prints of it.

ghost use Rattle.std.specs.Prelude.{◌≡◌, [], IfOk};
ghost use Rattle.std.specs.String.{string_bytes};
ghost use Rattle.desk_text.specs.Lines.{IsReadable};
ghost use Rattle.desk_findings.specs.OneSiteFault.{AreReadableTexts, TellLine};
ghost use Rattle.desk_check.specs.ToldFault.{TellsFirst};
ghost use Rattle.desk_check.specs.ToldSite as spec;

use crate::told_fault::told_first;
use desk_exports::{Profile, Rule};
use desk_findings::{
    SiteSources, Source, are_readable, find_contradiction, find_line_fault, gather_site,
};
use desk_policy::{SiteFault, SiteRule};
use desk_text::LineFault;
use std::alloc::{AllocError, Global};

/// Prints the finding that `check` makes of a fault of a site, with its line and carets; nothing if a text is too long to be
/// read. Of the exports the sources have just the file that the fault is of, which is read by this profile.
pub fn tell_site_fault(
    alloc: Global,
    profile: Profile,
    sources: SiteSources<'_>,
    fault: &SiteFault,
) -> Result<String, AllocError>
    ensures told { AreReadableTexts sources.entry → IfOk result (λ text. spec.TellsOfSite profile sources.entry fault.now (string_bytes text)) }
    ensures long { ¬ AreReadableTexts sources.entry → IfOk result (λ text. string_bytes text ≡ []) }
{
    if are_readable(sources) {
        told_by_rule(alloc, profile, sources, fault)
    } else {
        Ok(String::new(alloc))
    }
}

/// Prints the finding of a fault in texts that can be read.
fn told_by_rule(
    alloc: Global,
    profile: Profile,
    sources: SiteSources<'_>,
    fault: &SiteFault,
) -> Result<String, AllocError>
    requires { AreReadableTexts sources }
    ensures { IfOk result (λ text. spec.TellsOfSite profile sources.entry fault.now (string_bytes text)) }
{
    match fault.rule {
        SiteRule::Table(_) | SiteRule::Group(_) => told_of_tables(alloc, sources),
        SiteRule::Line(rule) => {
            let line = fault.line;
            told_of_line(alloc, profile, sources, LineFault { line, rule })
        }
        SiteRule::Contradiction => told_of_contradiction(alloc, sources.whole.exports, fault),
    }
}

/// Prints the first finding of a site's files. The first faulty one is that of the fault, and its first finding the fault's.
fn told_of_tables(alloc: Global, sources: SiteSources<'_>) -> Result<String, AllocError>
    requires { AreReadableTexts sources }
    ensures { IfOk result (λ text. spec.TellsOfTables sources.entry (string_bytes text)) }
{
    let gathered = gather_site(alloc, sources, false)?;
    let told = told_first(alloc, gathered.findings.as_slice())?;
    drop(gathered);
    Ok(told)
}

/// Prints the finding of a faulty line of an exports file.
fn told_of_line(
    alloc: Global,
    profile: Profile,
    sources: SiteSources<'_>,
    fault: LineFault<Rule>,
) -> Result<String, AllocError>
    requires { AreReadableTexts sources }
    ensures { IfOk result (λ text. TellsFirst (TellLine profile sources.entry fault) (string_bytes text)) }
{
    let findings = find_line_fault(alloc, profile, sources, fault)?;
    let told = told_first(alloc, findings.as_slice())?;
    drop(findings);
    Ok(told)
}

/// Prints the finding of a contradiction.
fn told_of_contradiction(
    alloc: Global,
    source: Source<'_>,
    fault: &SiteFault,
) -> Result<String, AllocError>
    requires { IsReadable source.text.now }
    ensures { IfOk result (λ text. spec.TellsOfClash source.entry fault.now.line fault.now.other fault.now.address (string_bytes text)) }
{
    let (Some(other), Some(address)) = (fault.other, fault.address) else {
        return Ok(String::new(alloc));
    };
    let findings = find_contradiction(alloc, source, fault.line, other, address)?;
    let told = told_first(alloc, findings.as_slice())?;
    drop(findings);
    Ok(told)
}
