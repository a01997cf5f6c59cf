//! The finding of one fault of a text: the first about it of those that are found, or the place of this fault alone.

ghost use Rattle.std.specs.Prelude.{◌≡◌, ◌∷◌, [], All, IfOk, IfSome, OnOk, map};
ghost use Rattle.std.specs.List.{find};
ghost use Rattle.std.specs.Option.{option_copied};
ghost use Rattle.desk_text.specs.Lines.{IsReadable};
ghost use Rattle.desk_exports.specs.Faults.{IsPlaced};
ghost use Rattle.desk_exports.specs.Tables.{table_rows};
ghost use Rattle.desk_tables.specs.FileSystemsText.{read_filesystems};
ghost use Rattle.desk_findings.specs.CheckFaults.{Adds};
ghost use Rattle.desk_findings.specs.CheckOdd.{TellInOrder};
ghost use Rattle.desk_findings.specs.Finding.{HasSlice, HaveSlices};
ghost use Rattle.desk_findings.specs.OneFault.{TellOne, TellOneOf, TellOneWith, TellSplit, is_about, is_same, odd_of_fault};
ghost use Rattle.desk_findings.specs.Told.{told};

use crate::check_faults::{Source, push_line_faults};
use crate::check_odd::{Among, Odd, push_in_order};
use crate::check_site::push_filesystems;
use crate::check_text::tables_for_new;
use crate::finding::{Finding, Matter};
use desk_exports::{PlacedFault, Rule, Scope, Tables, find_faults};
use desk_policy::{SiteFault, SiteRule, SiteTables};
use desk_split::SplitFault;
use desk_tables::FileSystems;
use desk_text::{LineFault, ReadError, Sequence};
use std::alloc::{AllocError, Global};

/// Finds the first of these findings that is about a fault.
pub fn first_about<'f, 'a>(
    findings: &'f [Finding<'a>],
    fault: &SiteFault,
) -> Option<&'f Finding<'a>>
    requires { HaveSlices findings.now }
    ensures first { option_copied result ≡ find (λ finding. is_about fault.now finding.matter) findings.now }
    ensures slice { IfSome (option_copied result) HasSlice }
{
    findings
        .iter()
        .find(|finding| is_about(fault, finding.matter))
}

/// Tests whether a finding about this is about a fault.
fn is_about(fault: &SiteFault, matter: Matter) -> bool
    ensures { result ≡ is_about fault.now matter }
{
    match (matter, fault.other, fault.address) {
        (Matter::Fault(rule, _), _, _) => rule.number() == fault.rule.number(),
        (Matter::Contradiction(other, address), Some(line), Some(least)) => {
            other == line && address == least
        }
        (Matter::Contradiction(..) | Matter::Warning(_) | Matter::Remark(_, _), _, _) => false,
    }
}

/// Finds the findings of FILESYSTEMS, if a fault of `split` is one of it, or else the finding of this fault of FILE.
pub fn find_split_fault<'a>(
    alloc: Global,
    file: Source<'a>,
    filesystems: Source<'a>,
    fault: SplitFault,
) -> Result<Sequence<Finding<'a>>, AllocError>
    requires file { IsReadable file.text.now }
    requires filesystems { IsReadable filesystems.text.now }
    ensures found { IfOk result (λ found. TellSplit file.entry filesystems.entry fault (map told found)) }
    ensures slices { IfOk result HaveSlices }
{
    let mut found = Sequence::new(alloc);
    push_split(alloc, file, filesystems, fault, &mut found)?;
    Ok(found)
}

/// Adds the findings of FILESYSTEMS, if the fault is one of it, or the finding of this fault of FILE.
fn push_split<'a>(
    alloc: Global,
    file: Source<'a>,
    filesystems: Source<'a>,
    fault: SplitFault,
    found: &mut Sequence<Finding<'a>>,
) -> Result<(), AllocError>
    requires file { IsReadable file.text.now }
    requires filesystems { IsReadable filesystems.text.now }
    ensures { OnOk result (Adds (TellSplit file.entry filesystems.entry fault) found.old found.new) }
{
    match fault {
        SplitFault::FileSystems(_) => push_filesystems(alloc, filesystems, found),
        SplitFault::Exports(fault) => push_one(alloc, file, filesystems.text, fault, found),
    }
}

/// Adds the finding of this fault of an exports text, whose lines go to the file systems that a text lists.
fn push_one<'a>(
    alloc: Global,
    source: Source<'a>,
    filesystems: &str,
    fault: LineFault<Rule>,
    found: &mut Sequence<Finding<'a>>,
) -> Result<(), AllocError>
    requires source { IsReadable source.text.now }
    requires filesystems { IsReadable filesystems.now }
    ensures { OnOk result (Adds (TellOne source.entry fault (read_filesystems filesystems.now)) found.old found.new) }
{
    match ReadError::split(FileSystems::read(alloc, filesystems))? {
        Ok(table) => {
            let site_tables = SiteTables::new(alloc);
            let tables = tables_for_new(&site_tables, &table);
            push_one_with(alloc, source, &tables, Scope::Whole, fault, found)
        }
        Err(_) => Ok(()),
    }
}

/// Adds the finding of this fault of an exports text, whose lines are read in this scope with these tables.
pub fn push_one_with<'a>(
    alloc: Global,
    source: Source<'a>,
    tables: &Tables<'_>,
    scope: Scope,
    fault: LineFault<Rule>,
    found: &mut Sequence<Finding<'a>>,
) -> Result<(), AllocError>
    requires { IsReadable source.text.now }
    ensures { OnOk result (Adds (TellOneWith source.entry fault scope (table_rows tables.now)) found.old found.new) }
{
    let faults = find_faults(alloc, source.text, tables, scope)?;
    push_one_of(alloc, source, faults.as_slice(), fault, found)
}

/// Adds the finding of the first of these faults that is this one; if none is, since a rule that comes before it is broken on
/// its line too, it is told at the first word of the line.
fn push_one_of<'a>(
    alloc: Global,
    source: Source<'a>,
    faults: &[PlacedFault],
    fault: LineFault<Rule>,
    found: &mut Sequence<Finding<'a>>,
) -> Result<(), AllocError>
    requires text { IsReadable source.text.now }
    requires placed { All (IsPlaced source.text.now) faults.now }
    ensures { OnOk result (Adds (TellOneOf source.entry fault (map (λ one. one.fault) faults.now)) found.old found.new) }
{
    match find_same(faults, fault) {
        Some(one) => push_line_faults(alloc, source, &[*one], found),
        None => push_on_line(alloc, source, fault, found),
    }
}

/// Adds a finding of this fault at the first word of its line.
fn push_on_line<'a>(
    alloc: Global,
    source: Source<'a>,
    fault: LineFault<Rule>,
    found: &mut Sequence<Finding<'a>>,
) -> Result<(), AllocError>
    requires { IsReadable source.text.now }
    ensures { OnOk result (Adds (TellInOrder source.entry (odd_of_fault fault ∷ [])) found.old found.new) }
{
    let mut odds = Vec::new(alloc);
    odds.push(Odd {
        line: fault.line,
        matter: Matter::Fault(SiteRule::Line(fault.rule), None),
        among: Among::Words,
        index: 0,
        directory: None,
    })?;
    push_in_order(alloc, source, odds, found)
}

/// Finds the first of these faults that is this one.
fn find_same(faults: &[PlacedFault], fault: LineFault<Rule>) -> Option<&PlacedFault>
    ensures { option_copied result ≡ find (λ one. is_same fault one.fault) faults.now }
{
    faults.iter().find(|one| one.fault.line == fault.line
        && one.fault.rule.number() == fault.rule.number())
}
