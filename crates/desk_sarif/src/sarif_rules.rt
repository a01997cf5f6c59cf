//! The rules of a log of SARIF: all that a finding may be about, each with an id, a name and a help.

ghost use Rattle.std.specs.Prelude.{◌≡◌, ◌++◌, IfOk, OnOk, map};
ghost use Rattle.std.specs.String.{string_bytes};
ghost use Rattle.serde_json.specs.View.{view};
ghost use Rattle.desk_policy.specs.declared.site_fault.SiteRule.TheVariants.{Group, Line, Table};
ghost use Rattle.desk_findings.specs.declared.finding.Matter.TheVariants.{Warning};
ghost use Rattle.desk_sarif.specs.SarifRules.{EachHasItsRule, IdsDiffer};
ghost use Rattle.desk_sarif.specs.SarifRules as spec;

use desk_exports::Rule;
use desk_findings::Matter;
use desk_netgroup::GroupRule;
use desk_policy::{SiteRule, WarningKind};
use desk_remarks::Remark;
use desk_tables::TableRule;
use serde_json::{Value, json};
use std::alloc::{AllocError, Global};

/// Makes the objects of all rules.
pub(crate) fn all_rule_values(alloc: Global) -> Result<Vec<Value>, AllocError>
    ensures { IfOk result (λ values. map view values.items ≡ map spec.rule_data spec.log_rules) }
{
    let rules = log_rules(alloc)?;
    rule_values(alloc, rules.as_slice())
}

/// Lists all that a finding may be about: the rules of the lines of exports files, of tables and of netgroup files, each in the
/// order in which they are checked, and the kinds of warnings. (Another line counts for nothing here.)
fn log_rules(alloc: Global) -> Result<Vec<Matter>, AllocError>
    ensures { IfOk result (λ rules. rules.items ≡ spec.log_rules) }
{
    let mut rules = Vec::new(alloc);
    add_faults(alloc, &mut rules)?;
    add_kinds(WarningKind::all(), &mut rules)?;
    add_remarks(Remark::all(), &mut rules)?;
    Ok(rules)
}

/// Adds the rules that a fault breaks.
fn add_faults(alloc: Global, rules: &mut Vec<Matter>) -> Result<(), AllocError>
    ensures { OnOk result (rules.new.items ≡ rules.old.items ++ map spec.broken spec.fault_rules) }
{
    let lines = Rule::all(alloc)?;
    add_line_rules(lines.as_slice(), rules)?;
    rules.push(Matter::Fault(SiteRule::Contradiction, None))?;
    add_table_rules(TableRule::all(), rules)?;
    add_group_rules(GroupRule::all(), rules)
}

/// Adds rules of lines of exports files.
fn add_line_rules(lines: &[Rule], rules: &mut Vec<Matter>) -> Result<(), AllocError>
    ensures { OnOk result (rules.new.items ≡ rules.old.items ++ map (λ rule. spec.broken (Line rule)) lines.now) }
{
    for rule in lines {
        rules.push(Matter::Fault(SiteRule::Line(*rule), None))?;
    }
    Ok(())
}

/// Adds rules of tables.
fn add_table_rules(tables: &[TableRule], rules: &mut Vec<Matter>) -> Result<(), AllocError>
    ensures { OnOk result (rules.new.items ≡ rules.old.items ++ map (λ rule. spec.broken (Table rule)) tables.now) }
{
    for rule in tables {
        rules.push(Matter::Fault(SiteRule::Table(*rule), None))?;
    }
    Ok(())
}

/// Adds rules of netgroup files.
fn add_group_rules(groups: &[GroupRule], rules: &mut Vec<Matter>) -> Result<(), AllocError>
    ensures { OnOk result (rules.new.items ≡ rules.old.items ++ map (λ rule. spec.broken (Group rule)) groups.now) }
{
    for rule in groups {
        rules.push(Matter::Fault(SiteRule::Group(*rule), None))?;
    }
    Ok(())
}

/// Adds kinds of warnings of words.
fn add_kinds(kinds: &[WarningKind], rules: &mut Vec<Matter>) -> Result<(), AllocError>
    ensures { OnOk result (rules.new.items ≡ rules.old.items ++ map Warning kinds.now) }
{
    for kind in kinds {
        rules.push(Matter::Warning(*kind))?;
    }
    Ok(())
}

/// Adds kinds of warnings of lines.
fn add_remarks(remarks: &[Remark], rules: &mut Vec<Matter>) -> Result<(), AllocError>
    ensures { OnOk result (rules.new.items ≡ rules.old.items ++ map spec.remarked remarks.now) }
{
    for remark in remarks {
        rules.push(Matter::Remark(*remark, None))?;
    }
    Ok(())
}

/// Makes the objects of rules.
fn rule_values(alloc: Global, rules: &[Matter]) -> Result<Vec<Value>, AllocError>
    ensures { IfOk result (λ values. map view values.items ≡ map spec.rule_data rules.now) }
{
    let mut values = Vec::new(alloc);
    for rule in rules {
        values.push(rule_value(alloc, *rule)?)?;
    }
    Ok(values)
}

/// Makes the object of a rule.
fn rule_value(alloc: Global, about: Matter) -> Result<Value, AllocError>
    ensures { IfOk result (λ value. view value ≡ spec.rule_data about) }
{
    let help = help_text(alloc, about)?;
    let id = rule_id(alloc, about)?;
    json!(in alloc; {"help": {"text": help}, "id": id, "name": about.name()})
}

/// Writes the help of a rule: its sentence, of something that it calls `it` or of a line.
fn help_text(alloc: Global, about: Matter) -> Result<String, AllocError>
    ensures { IfOk result (λ help. string_bytes help ≡ spec.subject_of about ++ spec.sentence_of about) }
{
    let subject = subject_of(about);
    let sentence = sentence_of(about);
    format!(in alloc; "{subject}{sentence}")
}

/// Writes the id of the rule that a finding is about: `exports/5`, `table/2`, `netgroup/3` or `warning/4`.
pub(crate) fn rule_id(alloc: Global, about: Matter) -> Result<String, AllocError>
    ensures { IfOk result (λ id. string_bytes id ≡ spec.rule_id about) }
{
    let group = group_of(about);
    let number = about.number();
    format!(in alloc; "{group}/{number}")
}

/// Returns the word for the rules among which a rule has its number.
fn group_of(about: Matter) -> &'static str
    ensures { result.now ≡ spec.group_of about }
{
    match about {
        Matter::Fault(SiteRule::Table(_), _) => "table",
        Matter::Fault(SiteRule::Group(_), _) => "netgroup",
        Matter::Fault(SiteRule::Line(_) | SiteRule::Contradiction, _) | Matter::Contradiction(..) =>
            "exports",
        Matter::Warning(_) | Matter::Remark(..) => "warning",
    }
}

/// Returns what a help has before its sentence: `it `, or nothing if that names the line.
fn subject_of(about: Matter) -> &'static str
    ensures { result.now ≡ spec.subject_of about }
{
    match about {
        Matter::Fault(..) | Matter::Contradiction(..) | Matter::Warning(_) => "it ",
        Matter::Remark(..) => "",
    }
}

/// Returns what is said of a slice or of a file, behind it, or of a line.
fn sentence_of(about: Matter) -> &'static str
    ensures { result.now ≡ spec.sentence_of about }
{
    match about {
        Matter::Fault(rule, _) => rule.sentence(),
        Matter::Contradiction(..) => SiteRule::Contradiction.sentence(),
        Matter::Warning(kind) => kind.sentence(),
        Matter::Remark(remark, _) => remark.rule().sentence(),
    }
}

/// Whatever a finding is about has its rule among those of a log.
pub fn each_has_its_rule()
    ensures { EachHasItsRule }
{}

/// No two rules of a log have one id.
pub fn ids_differ()
    ensures { IdsDiffer }
{}
