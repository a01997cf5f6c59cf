//! The rules of a log of expectations: all that a result may be about, each with an id, a name and a help.

ghost use Rattle.std.specs.Prelude.{◌≡◌, ◌++◌, IfOk, codes, map};
ghost use Rattle.std.specs.String.{string_bytes};
ghost use Rattle.serde_json.specs.View.{view};
ghost use Rattle.cli_expectations.specs.LogRules.{EachHasItsRule};
ghost use Rattle.cli_expectations.specs.LogRules as spec;

use desk_expect::Rule;
use desk_text::Said;
use serde_json::{Value, json};
use std::alloc::{AllocError, Global};

/// What a result is about.
#[derive(Clone, Copy)]
pub enum LogRule {
    /// A line of expectations breaks this rule.
    Fault(Rule),
    /// What a line expects is broken.
    Broken,
}

/// All of them: the rules of a line in the order in which they are checked, and the last.
const RULES: &[LogRule] = &[
    LogRule::Fault(Rule::OpenQuote),
    LogRule::Fault(Rule::Form),
    LogRule::Fault(Rule::BadAction),
    LogRule::Fault(Rule::BadPath),
    LogRule::Fault(Rule::BadAddress),
    LogRule::Fault(Rule::UnknownName),
    LogRule::Fault(Rule::Nobody),
    LogRule::Broken,
];

/// Lends all of them.
fn log_rules() -> &'static [LogRule]
    ensures { result.now ≡ spec.log_rules }
{
    RULES
}

/// Makes the objects of all of them.
pub(crate) fn all_rule_values(alloc: Global) -> Result<Vec<Value>, AllocError>
    ensures { IfOk result (λ values. map view values.items ≡ map spec.rule_data spec.log_rules) }
{
    rule_values(alloc, log_rules())
}

/// Makes the objects of these.
fn rule_values(alloc: Global, rules: &[LogRule]) -> Result<Vec<Value>, AllocError>
    ensures { IfOk result (λ values. map view values.items ≡ map spec.rule_data rules.now) }
{
    let mut values = Vec::new(alloc);
    for rule in rules {
        values.push(rule.value(alloc)?)?;
    }
    Ok(values)
}

impl LogRule {
    /// Makes the object of a rule.
    fn value(self, alloc: Global) -> Result<Value, AllocError>
        ensures { IfOk result (λ value. view value ≡ spec.rule_data self) }
    {
        let help = self.help(alloc)?;
        let id = self.id(alloc)?;
        json!(in alloc; {"help": {"text": help}, "id": id, "name": self.said().name})
    }

    /// Writes the help of a rule.
    fn help(self, alloc: Global) -> Result<String, AllocError>
        ensures { IfOk result (λ help. string_bytes help ≡ codes "it " ++ spec.rule_sentence self) }
    {
        let sentence = self.said().sentence;
        format!(in alloc; "it {sentence}")
    }

    /// Writes the id of a rule: `expectations/6`, or `broken/1`.
    pub(crate) fn id(self, alloc: Global) -> Result<String, AllocError>
        ensures { IfOk result (λ id. string_bytes id ≡ spec.rule_id self) }
    {
        let group = self.group();
        let number = self.said().number;
        format!(in alloc; "{group}/{number}")
    }

    /// Returns the word for the rules among which a rule has its number.
    fn group(self) -> &'static str
        ensures { result.now ≡ spec.group_of self }
    {
        match self {
            LogRule::Fault(_) => "expectations",
            LogRule::Broken => "broken",
        }
    }

    /// Returns what is printed of a rule.
    fn said(self) -> Said
        ensures number { result.number ≡ spec.rule_number self }
        ensures name { result.name.now ≡ spec.rule_name self }
        ensures sentence { result.sentence.now ≡ spec.rule_sentence self }
    {
        match self {
            LogRule::Fault(rule) => Said {
                number: rule.number(),
                name: rule.name(),
                sentence: rule.sentence(),
            },
            LogRule::Broken => Said {
                number: 1,
                name: "Broken",
                sentence: "is broken: the exports allow what it forbids, or do not allow what it expects",
            },
        }
    }
}

/// Whatever a result is about has its rule among those of a log.
pub fn each_has_its_rule()
    ensures { EachHasItsRule }
{}
