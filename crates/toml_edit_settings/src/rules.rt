//! Setting rules by their names and values.
ghost use Rattle.std.specs.Prelude.{◌≡◌, Err, IfErr, IfOk, Ok, OnOk, map, option_map};
ghost use Rattle.toml_edit_fmt.specs.RulesView.{rules_of};
ghost use Rattle.toml_edit_settings.specs.RuleWords.{IsRefusedByAll, IsTakenByAll, is_rule, rule_set, rules_by, with_rule};

use crate::rule::{Rule, RuleFault};
use crate::values::{arrays, commas, comments, indentation, limit, number, switch};
use toml_edit_fmt::Rules;

/// Sets the rule of this name.
///
/// # Errors
///
/// Returns `RuleFault::Name` if there is none, and `RuleFault::Value` if it does not take the value.
/// The rules are unchanged then.
pub fn set_rule(rules: &mut Rules, name: &str, value: &str) -> Result<(), RuleFault>
    ensures set { OnOk result
        (rule_set name.now value.now (rules_of rules.old) ≡ Ok (rules_of rules.new)) }
    ensures fault { IfErr result
        (λ fault. rule_set name.now value.now (rules_of rules.old) ≡ Err fault) }
    ensures stays { IfErr result (λ _. rules.new ≡ rules.old) }
{
    let Some(rule) = Rule::named(name) else {
        return Err(RuleFault::Name);
    };
    let Some(next) = with_rule(*rules, rule, value) else {
        return Err(RuleFault::Value);
    };
    *rules = next;
    Ok(())
}

/// Returns the rules with this one set, if it takes the value.
fn with_rule(rules: Rules, rule: Rule, value: &str) -> Option<Rules>
    ensures { option_map rules_of result ≡ with_rule rule value.now (rules_of rules) }
{
    let mut rules = rules;
    match rule {
        Rule::Equals => rules.equals = switch(value)?,
        Rule::Dots => rules.dots = switch(value)?,
        Rule::Comments => rules.comments = comments(value)?,
        Rule::BlankLines => rules.blank_lines = limit(value)?,
        Rule::Indentation => rules.indentation = indentation(value)?,
        Rule::Indent => rules.unit = number(value)?,
        Rule::Arrays => rules.arrays = arrays(value)?,
        Rule::Rows => rules.rows = switch(value)?,
        Rule::Commas => rules.commas = commas(value)?,
        Rule::BracketSpace => rules.bracket_space = switch(value)?,
        Rule::BraceSpace => rules.brace_space = switch(value)?,
        Rule::Width => rules.width = limit(value)?,
        Rule::InlineTables => rules.inline_tables = switch(value)?,
        Rule::BareKeys => rules.keys = switch(value)?,
        Rule::LeftAlone => rules.left_alone = switch(value)?,
    }
    Some(rules)
}

/// Sets rules, one after another. A name or a value that is none is passed over.
pub fn set_rules(rules: &mut Rules, settings: &[(&str, &str)])
    ensures { rules_of rules.new
        ≡ rules_by (map (λ s. (s.0.now, s.1.now)) settings.now) (rules_of rules.old) }
{
    'settings: for setting in settings {
        let (name, value) = *setting;
        let _ = set_rule(rules, name, value);
    }
}

/// Returns `true` if a rule has the name.
pub fn is_rule(name: &str) -> bool
    ensures { result ≡ is_rule name.now }
{
    Rule::named(name).is_some()
}

/// Tells whether the rule of this name takes the value, whatever the rules are.
///
/// # Errors
///
/// Returns what `set_rule` does.
pub fn takes(name: &str, value: &str) -> Result<(), RuleFault>
    ensures taken { IfOk result (λ _. IsTakenByAll name.now value.now) }
    ensures fault { IfErr result (IsRefusedByAll name.now value.now) }
{
    let mut rules = Rules::default();
    set_rule(&mut rules, name, value)
}
