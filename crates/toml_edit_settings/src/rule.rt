//! The names of rules.
ghost use Rattle.std.specs.Prelude.{◌≡◌};
ghost use Rattle.toml_edit_settings.specs.RuleWords.{rule_named};

/// A rule of the formatter.
#[derive(Clone, Copy, Debug, PartialEq, Eq)]
pub enum Rule {
    Equals,
    Dots,
    Comments,
    BlankLines,
    Indentation,
    Indent,
    Arrays,
    Rows,
    Commas,
    BracketSpace,
    BraceSpace,
    Width,
    InlineTables,
    BareKeys,
    LeftAlone,
}

/// Why a rule is not set.
#[derive(Clone, Copy, Debug, PartialEq, Eq)]
pub enum RuleFault {
    /// No rule has the name.
    Name,
    /// The rule does not take the value.
    Value,
}

impl Rule {
    /// Returns the rule of this name: that of the variant in lower case, as `blank-lines`.
    pub fn named(name: &str) -> Option<Rule>
        ensures { result ≡ rule_named name.now }
    {
        match name {
            "equals" => Some(Rule::Equals),
            "dots" => Some(Rule::Dots),
            "comments" => Some(Rule::Comments),
            "blank-lines" => Some(Rule::BlankLines),
            "indentation" => Some(Rule::Indentation),
            "indent" => Some(Rule::Indent),
            "arrays" => Some(Rule::Arrays),
            "rows" => Some(Rule::Rows),
            "commas" => Some(Rule::Commas),
            "bracket-space" => Some(Rule::BracketSpace),
            "brace-space" => Some(Rule::BraceSpace),
            "width" => Some(Rule::Width),
            "inline-tables" => Some(Rule::InlineTables),
            "bare-keys" => Some(Rule::BareKeys),
            "left-alone" => Some(Rule::LeftAlone),
            _ => None,
        }
    }
}
