//! The rules of the formatter by their names, and files of settings that set them.
#![tactic(auto)]

mod keys;
mod mistake;
mod pattern;
mod rule;
mod rules;
mod settings;
mod values;

pub use mistake::Mistake;
pub use pattern::matches;
pub use rule::{Rule, RuleFault};
pub use rules::{is_rule, set_rule, set_rules, takes};
pub use settings::{Settings, SettingsFault, settings_of};

#[cfg(test)]
mod tests;
