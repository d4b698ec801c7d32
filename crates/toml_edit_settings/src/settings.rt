//! Files of settings: rules for files by their paths, and files that are left out.
ghost use Rattle.std.specs.Prelude.{◌≡◌, IfErr, IfOk, OnErr, OnOk};
ghost use Rattle.toml_edit_fmt.specs.RulesView.{rules_of};
ghost use Rattle.toml_edit_settings.specs.Said.{excludes, rules_at, set_where};
ghost use Rattle.toml_edit_settings.specs.SaidView.{saying};
ghost use Rattle.toml_edit_settings.specs.SettingsView.{AreSettings, IsFault, said_by};

use crate::keys::{Said, first_mistake, leaves_out, said_in};
use crate::mistake::Mistake;
use crate::pattern::matches;
use crate::rules::set_rule;
use std::alloc::{AllocError, Global};
use toml_edit::{Document, Mem, ParseFault, TomlError, line_column};
use toml_edit_fmt::Rules;

/// The settings of a file: rules for files by their paths, and files that are left out.
#[derive(Debug, Drop)]
pub struct Settings {
    said: Vec<Said>,
}

/// The error of a text that has no settings.
#[derive(Debug, Drop)]
pub enum SettingsFault {
    /// Out of memory.
    Memory,
    /// The text is not TOML.
    Toml(TomlError),
    /// A setting is wrong: the line and the column of its key, from 1, and what is wrong.
    Setting(usize, usize, Mistake),
}

impl From<ParseFault> for SettingsFault {
    ghost use Rattle.std.specs.Prelude.{◌≡◌};
    ghost use Rattle.toml_edit_settings.specs.SettingsView.{fault_of};

    ghost from_gives = { λ fault e. e ≡ fault_of fault };

    fn from(fault: ParseFault) -> SettingsFault {
        match fault {
            ParseFault::Toml(error) => SettingsFault::Toml(error),
            ParseFault::Memory => SettingsFault::Memory,
        }
    }
}

impl From<AllocError> for SettingsFault {
    ghost use Rattle.std.specs.Prelude.{◌≡◌};
    ghost use Rattle.toml_edit_settings.specs.declared.settings.SettingsFault.TheVariants.{Memory};

    ghost from_gives = { λ _ e. e ≡ Memory };

    fn from(_refused: AllocError) -> SettingsFault {
        SettingsFault::Memory
    }
}

/// Reads the settings in a text.
///
/// Each rule has a key, whose value is an integer, a boolean for `on` or `off`, or a string. The
/// array `exclude` has patterns of files that are left out. A table in `paths` has rules for the
/// files whose paths match its key, which is a pattern.
///
/// # Errors
///
/// Returns `SettingsFault::Toml` if the text is refused, and `SettingsFault::Setting` for the first
/// setting in the text that is wrong. Returns `SettingsFault::Memory` if out of memory.
pub fn settings_of(alloc: Global, text: &str) -> Result<Settings, SettingsFault>
    ensures settings { IfOk result (λ settings. AreSettings text.now (said_by settings)) }
    ensures fault { IfErr result (IsFault text.now) }
{
    let document = Document::parse(alloc, text)?;
    let Some(slots) = document.as_item().as_slots() else {
        unreachable!();
    };
    let said = said_in(alloc, slots)?;
    match first_mistake(&said) {
        None => Ok(Settings { said }),
        Some((at, mistake)) => {
            let (line, column) = line_column(text, at);
            Err(SettingsFault::Setting(line, column, mistake))
        }
    }
}

impl Settings {
    /// Sets the rules for the file of this path, whose folders are parted by `/`: those for all
    /// files, and then those of each pattern that matches, in the order of the text.
    ///
    /// # Errors
    ///
    /// Returns an `AllocError` if out of memory. The rules are unchanged then.
    pub fn set_rules(&self, alloc: Global, path: &str, rules: &mut Rules) -> Mem<()>
        ensures set { OnOk result
            (rules_of rules.new ≡ rules_at (said_by self.now) path.now (rules_of rules.old)) }
        ensures stays { OnErr result (rules.new ≡ rules.old) }
    {
        let mut next = *rules;
        'said: for said in &self.said {
            set_where(alloc, said, path, &mut next)?;
        }
        *rules = next;
        Ok(())
    }

    /// Returns `true` if the file of this path is left out.
    ///
    /// # Errors
    ///
    /// Returns an `AllocError` if out of memory.
    pub fn excludes(&self, alloc: Global, path: &str) -> Mem<bool>
        ensures { IfOk result (λ yes. yes ≡ excludes (said_by self.now) path.now) }
    {
        'said: for said in &self.said {
            if leaves_out(alloc, said, path)? {
                return Ok(true);
            }
        }
        Ok(false)
    }
}

/// Sets the rule that is said, if the path matches.
fn set_where(alloc: Global, said: &Said, path: &str, rules: &mut Rules) -> Mem<()>
    ensures { OnOk result
        (rules_of rules.new ≡ set_where path.now (rules_of rules.old) (saying said.now)) }
{
    match said {
        Said::Rule(pattern, name, value) => {
            if matches(alloc, pattern.as_str(), path)? {
                // It takes the value, which was tried when it was read.
                let _ = set_rule(rules, name.as_str(), value.as_str());
            }
            Ok(())
        }
        Said::Excluded(_) | Said::Wrong(_, _) => Ok(()),
    }
}
