//! The options of a command and its other words.
ghost use Rattle.std.specs.Prelude.{[], ◌≡◌, ◌∷◌, ◌++◌, ◌||◌, IfErr, IfOk, None, OnOk, Some, map, string_bytes};
ghost use Rattle.std.specs.Option.{option_copied};
ghost use Rattle.toml_edit_files.specs.Split.{checks_all, following, has, is_flag, is_option, is_plain, is_refused, last_of, rule_of, split_of, split_words, step, takes, takes_operand};
ghost use Rattle.toml_edit_files.specs.Steps.{Mistakes};
ghost use Rattle.toml_edit_files.specs.Stops.{reason_of};

use crate::help::Topic;
use crate::messages::{no_option, wrong_words};
use crate::read::STREAM;
use crate::stop::Step;
use std::alloc::Global;
use toml_edit_edits::Verb;
use toml_edit_settings::is_rule;

/// The options of a command, each with its operand, and its other words.
#[derive(Drop)]
pub struct Split<'w> {
    /// An option with no operand has the empty one.
    pub options: Vec<(&'w str, &'w str)>,
    pub operands: Vec<&'w str>,
    /// The option whose operand is the next word.
    pub pending: Option<&'w str>,
    /// How many words of an edit are left, which are no options.
    pub left: usize,
    /// Whether no option follows.
    pub ended: bool,
}

/// Tells options from operands. The word `--` ends the options, and before it no file is named as one.
pub fn split_words<'w>(alloc: Global, topic: Topic, words: &'w [String]) -> Step<Split<'w>>
    ensures split { IfOk result
        (λ s. split_words topic (map string_bytes words.now) ≡ Some (split_of s)) }
    ensures stops { Mistakes (split_words topic (map string_bytes words.now) ≡ None) result }
{
    let mut split = Split {
        options: Vec::new(alloc),
        operands: Vec::new(alloc),
        pending: None,
        left: 0,
        ended: false,
    };
    'words: for word in words {
        split.take(alloc, topic, word.as_str())?;
    }
    if split.pending.is_some() {
        return Err(wrong_words(alloc, topic));
    }
    Ok(split)
}

impl<'w> Split<'w> {
    /// Takes the next word.
    fn take(&mut self, alloc: Global, topic: Topic, word: &'w str) -> Step<()>
        ensures took { OnOk result
            (step topic (split_of self.old) word.now ≡ Some (split_of self.new)) }
        ensures stops { Mistakes (step topic (split_of self.old) word.now ≡ None) result }
    {
        match self.pending {
            Some(name) => {
                self.pending = None;
                self.add_option(name, word)
            }
            None => self.take_word(alloc, topic, word),
        }
    }

    /// Takes the next word, which is no operand of an option.
    fn take_word(&mut self, alloc: Global, topic: Topic, word: &'w str) -> Step<()>
        ensures took { OnOk result (takes topic (split_of self.old) word.now None
            (is_plain (split_of self.old)) ≡ Some (split_of self.new)) }
        ensures stops { Mistakes
            (takes topic (split_of self.old) word.now None (is_plain (split_of self.old)) ≡ None) result }
    {
        if self.is_plain() {
            self.left = self.left.saturating_sub(1);
            return self.add_operand(word);
        }
        if word == "--" {
            self.ended = true;
            return Ok(());
        }
        if is_flag(topic, word) {
            return self.add_option(word, "");
        }
        if takes_operand(topic, word) {
            self.pending = Some(word);
            return Ok(());
        }
        if self.refuses(topic, word) {
            return Err(no_option(alloc, topic, word));
        }
        self.left = following(topic, self.operands.is_empty(), word);
        self.add_operand(word)
    }

    /// Returns `true` if the next word is no option, whatever it is.
    fn is_plain(&self) -> bool
        ensures { result ≡ is_plain (split_of self.now) }
    {
        self.ended || self.left > 0
    }

    /// Returns `true` if the next word is written as an option, and is to be one.
    fn refuses(&self, topic: Topic, word: &str) -> bool
        ensures { result ≡ is_refused topic (split_of self.now) word.now }
    {
        is_option(word) && (self.operands.is_empty() || checks_all(topic))
    }

    fn add_option(&mut self, name: &'w str, operand: &'w str) -> Step<()>
        ensures added { OnOk result (split_of self.new ≡ record (split_of self.old) {
          options = (split_of self.old).options ++ ((name.now, operand.now) ∷ []);
        }) }
        ensures memory { IfErr result (λ stop. reason_of stop ≡ None) }
    {
        self.options.push((name, operand))?;
        Ok(())
    }

    fn add_operand(&mut self, word: &'w str) -> Step<()>
        ensures added { OnOk result (split_of self.new ≡ record (split_of self.old) {
          operands = (split_of self.old).operands ++ (word.now ∷ []);
        }) }
        ensures memory { IfErr result (λ stop. reason_of stop ≡ None) }
    {
        self.operands.push(word)?;
        Ok(())
    }

    /// Returns the last operand of an option.
    pub fn last(&self, name: &str) -> Option<&'w str>
        ensures { option_copied result ≡ last_of name.now (split_of self.now).options }
    {
        let mut last = None;
        'options: for option in self.options.as_slice() {
            let (found, operand) = *option;
            if found == name {
                last = Some(operand);
            }
        }
        last
    }

    /// Returns `true` if there is an option of this name.
    pub fn has(&self, name: &str) -> bool
        ensures { result ≡ has name.now (split_of self.now).options }
    {
        self.last(name).is_some()
    }

    /// Returns `true` if there is an option of one of these names.
    pub fn has_either(&self, name: &str, other: &str) -> bool
        ensures { result ≡ (has name.now (split_of self.now).options
            || has other.now (split_of self.now).options) }
    {
        self.has(name) || self.has(other)
    }
}

/// Returns `true` if the word is an option of the command that takes no operand.
fn is_flag(topic: Topic, word: &str) -> bool
    ensures { result ≡ is_flag topic word.now }
{
    match topic {
        Topic::Get => word == "--raw" || word == "--lines",
        Topic::Keys => word == "--all",
        Topic::Edit => word == "--dry-run"
            || word == "--diff"
            || word == "--locked"
            || word == "--force",
        Topic::Fmt => word == "--check"
            || word == "--diff"
            || word == "--keys"
            || word == "--force",
        _ => false,
    }
}

/// Returns `true` if the word is an option of the command that takes an operand.
fn takes_operand(topic: Topic, word: &str) -> bool
    ensures { result ≡ takes_operand topic word.now }
{
    match topic {
        Topic::Get => word == "--default",
        Topic::Edit => word == "--script" || word == "--output",
        Topic::Fmt => word == "--sort" || rule_of(word).is_some(),
        _ => false,
    }
}

/// Returns the name of the rule that an option sets, or `None` if it sets none.
pub fn rule_of(word: &str) -> Option<&str>
    ensures { option_copied result ≡ rule_of word.now }
{
    match word.strip_prefix("--") {
        Some(name) if is_rule(name) => Some(name),
        _ => None,
    }
}

/// Returns `true` if the word is written as an option.
pub fn is_option(word: &str) -> bool
    ensures { result ≡ is_option word.now }
{
    word.starts_with("-") && word != STREAM
}

/// Returns `true` if no word of the command is written as an option, and not its first file alone.
fn checks_all(topic: Topic) -> bool
    ensures { result ≡ checks_all topic }
{
    matches!(topic, Topic::Check | Topic::Fmt | Topic::Edit)
}

/// Returns how many words after this one are of the same edit.
fn following(topic: Topic, is_file: bool, word: &str) -> usize
    ensures { result ≡ following topic is_file word.now }
{
    match topic {
        Topic::Edit => {
            if is_file {
                return 0;
            }
            match Verb::named(word) {
                Some(verb) => verb.count(),
                None => 0,
            }
        }
        _ => 0,
    }
}
