//! What the keys of a file of settings say.
ghost use Rattle.std.specs.Prelude.{◌≡◌, IfOk, flat_map, map, option_map, string_bytes};
ghost use Rattle.toml_edit_model.specs.Text.{one};
ghost use Rattle.toml_edit_settings.specs.Said.{earlier as earlier_of, first_mistake, leaves_out_at};
ghost use Rattle.toml_edit_settings.specs.SaidView.{Adds, saying, sayings, shown_slot};
ghost use Rattle.toml_edit_settings.specs.SettingsText.{exclude_said, general_said, kind_mistake, left_out, mistake_of, own_said, paths_said, rule_said, rules_said, said_in, said_of, start_of, switch_word, word_of, wrong_kind};
ghost use Rattle.toml_edit_tree.specs.Elements.{listed};
ghost use Rattle.toml_edit_tree.specs.Indexed.{shown_slots};
ghost use Rattle.toml_edit_tree.specs.View.{item_view, value_view};

use crate::mistake::Mistake;
use crate::pattern::matches;
use crate::rule::RuleFault;
use crate::rules::{is_rule, takes};
use std::alloc::Global;
use toml_edit_key::Key;
use toml_edit_repr::Mem;
use toml_edit_slots::{Slot, Slots};
use toml_edit_tree::{Item, Value};

/// The pattern of all paths.
const EVERY: &str = "**";

/// What a key of the file says.
#[derive(Debug, Drop)]
pub enum Said {
    /// The pattern of the files whose rule is set, and its name and value.
    Rule(String, String, String),
    /// The pattern of files that are left out.
    Excluded(String),
    /// Nothing, since it is wrong: where the key begins, in bytes.
    Wrong(usize, Mistake),
}

/// Returns `true` if the files that are said to be left out have this path among them.
pub fn leaves_out(alloc: Global, said: &Said, path: &str) -> Mem<bool>
    ensures { IfOk result (λ yes. yes ≡ leaves_out_at path.now (saying said.now)) }
{
    match said {
        Said::Excluded(pattern) => matches(alloc, pattern.as_str(), path),
        Said::Rule(_, _, _) | Said::Wrong(_, _) => Ok(false),
    }
}

/// Returns the mistake that is the first in the text, and where.
pub fn first_mistake(all: &[Said]) -> Option<(usize, Mistake)>
    ensures { result ≡ first_mistake (map saying all.now) }
{
    let mut first = None;
    'said: for said in all {
        first = earlier(first, said);
    }
    first
}

/// Returns the mistake that is said, if it is before this one.
fn earlier(first: Option<(usize, Mistake)>, said: &Said) -> Option<(usize, Mistake)>
    ensures { result ≡ earlier_of first (saying said.now) }
{
    let Said::Wrong(at, mistake) = said else {
        return first;
    };
    match first {
        Some((before, other)) if before <= *at => Some((before, other)),
        _ => Some((*at, *mistake)),
    }
}

/// Returns what is said: for all files, and then for those of patterns.
pub fn said_in(alloc: Global, slots: &Slots<Item>) -> Mem<Vec<Said>>
    ensures { IfOk result (λ said. sayings said ≡ said_in (shown_slots slots.now)) }
{
    let mut said = Vec::new(alloc);
    add_general(alloc, &mut said, slots)?;
    add_own(alloc, &mut said, slots)?;
    Ok(said)
}

/// Adds what the keys say for all files.
fn add_general(alloc: Global, said: &mut Vec<Said>, slots: &Slots<Item>) -> Mem<()>
    ensures { Adds (flat_map general_said (shown_slots slots.now)) said.old said.new result }
{
    let entries = slots.as_slice();
    'slots: for slot in entries {
        add_general_key(alloc, said, slot)?;
    }
    Ok(())
}

/// Adds what a key says for all files.
fn add_general_key(alloc: Global, said: &mut Vec<Said>, slot: &Slot<Item>) -> Mem<()>
    ensures { Adds (general_said (shown_slot slot.now)) said.old said.new result }
{
    match slot.key.get() {
        "exclude" => add_exclude(alloc, said, slot),
        "paths" => Ok(()),
        _ => add_rule(alloc, said, EVERY, slot),
    }
}

/// Adds what the keys say for the files of patterns.
fn add_own(alloc: Global, said: &mut Vec<Said>, slots: &Slots<Item>) -> Mem<()>
    ensures { Adds (flat_map own_said (shown_slots slots.now)) said.old said.new result }
{
    let entries = slots.as_slice();
    'slots: for slot in entries {
        add_own_key(alloc, said, slot)?;
    }
    Ok(())
}

/// Adds what a key says for the files of patterns.
fn add_own_key(alloc: Global, said: &mut Vec<Said>, slot: &Slot<Item>) -> Mem<()>
    ensures { Adds (own_said (shown_slot slot.now)) said.old said.new result }
{
    match slot.key.get() {
        "paths" => add_paths(alloc, said, slot),
        _ => Ok(()),
    }
}

/// Adds what the key `paths` says.
fn add_paths(alloc: Global, said: &mut Vec<Said>, slot: &Slot<Item>) -> Mem<()>
    ensures { Adds (paths_said (shown_slot slot.now)) said.old said.new result }
{
    match slot.item.as_slots() {
        Some(slots) => add_patterns(alloc, said, slots),
        None => add_wrong_kind(said, slot),
    }
}

/// Adds what the tables of patterns say.
fn add_patterns(alloc: Global, said: &mut Vec<Said>, slots: &Slots<Item>) -> Mem<()>
    ensures { Adds (flat_map rules_said (shown_slots slots.now)) said.old said.new result }
{
    let entries = slots.as_slice();
    'slots: for slot in entries {
        add_pattern(alloc, said, slot)?;
    }
    Ok(())
}

/// Adds what the table of a pattern says.
fn add_pattern(alloc: Global, said: &mut Vec<Said>, slot: &Slot<Item>) -> Mem<()>
    ensures { Adds (rules_said (shown_slot slot.now)) said.old said.new result }
{
    match slot.item.as_slots() {
        Some(slots) => add_rules(alloc, said, slot.key.get(), slots),
        None => add_wrong_kind(said, slot),
    }
}

/// Adds the rules that keys set for the files that match.
fn add_rules(alloc: Global, said: &mut Vec<Said>, pattern: &str, slots: &Slots<Item>) -> Mem<()>
    ensures { Adds (map (rule_said pattern.now) (shown_slots slots.now)) said.old said.new result }
{
    let entries = slots.as_slice();
    'slots: for slot in entries {
        add_rule(alloc, said, pattern, slot)?;
    }
    Ok(())
}

/// Adds what the key `exclude` says.
fn add_exclude(alloc: Global, said: &mut Vec<Said>, slot: &Slot<Item>) -> Mem<()>
    ensures { Adds (exclude_said (shown_slot slot.now)) said.old said.new result }
{
    match slot.item.as_array() {
        Some(array) => add_excluded(alloc, said, slot, array.values.as_slice()),
        None => add_wrong_kind(said, slot),
    }
}

/// Adds the patterns of files that are left out.
fn add_excluded(alloc: Global, said: &mut Vec<Said>, slot: &Slot<Item>, items: &[Item]) -> Mem<()>
    ensures { Adds (map (left_out (shown_slot slot.now)) (listed items.now)) said.old said.new
        result }
{
    'items: for item in items {
        match item.as_str() {
            Some(pattern) => said.push(Said::Excluded(String::from_str(alloc, pattern)?))?,
            None => add_wrong_kind(said, slot)?,
        }
    }
    Ok(())
}

/// Adds that the value of a key is of a wrong kind.
fn add_wrong_kind(said: &mut Vec<Said>, slot: &Slot<Item>) -> Mem<()>
    ensures { Adds (wrong_kind (shown_slot slot.now)) said.old said.new result }
{
    said.push(Said::Wrong(start_of(&slot.key), Mistake::WrongKind))?;
    Ok(())
}

/// Adds the rule that a key sets for the files that match.
fn add_rule(alloc: Global, said: &mut Vec<Said>, pattern: &str, slot: &Slot<Item>) -> Mem<()>
    ensures { Adds (one (rule_said pattern.now (shown_slot slot.now))) said.old said.new result }
{
    let at = start_of(&slot.key);
    let word = word_of(alloc, &slot.item)?;
    let rule = rule_of(alloc, pattern, at, slot.key.get(), word)?;
    said.push(rule)?;
    Ok(())
}

/// Returns what a key with this word as its value says of a rule.
fn rule_of(alloc: Global, pattern: &str, at: usize, name: &str, word: Option<String>) -> Mem<Said>
    ensures { IfOk result
        (λ said. saying said ≡ said_of pattern.now at name.now (option_map string_bytes word)) }
{
    let Some(word) = word else {
        return Ok(Said::Wrong(at, kind_mistake(name)));
    };
    match takes(name, word.as_str()) {
        Ok(()) => {
            let pattern = String::from_str(alloc, pattern)?;
            let name = String::from_str(alloc, name)?;
            Ok(Said::Rule(pattern, name, word))
        }
        Err(fault) => {
            drop(word);
            Ok(Said::Wrong(at, mistake_of(fault)))
        }
    }
}

/// Returns what is wrong with a key of this name whose value is of a kind that no rule takes.
fn kind_mistake(name: &str) -> Mistake
    ensures { result ≡ kind_mistake name.now }
{
    if is_rule(name) {
        Mistake::WrongKind
    } else {
        Mistake::NoRule
    }
}

/// Returns what is wrong where a rule is not set.
fn mistake_of(fault: RuleFault) -> Mistake
    ensures { result ≡ mistake_of fault }
{
    match fault {
        RuleFault::Name => Mistake::NoRule,
        RuleFault::Value => Mistake::NoSuchValue,
    }
}

/// Returns where a key begins.
fn start_of(key: &Key) -> usize
    ensures { result ≡ start_of key.now }
{
    match key.span() {
        Some(span) => span.start,
        None => 0,
    }
}

/// Returns the word that a value is for, if it is of a kind that rules take.
fn word_of(alloc: Global, item: &Item) -> Mem<Option<String>>
    ensures { IfOk result (λ word. option_map string_bytes word ≡ word_of (item_view item.now)) }
{
    match item {
        Item::Value(value) => value_word(alloc, value),
        Item::None | Item::Table(_) | Item::ArrayOfTables(_) => Ok(None),
    }
}

/// Returns the word of a value.
fn value_word(alloc: Global, value: &Value) -> Mem<Option<String>>
    ensures { IfOk result (λ word. option_map string_bytes word ≡ word_of (value_view value.now)) }
{
    match value {
        Value::String(text) => Ok(Some(String::from_str(alloc, text.value().as_str())?)),
        Value::Integer(number) => Ok(Some(number.value().to_string(alloc)?)),
        Value::Boolean(yes) => Ok(Some(String::from_str(alloc, switch_word(*yes.value()))?)),
        Value::Float(_) | Value::Datetime(_) | Value::Array(_) | Value::InlineTable(_) => Ok(None),
    }
}

/// Returns the word for a boolean.
fn switch_word(yes: bool) -> &'static str
    ensures { result.now ≡ switch_word yes }
{
    if yes { "on" } else { "off" }
}
