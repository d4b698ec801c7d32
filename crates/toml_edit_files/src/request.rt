//! Reading the words of a call.
ghost use Rattle.std.specs.Prelude.{◌≡◌, ◌==◌, ◌&&◌, ◌∷◌, Any, IfErr, IfOk, IsTrue, List, None, Some, false, is_none, length, map, string_bytes};
ghost use Rattle.toml_edit_files.specs.Edited.{version_by};
ghost use Rattle.toml_edit_files.specs.Help.{help_on};
ghost use Rattle.toml_edit_files.specs.Requests.{AreFileAndPath, ArePaths, AreSorts, IsNoCommand, IsKind, IsNoRequest, IsNoneAfter, IsNoneBy, SaysAfter, SaysApart, SaysBy, SaysCommand, SaysRequest, Shows, are_taken, asks_help, help_by, is_help, is_help_option, is_version, marked, reading_in, rules_in, shape_in};
ghost use Rattle.toml_edit_files.specs.Split.{Words, split_of};
ghost use Rattle.toml_edit_model.specs.Text.{Text};
ghost use Rattle.toml_edit_model.specs.Tree.{Key};
ghost use Rattle.toml_edit_model.specs.Version.{Version};
ghost use Rattle.toml_edit_edits.specs.declared.edit.Edit.{Edit};
ghost use Rattle.toml_edit_words.specs.Spelled.{IsNoPath};
ghost use Rattle.toml_edit_files.specs.Steps.{Mistakes, SaidBy, UnsaidBy};
ghost use Rattle.toml_edit_files.specs.Stops.{reason_of};
ghost use Rattle.toml_edit_items.specs.declared.shape.Shape.TheVariants.{Spelled};
ghost use Rattle.toml_edit_files.specs.declared.help.Topic.TheVariants as topics;

use crate::help::{Topic, VERSION, page, topic_of};
use crate::messages::{no_command, no_value, wrong_words};
use crate::paths::{path_of, sort_path_of};
use crate::script::edit_at;
use crate::split::{Split, rule_of, split_words};
use crate::stop::Step;
use crate::words::{
    Command, EditCommand, Fmt, Get, Has, Json, Keys, Question, Reading, Request, Style,
};
use std::alloc::Global;
use toml_edit::Key;
use toml_edit_edits::Edit;
use toml_edit_items::{Kind, Shape};
use toml_edit_settings::takes;

/// Reads the words of a call.
pub fn request_of<'w>(alloc: Global, words: &'w [String]) -> Step<Request<'w>>
    ensures says { IfOk result (SaysRequest (map string_bytes words.now)) }
    ensures stops { Mistakes (IsNoRequest (map string_bytes words.now)) result }
{
    let (reading, words) = reading_of(words);
    match command_of(alloc, words, reading) {
        Ok(command) => Ok(Request { reading, command }),
        Err(stop) => Err(stop),
    }
}

/// Returns how files are read behind the word, or `None` if it is neither `strict` nor `normal`.
fn marked(reading: Reading, word: &str) -> Option<Reading>
    ensures { result ≡ marked reading word.now }
{
    match word {
        "strict" => Some(Reading {
            strict: true,
            ..reading
        }),
        "normal" => Some(Reading {
            normal: true,
            ..reading
        }),
        _ => None,
    }
}

/// Splits off the words `strict` and `normal`.
fn reading_of(words: &[String]) -> (Reading, &[String])
    ensures { (result.0, map string_bytes result.1.now)
        ≡ reading_in (record { strict = false; normal = false }) (map string_bytes words.now) }
{
    let mut reading = Reading {
        strict: false,
        normal: false,
    };
    let mut rest = words;
    'words: while let [first, more @ ..] = rest {
        match marked(reading, first.as_str()) {
            Some(next) => reading = next,
            None => return (reading, rest),
        }
        rest = more;
    }
    (reading, rest)
}

/// Reads the command after the words `strict` and `normal`.
fn command_of<'w>(alloc: Global, words: &'w [String], reading: Reading) -> Step<Command<'w>>
    ensures says { IfOk result (SaysCommand (version_by reading) (map string_bytes words.now)) }
    ensures stops { Mistakes
        (IsNoCommand (version_by reading) (map string_bytes words.now)) result }
{
    let [name, operands @ ..] = words else {
        return Err(wrong_words(alloc, Topic::Program));
    };
    let name = name.as_str();
    if is_help(name) {
        return help_of(alloc, operands);
    }
    if is_version(name) {
        return Ok(Command::Show(String::from_str(alloc, VERSION)?));
    }
    match topic_of(name) {
        Some(topic) => operands_of(alloc, topic, operands, reading),
        None => Err(no_command(alloc, name)),
    }
}

/// Returns `true` if the word asks for help.
fn is_help(word: &str) -> bool
    ensures { result ≡ is_help word.now }
{
    is_help_option(word) || word == "help"
}

fn is_help_option(word: &str) -> bool
    ensures { result ≡ is_help_option word.now }
{
    word == "--help" || word == "-h"
}

fn is_version(word: &str) -> bool
    ensures { result ≡ is_version word.now }
{
    word == "--version" || word == "-V"
}

/// Reads what help is asked about.
fn help_of<'w>(alloc: Global, words: &[String]) -> Step<Command<'w>>
    ensures shows { IfOk result (Shows (help_by (map string_bytes words.now))) }
    ensures stops { Mistakes (help_by (map string_bytes words.now) ≡ None) result }
{
    match words {
        [] => help_about(alloc, Topic::Program),
        [name] => match topic_of(name.as_str()) {
            Some(topic) => help_about(alloc, topic),
            None => Err(no_command(alloc, name.as_str())),
        },
        _ => Err(wrong_words(alloc, Topic::Program)),
    }
}

fn help_about<'w>(alloc: Global, topic: Topic) -> Step<Command<'w>>
    ensures shows { IfOk result (Shows (Some (help_on topic))) }
    ensures memory { IfErr result (λ stop. reason_of stop ≡ None) }
{
    Ok(Command::Show(String::from_str(alloc, page(topic))?))
}

/// Reads the words after the name of a command.
fn operands_of<'w>(
    alloc: Global,
    topic: Topic,
    words: &'w [String],
    reading: Reading,
) -> Step<Command<'w>>
    ensures says { IfOk result (SaysAfter (version_by reading) topic (map string_bytes words.now)) }
    ensures stops { Mistakes
        (IsNoneAfter (version_by reading) topic (map string_bytes words.now)) result }
{
    if asks_help(words) {
        return help_about(alloc, topic);
    }
    let words = split_words(alloc, topic, words)?;
    match topic {
        Topic::Get => get_of(alloc, &words),
        Topic::Has => has_of(alloc, &words),
        Topic::Keys => keys_of(alloc, &words),
        Topic::Json => json_of(alloc, &words),
        Topic::Edit => edit_of(alloc, &words, reading),
        Topic::Check => check_of(alloc, words),
        Topic::Fmt => fmt_of(alloc, words),
        Topic::Program => Err(wrong_words(alloc, topic)),
    }
}

/// Returns `true` if the first word asks for help.
fn asks_help(words: &[String]) -> bool
    ensures { result ≡ asks_help (map string_bytes words.now) }
{
    match words {
        [first, ..] => is_help_option(first.as_str()),
        [] => false,
    }
}

fn get_of<'w>(alloc: Global, words: &Split<'w>) -> Step<Command<'w>>
    ensures says { SaidBy topics.Get (split_of words.now) result }
    ensures stops { UnsaidBy topics.Get (split_of words.now) result }
{
    let [file, texts @ ..] = words.operands.as_slice() else {
        return Err(wrong_words(alloc, Topic::Get));
    };
    if texts.is_empty() {
        return Err(wrong_words(alloc, Topic::Get));
    }
    let file = *file;
    let paths = paths_of(alloc, file, texts)?;
    Ok(Command::Ask(Question::Get(Get {
        file,
        paths,
        shape: shape_of(words),
        default: words.last("--default"),
    })))
}

fn paths_of(alloc: Global, file: &str, texts: &[&str]) -> Step<Vec<Vec<Key>>>
    ensures paths { IfOk result (λ paths. ArePaths (map (λ t. t.now) texts.now)
        (map (λ path. path.items) paths.items)) }
    ensures stops { Mistakes (Any IsNoPath (map (λ t. t.now) texts.now)) result }
{
    let mut paths = Vec::new(alloc);
    'texts: for text in texts {
        paths.push(path_of(alloc, file, *text)?)?;
    }
    Ok(paths)
}

/// Returns how `get` writes an item: of two options the last counts.
fn shape_of(words: &Split<'_>) -> Shape
    ensures { result ≡ shape_in Spelled (split_of words.now).options }
{
    let mut shape = Shape::Spelled;
    'options: for option in words.options.as_slice() {
        let (name, _) = *option;
        if name == "--raw" {
            shape = Shape::Raw;
        } else if name == "--lines" {
            shape = Shape::Lines;
        }
    }
    shape
}

fn has_of<'w>(alloc: Global, words: &Split<'w>) -> Step<Command<'w>>
    ensures says { SaidBy topics.Has (split_of words.now) result }
    ensures stops { UnsaidBy topics.Has (split_of words.now) result }
{
    match words.operands.as_slice() {
        [file, path] => has_at(alloc, *file, *path, None),
        [file, path, kind] => match Kind::named(*kind) {
            Some(kind) => has_at(alloc, *file, *path, Some(kind)),
            None => Err(wrong_words(alloc, Topic::Has)),
        },
        _ => Err(wrong_words(alloc, Topic::Has)),
    }
}

fn has_at<'w>(alloc: Global, file: &'w str, path: &str, kind: Option<Kind>) -> Step<Command<'w>>
    ensures says { (version : Version) (s : Words) (more : List Text) → s.operands ≡ file.now ∷
        (path.now ∷ more) → IsKind more kind → IfOk result (SaysBy version topics.Has s) }
    ensures stops { Mistakes (IsNoPath path.now) result }
{
    let path = path_of(alloc, file, path)?;
    Ok(Command::Ask(Question::Has(Has { file, path, kind })))
}

fn keys_of<'w>(alloc: Global, words: &Split<'w>) -> Step<Command<'w>>
    ensures says { SaidBy topics.Keys (split_of words.now) result }
    ensures stops { UnsaidBy topics.Keys (split_of words.now) result }
{
    let (file, path) = file_and_path(alloc, Topic::Keys, words)?;
    let all = words.has("--all");
    Ok(Command::Ask(Question::Keys(Keys { file, path, all })))
}

fn json_of<'w>(alloc: Global, words: &Split<'w>) -> Step<Command<'w>>
    ensures says { SaidBy topics.Json (split_of words.now) result }
    ensures stops { UnsaidBy topics.Json (split_of words.now) result }
{
    let (file, path) = file_and_path(alloc, Topic::Json, words)?;
    Ok(Command::Ask(Question::Json(Json { file, path })))
}

/// Reads a file and a path, which is that of the root if it is missing.
fn file_and_path<'w>(alloc: Global, topic: Topic, words: &Split<'w>) -> Step<(&'w str, Vec<Key>)>
    ensures says { IfOk result
        (λ r. AreFileAndPath (split_of words.now).operands r.0.now r.1.items) }
    ensures stops { Mistakes ((file : Text) (path : List Key)
        → AreFileAndPath (split_of words.now).operands file path → ⊥) result }
{
    match words.operands.as_slice() {
        [file] => Ok((*file, Vec::new(alloc))),
        [file, path] => Ok((*file, path_of(alloc, *file, *path)?)),
        _ => Err(wrong_words(alloc, topic)),
    }
}

fn edit_of<'w>(alloc: Global, words: &Split<'w>, reading: Reading) -> Step<Command<'w>>
    ensures says { IfOk result (SaysBy (version_by reading) topics.Edit (split_of words.now)) }
    ensures stops { Mistakes
        (IsNoneBy (version_by reading) topics.Edit (split_of words.now)) result }
{
    let [file, edits @ ..] = words.operands.as_slice() else {
        return Err(wrong_words(alloc, Topic::Edit));
    };
    let file = *file;
    let edits = edits_apart(alloc, file, edits, reading)?;
    let script = words.last("--script");
    if is_idle(edits.as_slice(), script) {
        return Err(wrong_words(alloc, Topic::Edit));
    }
    let command = EditCommand {
        file,
        script,
        dry_run: words.has_either("--dry-run", "--diff"),
        diff: words.has("--diff"),
        output: words.last("--output"),
        locked: words.has("--locked"),
        force: words.has("--force"),
    };
    Ok(Command::Edit(command, edits))
}

/// Returns `true` if there is neither an edit nor a script.
fn is_idle(edits: &[Edit], script: Option<&str>) -> bool
    ensures { result ≡ ((length edits.now == 0) && is_none script.entry) }
{
    edits.is_empty() && script.is_none()
}

/// Reads edits with commas between them.
fn edits_apart(alloc: Global, file: &str, words: &[&str], reading: Reading) -> Step<Vec<Edit>>
    ensures said { IfOk result (λ edits. SaysApart (version_by reading)
        (map (λ w. w.now) words.now) edits.items) }
    ensures stops { Mistakes ((edits : List Edit)
        → SaysApart (version_by reading) (map (λ w. w.now) words.now) edits → ⊥) result }
{
    let mut edits = Vec::new(alloc);
    if words.is_empty() {
        return Ok(edits);
    }
    let mut rest = edit_at(alloc, &mut edits, file, words, reading)?;
    'edits: while let [comma, more @ ..] = rest {
        if *comma != "," {
            return Err(wrong_words(alloc, Topic::Edit));
        }
        if more.is_empty() {
            return Err(wrong_words(alloc, Topic::Edit));
        }
        rest = edit_at(alloc, &mut edits, file, more, reading)?;
    }
    Ok(edits)
}

fn check_of<'w>(alloc: Global, words: Split<'w>) -> Step<Command<'w>>
    ensures says { SaidBy topics.Check (split_of words.entry) result }
    ensures stops { UnsaidBy topics.Check (split_of words.entry) result }
{
    if words.operands.is_empty() {
        return Err(wrong_words(alloc, Topic::Check));
    }
    Ok(Command::Check(words.operands))
}

fn fmt_of<'w>(alloc: Global, words: Split<'w>) -> Step<Command<'w>>
    ensures says { SaidBy topics.Fmt (split_of words.entry) result }
    ensures stops { UnsaidBy topics.Fmt (split_of words.entry) result }
{
    if words.operands.is_empty() {
        return Err(wrong_words(alloc, Topic::Fmt));
    }
    let style = Style {
        sorts: sorts_of(alloc, &words)?,
        rules: rules_of(alloc, &words)?,
        keys: words.has("--keys"),
    };
    let check = words.has_either("--check", "--diff");
    let (diff, force) = (words.has("--diff"), words.has("--force"));
    Ok(Command::Fmt(Fmt {
        files: words.operands,
        style,
        check,
        diff,
        force,
    }))
}

/// Reads the sorts that the options ask for.
fn sorts_of(alloc: Global, words: &Split<'_>) -> Step<Vec<Edit>>
    ensures sorts { IfOk result (λ sorts. AreSorts (split_of words.now).options sorts.items) }
    ensures stops { Mistakes ((sorts : List Edit)
        → AreSorts (split_of words.now).options sorts → ⊥) result }
{
    let mut sorts = Vec::new(alloc);
    'options: for option in words.options.as_slice() {
        let (name, path) = *option;
        if name == "--sort" {
            sorts.push(Edit::Sort(sort_path_of(alloc, name, path)?))?;
        }
    }
    Ok(sorts)
}

/// Reads the rules that the options set.
fn rules_of<'w>(alloc: Global, words: &Split<'w>) -> Step<Vec<(&'w str, &'w str)>>
    ensures rules { IfOk result
        (λ rules. map (λ r. (r.0.now, r.1.now)) rules.items ≡ rules_in (split_of words.now).options) }
    ensures taken { IfOk result
        (λ _. IsTrue (are_taken (rules_in (split_of words.now).options))) }
    ensures stops { Mistakes (are_taken (rules_in (split_of words.now).options) ≡ false) result }
{
    let mut rules = Vec::new(alloc);
    'options: for option in words.options.as_slice() {
        let (name, value) = *option;
        if let Some(rule) = rule_of(name) {
            match takes(rule, value) {
                Ok(()) => rules.push((rule, value))?,
                Err(_) => return Err(no_value(alloc, name, value)),
            }
        }
    }
    Ok(rules)
}
