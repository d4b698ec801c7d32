//! What is known between two statements.
ghost use Rattle.std.specs.Prelude.{◌≡◌, ◌<◌, ◌≤◌, ◌^◌, ℕ, codes, length, not};
ghost use Rattle.std.specs.List.{list_any};
ghost use Rattle.toml_edit_model.specs.Comments.{comments};
ghost use Rattle.toml_edit_model.specs.Syntax.{Header, Statement};
ghost use Rattle.toml_edit_syntax.specs.Events.{header_events, statement_events};
ghost use Rattle.toml_edit_fmt_laws.specs.Formatted.{has_part, off_after, reached, start, stays, turned, unspaced};
ghost use Rattle.toml_edit_fmt_laws.specs.Rules.{line_depth};
ghost use Rattle.toml_edit_fmt.specs.RulesView.{rules_of};
ghost use Rattle.toml_edit_fmt.specs.StateView.{is_header, passed, state_of};

use crate::lines::split_comment;
use crate::rules::{Indentation, Rules};
use toml_edit_repr::comments::{end_of_words, split_white};
use toml_edit_syntax::{Event, EventKind};

/// What is known before a statement: whether none was before it, how many keys the header above it
/// has, whether a comment has put formatting off, and whether a tool has written the text.
#[derive(Clone, Copy)]
pub(crate) struct State {
    pub(crate) is_start: bool,
    pub(crate) keys: usize,
    is_off: bool,
    is_generated: bool,
}

impl State {
    /// Makes the state at the start of a text.
    pub(crate) fn new() -> State
        ensures { state_of result ≡ start }
    {
        State {
            is_start: true,
            keys: 0,
            is_off: false,
            is_generated: false,
        }
    }

    /// Returns `true` if a statement here stays as it is.
    pub(crate) fn stays(self) -> bool
        ensures { result ≡ stays (state_of self) }
    {
        self.is_off || self.is_generated
    }

    /// Goes past what is before a statement, or at the end of the text.
    pub(crate) fn reach(&mut self, rules: &Rules, leading: &str)
        ensures { state_of self.new
            ≡ reached (rules_of rules.now) (state_of self.old) leading.now }
    {
        if rules.left_alone {
            self.is_off = is_off_after(self.is_off, leading);
            self.is_generated = self.is_generated || self.is_start && is_generated(leading);
        }
    }

    /// Goes past a statement.
    pub(crate) fn pass(&mut self, statement: &[Event])
        ensures state { (s : Statement) (start : ℕ) → statement.now ≡ statement_events start s
            → state_of self.new ≡ passed (state_of self.old) s }
        ensures few { self.old.keys < 2 ^ 63 → self.new.keys < 2 ^ 63 }
    {
        self.is_start = false;
        if is_header(statement) {
            self.keys = key_count(statement);
        }
    }
}

/// Returns `true` if the events are those of a header.
pub(crate) fn is_header(statement: &[Event]) -> bool
    ensures { (s : Statement) (start : ℕ) → statement.now ≡ statement_events start s
        → result ≡ is_header s }
{
    match statement {
        [_, second, ..] => matches!(
            second.kind,
            EventKind::HeaderOpen | EventKind::ArrayHeaderOpen
        ),
        _ => false,
    }
}

/// Returns the number of keys of a header.
pub(crate) fn key_count(header: &[Event]) -> usize
    ensures keys { (h : Header) (start : ℕ) → header.now ≡ header_events start h
        → result ≡ length h.path }
    ensures within { result ≤ length header.now }
{
    header
        .iter()
        .filter(|event| matches!(event.kind, EventKind::Key))
        .count()
}

/// Returns how many units the lines below a header of so many keys are indented.
pub(crate) fn depth_below(rules: &Rules, keys: usize) -> usize
    ensures { result ≡ line_depth (rules_of rules.now) keys }
{
    match rules.indentation {
        Indentation::AsItIs | Indentation::Flush => 0,
        Indentation::ByDepth => keys,
    }
}

/// Returns `true` if formatting is off after the comments of a text.
fn is_off_after(is_off: bool, text: &str) -> bool
    ensures { result ≡ off_after is_off (comments text.now) }
{
    let mut is_off = is_off;
    let mut rest = text;
    'comments: while let Some((comment, after)) = split_comment(rest) {
        is_off = turned(is_off, comment);
        rest = after;
    }
    is_off
}

/// Returns `true` if formatting is off after a comment.
fn turned(is_off: bool, comment: &str) -> bool
    ensures { result ≡ turned is_off comment.now }
{
    match unspaced(comment) {
        "fmt: off" => true,
        "fmt: on" => false,
        _ => is_off,
    }
}

/// Returns a text without the white space at its ends.
fn unspaced(text: &str) -> &str
    ensures { result.now ≡ unspaced text.now }
{
    split_white(text.split_at(end_of_words(text)).0).1
}

/// Returns `true` if a comment of the text says that a tool has written it.
fn is_generated(text: &str) -> bool
    ensures { result ≡ list_any (has_part (codes "@generated")) (comments text.now) }
{
    let mut rest = text;
    'comments: while let Some((comment, after)) = split_comment(rest) {
        if says_generated(comment) {
            return true;
        }
        rest = after;
    }
    false
}

/// Returns `true` if a comment says that a tool has written the text.
fn says_generated(comment: &str) -> bool
    ensures { result ≡ has_part (codes "@generated") comment.now }
{
    comment.contains("@generated")
}
