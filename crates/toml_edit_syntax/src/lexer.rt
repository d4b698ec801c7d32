//! The lexer: from a text to its events, statement by statement.
ghost use Rattle.std.specs.Prelude.{◌≡◌, ◌⊎◌, ℕ, ◌-◌, ◌<◌, ◌≤◌, [], ◌++◌, List, drop, map, if◌then◌else◌, length, IfOk, IsOk, IsErrOf, OnOk};
ghost use Rattle.std.specs.List.{AllByRecursion};
ghost use Rattle.toml_edit_model.specs.Text.{Text, joined};
ghost use Rattle.toml_edit_model.specs.Trivia.{IsFinalTrivia};
ghost use Rattle.toml_edit_model.specs.Syntax.{AreStatements, Document, IsCut, Statement, statement_text};
ghost use Rattle.toml_edit_syntax.specs.Batches.{EndsWith, HasSpans, IsAfter, IsBatch, IsBatchRead, IsReached, ReadsParts};
ghost use Rattle.toml_edit_syntax.specs.Events.{IsSpanOf, OpensTooMany};
ghost use Rattle.toml_edit_syntax.specs.Faults.{HasSpanIn};
ghost use Rattle.toml_edit_syntax.specs.Reading as spec;

use crate::event::{Event, EventKind, Span};
use crate::line::trivia;
use crate::mistake::{Mistake, mistake_at};
use crate::statement::statement;
use std::alloc::{AllocError, AllocFailed, Global};
use toml_edit_token::run::{byte_at, first_byte};

/// The error of the lexer.
#[derive(Clone, Copy, Debug, PartialEq, Eq)]
pub enum SyntaxFault {
    /// Memory ran out.
    Memory,
    /// The text is not in the grammar: this is wrong at this span.
    Text(Mistake, Span),
}

/// Why reading stops.
#[derive(Clone, Copy, Debug)]
pub(crate) enum Stop {
    /// Memory ran out.
    Memory,
    /// The text is outside the grammar: this is wrong where so many bytes of it are left.
    Before(Mistake, usize),
    /// A bracket is one too many. Its event is the last one that was added.
    TooDeep,
}

/// What comes after a batch of statements.
#[derive(Clone, Copy, Debug, PartialEq, Eq)]
pub enum BatchEnd {
    /// More statements.
    MoreStatements,
    /// The end of the text. The last event is the trivia after the last statement.
    WholeText,
    /// What follows a bracket that is one too many. Its event is the last one.
    TooManyBrackets,
}

/// What is left of a text after a batch of its statements.
#[derive(Clone, Copy)]
pub struct Batch<'s> {
    pub end: BatchEnd,
    pub rest: &'s str,
}

/// Returns `Stop::Memory`.
impl From<AllocError> for Stop {
    ghost use Rattle.std.specs.Prelude.{◌≡◌};
    ghost use Rattle.toml_edit_syntax.specs.declared.lexer.Stop.TheVariants.{Memory};

    ghost from_gives = { λ _ e. e ≡ Memory };

    fn from(_refused: AllocError) -> Stop {
        Stop::Memory
    }
}

/// Returns `Stop::Memory`.
impl<T: Drop> From<AllocFailed<T>> for Stop {
    ghost use Rattle.std.specs.Prelude.{◌≡◌};
    ghost use Rattle.toml_edit_syntax.specs.declared.lexer.Stop.TheVariants.{Memory};

    ghost from_gives = { λ _ e. e ≡ Memory };

    fn from(_refused: AllocFailed<T>) -> Stop {
        Stop::Memory
    }
}

/// Returns the text after the byte order mark, if there is one.
fn after_mark(s: &str) -> &str
    ensures rest { result.now ≡ (if spec.is_marked s.now then drop 3 s.now else s.now) }
    ensures within { length result.now ≤ length s.now }
{
    if first_byte(s) == 0xEF && byte_at(s, 1) == 0xBB && byte_at(s, 2) == 0xBF {
        &s[3..]
    } else {
        s
    }
}

/// Makes the event of this kind from `start` up to `end`.
pub(crate) fn new_event(kind: EventKind, start: usize, end: usize) -> Event
    ensures { result ≡ record { kind = kind; span = record { start = start; end = end } } }
{
    Event {
        kind,
        span: Span { start, end },
    }
}

/// The number of events at which a batch ends.
const BATCH_SIZE: usize = 4000;

/// Adds the events of a batch of the statements that end a text.
#[inline(never)]
fn parts<'a>(events: &mut Vec<Event>, source: &str, s: &'a str) -> Result<Batch<'a>, Stop>
    requires ends { EndsWith source.now s.now }
    requires none { events.old.items ≡ [] }
    ensures reads { (n : ℕ) → length s.now < n
        → ReadsParts n (length source.now) s.now events.old.items events.new.items result }
    ensures batch { (ss : List Statement) (final : Text) → AreStatements final ss
        → IsFinalTrivia final → s.now ≡ joined (map statement_text ss) ++ final
        → IsBatchRead (length source.now) (length source.now - length s.now) ss final
        events.new.items result }
    ensures ends { IfOk result (λ b. EndsWith source.now b.rest.now) }
    ensures shorter { IfOk result
        (λ b. b.end ≡ BatchEnd.MoreStatements → length b.rest.now < length s.now) }
    ensures spans { HasSpans source.now events.new.items result }
{
    let whole = source.len();
    let mut rest = s;
    'statements: loop {
        let (len, inside) = trivia(rest);
        let (leading, text) = rest.split_at(len);
        if text.is_empty() {
            events.push(new_event(EventKind::Final, whole - rest.len(), whole))?;
            return Ok(Batch {
                end: BatchEnd::WholeText,
                rest,
            });
        }
        if events.len() >= BATCH_SIZE {
            return Ok(Batch {
                end: BatchEnd::MoreStatements,
                rest,
            });
        }
        if inside {
            return Err(Stop::Before(mistake_at(text, Mistake::ExpectedNewline), text.len()));
        }
        rest = statement(events, whole, leading, text)?;
    }
}

/// Returns the span of the character that is `left` bytes before the end of the text, or the text's
/// end.
pub(crate) fn stop_span(source: &str, left: usize) -> Span
    ensures { IsSpanOf source.now result }
{
    let byte = source.len().saturating_sub(left);
    let start = source.floor_char_boundary(byte);
    if start == source.len() {
        return Span { start, end: start };
    }
    Span {
        start,
        end: source.ceil_char_boundary(start + 1),
    }
}

/// Returns the text after the byte order mark, if there is one: the statements and what follows
/// them.
pub fn statements_of(source: &str) -> &str
    ensures reached { IsReached source.now result.now }
    ensures statements { (d : Document) → IsCut d source.now
        → result.now ≡ joined (map statement_text d.statements) ++ d.final }
{
    after_mark(source)
}

/// Reads a batch of the statements that are left of a text, and adds their events.
///
/// # Errors
///
/// `SyntaxFault::Text` if the text is not in the grammar, with a span that begins and ends between
/// characters. `SyntaxFault::Memory` if out of memory.
pub fn read_batch<'s>(
    events: &mut Vec<Event>,
    source: &'s str,
    rest: &'s str,
) -> Result<Batch<'s>, SyntaxFault>
    requires none { events.old.items ≡ [] }
    requires reached { IsReached source.now rest.now }
    ensures batch { (ss : List Statement) (final : Text) → AreStatements final ss
        → IsFinalTrivia final → rest.now ≡ joined (map statement_text ss) ++ final
        → IfOk result (λ b. IsBatch (length source.now) (length source.now - length rest.now) ss final
        events.new.items b.end b.rest.now) }
    ensures after { IfOk result (λ b. IsAfter source.now rest.now b.rest.now b.end) }
    ensures spans { OnOk result (AllByRecursion (λ e. IsSpanOf source.now e.span) events.new.items) }
    // A text of the grammar is read, unless out of memory.
    ensures every { (d : Document) → IsCut d source.now
        → IsOk result ⊎ IsErrOf result SyntaxFault.Memory }
    ensures fault { HasSpanIn source.now result }
{
    match parts(events, source, rest) {
        Ok(batch) => Ok(batch),
        Err(Stop::TooDeep) => Ok(Batch {
            end: BatchEnd::TooManyBrackets,
            rest,
        }),
        Err(Stop::Memory) => Err(SyntaxFault::Memory),
        Err(Stop::Before(mistake, left)) => Err(SyntaxFault::Text(
            mistake,
            stop_span(source, left),
        )),
    }
}

/// Reads what is left of a text, up to a bracket that is one too many, and keeps nothing of it.
///
/// # Errors
///
/// As [`read_batch`].
pub fn check_rest(alloc: Global, source: &str, rest: &str) -> Result<(), SyntaxFault>
    requires { IsReached source.now rest.now }
    ensures sound { OnOk result (((d : Document) × IsCut d source.now) ⊎ OpensTooMany source.now) }
    // A text of the grammar is read, unless out of memory.
    ensures every { (d : Document) → IsCut d source.now
        → IsOk result ⊎ IsErrOf result SyntaxFault.Memory }
    ensures fault { HasSpanIn source.now result }
{
    let mut events = Vec::new(alloc);
    let mut left = rest;
    'batches: loop {
        events.clear();
        let batch = read_batch(&mut events, source, left)?;
        match batch.end {
            BatchEnd::MoreStatements => left = batch.rest,
            BatchEnd::WholeText | BatchEnd::TooManyBrackets => return Ok(()),
        }
    }
}
