//! The statements of a text, one after another.
ghost use Rattle.std.specs.Prelude.{◌≡◌, ◌<◌, ◌++◌, ◌+◌, ◌-◌, ℕ, false, length, position, IfErr, IfSome, IsSomeAnd, List, None, OnOk};
ghost use Rattle.toml_edit_model.specs.Syntax.{Document, IsCut, Statement, newline_after, statement_text};
ghost use Rattle.toml_edit_model.specs.Text.{Text};
ghost use Rattle.toml_edit_laws.specs.Standing.{Stands};
ghost use Rattle.toml_edit_syntax.specs.Batches.{last_events};
ghost use Rattle.toml_edit_syntax.specs.Events.{IsSpanOf, events_from, statement_events};
ghost use Rattle.toml_edit_syntax.specs.LateEvents.{AreIn, is_line_end};
ghost use Rattle.toml_edit_syntax.specs.declared.event.Event.{Event};
ghost use Rattle.toml_edit_syntax.specs.declared.lexer.BatchEnd.{BatchEnd};
ghost use Rattle.toml_edit_fmt.specs.TextView.{HandedOn, IsEnded, IsRefused, TookDocument, ends_deep};

use crate::fault::FormatFault;
use std::alloc::Global;
use toml_edit_repr::Mem;
use toml_edit_repr::comments::split_line;
use toml_edit_syntax::{BatchEnd, Event, EventKind, read_batch, statements_of};

/// What takes the statements of a text.
pub(crate) trait Statements {
    // the text that the events are of
    ghost source: { Self → Text };

    // what taking these events, or the last one, does
    ghost takes: { List Event → Self → Self → Type 0 };

    ghost takes_last: { Event → Self → Self → Type 0 };

    /// Takes a statement.
    fn take(&mut self, statement: &[Event]) -> Mem<()>
        requires { AreIn (source self.old) statement.now }
        ensures takes { OnOk result (takes statement.now self.old self.new) }
        ensures source { OnOk result (source self.new ≡ source self.old) };

    /// Takes what is after the last statement.
    fn take_last(&mut self, last: &Event) -> Mem<()>
        requires { IsSpanOf (source self.old) last.now.span }
        ensures takes { OnOk result (takes_last last.now self.old self.new) }
        ensures source { OnOk result (source self.new ≡ source self.old) };
}

/// Hands on the statements of a text. Fails if the text is outside the grammar or is nested too deep,
/// or if out of memory.
pub(crate) fn go_over<S: Statements>(
    alloc: Global,
    text: &str,
    to: &mut S,
) -> Result<(), FormatFault>
    requires { S.source to.old ≡ text.now }
    ensures walk { (d : Document) → IsCut d text.now
        → OnOk result (TookDocument S.takes S.takes_last d to.old to.new) }
    ensures cut { OnOk result ((d : Document) × IsCut d text.now) }
    ensures refused { IfErr result (IsRefused text.now) }
{
    let mut events = Vec::new(alloc);
    let mut left = statements_of(text);
    'batches: loop {
        events.clear();
        let batch = read_batch(&mut events, text, left)?;
        if ends_deep(events.as_slice()) {
            return Err(FormatFault::Text);
        }
        hand_on(events.as_slice(), to)?;
        match batch.end {
            BatchEnd::MoreStatements => left = batch.rest,
            BatchEnd::WholeText => return Ok(()),
            BatchEnd::TooManyBrackets => return Err(FormatFault::Text),
        }
    }
}

/// Returns `true` if the last event is a bracket that is one too many.
fn ends_deep(events: &[Event]) -> bool
    ensures { result ≡ ends_deep events.now }
{
    match events {
        [.., last] => matches!(last.kind, EventKind::TooDeep),
        [] => false,
    }
}

/// Hands on the statements of these events, and what is after the last one of the text.
fn hand_on<S: Statements>(events: &[Event], to: &mut S) -> Mem<()>
    requires { AreIn (S.source to.old) events.now }
    ensures statements { (ss : List Statement) (start : ℕ) (end : BatchEnd) (whole : ℕ) (final : Text)
        → events.now ≡ events_from start ss ++ last_events end whole final
        → OnOk result
        (HandedOn S.takes S.takes_last start ss (last_events end whole final) to.old to.new) }
    ensures source { OnOk result (S.source to.new ≡ S.source to.old) }
{
    let mut rest = events;
    'statements: while let Some((statement, after)) = split_statement(rest) {
        to.take(statement)?;
        rest = after;
    }
    match rest {
        [last, ..] => to.take_last(last),
        [] => Ok(()),
    }
}

/// Splits off the first statement, if there is one.
fn split_statement(events: &[Event]) -> Option<(&[Event], &[Event])>
    ensures parts { IfSome result (λ p. events.now ≡ p.0.now ++ p.1.now) }
    ensures shorter { IfSome result (λ p. length p.1.now < length events.now) }
    ensures statement { (s : Statement) (start : ℕ) (more : List Event)
        → events.now ≡ statement_events start s ++ more
        → IsSomeAnd result (λ p. (p.0.now ≡ statement_events start s) × (p.1.now ≡ more)) }
    ensures none { (end : BatchEnd) (whole : ℕ) (final : Text) → events.now ≡ last_events end whole final
        → result ≡ None }
{
    let at = line_end(events)?;
    Some(events.split_at(at + 1))
}

/// Returns the place of the event that ends the first statement.
fn line_end(events: &[Event]) -> Option<usize>
    ensures { result ≡ position (λ e. is_line_end e.kind) events.now }
{
    events
        .iter()
        .position(|event| matches!(event.kind, EventKind::LineEnd))
}

/// Returns the newline after the last event of a statement, which is empty at the end of the text.
pub(crate) fn newline_after<'a>(text: &'a str, end: &Event) -> &'a str
    requires { IsSpanOf text.now end.now.span }
    ensures { (s : Statement) (start : ℕ) → Stands text.now start (statement_text s) → IsEnded text.now start s
        → end.now.span.end ≡ start + (length (statement_text s) - length (newline_after s))
        → result.now ≡ newline_after s }
{
    match split_line(&text[end.span.end..]) {
        Some((newline, _)) => newline,
        None => "",
    }
}
