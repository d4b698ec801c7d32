//! The parts of a list of events.
ghost use Rattle.std.specs.Prelude.{◌≡◌, ◌+◌, length, option_map};
ghost use Rattle.toml_edit_model.specs.Text.{Text};
ghost use Rattle.toml_edit_model.specs.TreeOf.{span_of};
ghost use Rattle.toml_edit_syntax.specs.Events.{IsSpanOf};
ghost use Rattle.toml_edit_syntax.specs.ValueEvents.{are_deep};
ghost use Rattle.toml_edit_parser.specs.ValueRead as spec;
ghost use Rattle.toml_edit_parser.specs.Near.{IsNear};
ghost use Rattle.toml_edit_model.specs.OwnedForm.{RawFits};

use toml_edit_repr::RawString;
use toml_edit_syntax::{Event, EventKind, Span};

/// The end of an array or inline table: whether there is a comma, where the text after that is, and
/// where the bracket ends.
#[derive(Clone, Copy)]
pub(crate) struct Close {
    pub(crate) comma: bool,
    pub(crate) inner: Span,
    pub(crate) end: usize,
}

/// Makes a raw text of the span, empty if nothing is there.
pub(crate) fn raw(span: Span) -> RawString
    requires { IsNear span }
    ensures raw { result ≡ spec.spanned_raw span }
    ensures span { (t : Text) → span.end ≡ span.start + length t → result ≡ span_of span.start t }
    ensures fits { (t : Text) → IsSpanOf t span → RawFits t result }
{
    if span.start == span.end {
        RawString::default()
    } else {
        RawString::from_span(span.start, span.end)
    }
}

/// Splits off the first event.
pub(crate) fn split_first(events: &[Event]) -> Option<(Event, &[Event])>
    ensures { option_map (λ p. (p.0, p.1.now)) result ≡ spec.split_first events.now }
{
    let [first, rest @ ..] = events else {
        return None;
    };
    Some((*first, rest))
}

/// Splits off the text before an element, if one comes first.
pub(crate) fn split_before(events: &[Event]) -> Option<(Span, &[Event])>
    ensures { option_map (λ p. (p.0, p.1.now)) result ≡ spec.split_before events.now }
{
    let (first, rest) = split_first(events)?;
    match first.kind {
        EventKind::Before => Some((first.span, rest)),
        _ => None,
    }
}

/// Splits off the text before a pair, if one comes first.
pub(crate) fn split_leading(events: &[Event]) -> Option<(Span, &[Event])>
    ensures { option_map (λ p. (p.0, p.1.now)) result ≡ spec.split_leading events.now }
{
    let (first, rest) = split_first(events)?;
    match first.kind {
        EventKind::Leading => Some((first.span, rest)),
        _ => None,
    }
}

/// Splits off the place of a scalar, if one comes first.
pub(crate) fn split_scalar(events: &[Event]) -> Option<(Span, &[Event])>
    ensures { option_map (λ p. (p.0, p.1.now)) result ≡ spec.split_scalar events.now }
{
    let (first, rest) = split_first(events)?;
    match first.kind {
        EventKind::Scalar => Some((first.span, rest)),
        _ => None,
    }
}

/// Splits off the end of an array or inline table, if it comes first.
pub(crate) fn split_close(events: &[Event]) -> Option<(Close, &[Event])>
    ensures { option_map (λ p. (p.0, p.1.now)) result ≡ spec.split_close events.now }
{
    let (first, behind) = split_first(events)?;
    let (second, rest) = split_first(behind)?;
    match first.kind {
        EventKind::Comma => {
            let (third, rest) = split_first(rest)?;
            let close = Close {
                comma: true,
                inner: second.span,
                end: third.span.end,
            };
            Some((close, rest))
        }
        _ => {
            let close = Close {
                comma: false,
                inner: first.span,
                end: second.span.end,
            };
            Some((close, rest))
        }
    }
}

/// Returns `true` if the events of a text are cut short, at a bracket that is one too many.
pub(crate) fn are_cut_short(events: &[Event]) -> bool
    ensures { result ≡ are_deep events.now }
{
    events
        .iter()
        .any(|event| matches!(event.kind, EventKind::TooDeep))
}

/// The most brackets that are open around an event that is counted, so that each event is read for
/// few of the brackets around it.
const COUNTED_DEPTH: usize = 4;

/// Returns the number of elements or pairs up to the bracket that closes the array or the inline
/// table of these events, or up to one that is deeper than what is counted, but for pairs whose
/// keys have dots. Each ends in one event outside the brackets of the others.
fn count_to_close(events: &[Event]) -> usize {
    let mut count: usize = 0;
    let mut depth: usize = 0;
    for event in events {
        match event.kind {
            EventKind::After if depth == 0 => count = count.saturating_add(1),
            EventKind::BeforeDot if depth == 0 => count = count.saturating_sub(1),
            EventKind::ArrayOpen | EventKind::InlineTableOpen => {
                if depth == COUNTED_DEPTH {
                    return count;
                }
                depth = depth.saturating_add(1);
            }
            EventKind::ArrayClose | EventKind::InlineTableClose => {
                if depth == 0 {
                    return count;
                }
                depth = depth.saturating_sub(1);
            }
            _ => {}
        }
    }
    count
}

/// Returns how many elements or slots to make room for in the array or the inline table of these
/// events, of which so many come first, each of so many events.
pub(crate) fn room_for(events: &[Event], first: usize, length: usize) -> usize {
    match events.get(first.saturating_mul(length)..) {
        Some(rest) => first.saturating_add(count_to_close(rest)),
        None => first,
    }
}
