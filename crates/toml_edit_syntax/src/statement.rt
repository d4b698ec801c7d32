//! A statement, after its leading trivia.
ghost use Rattle.std.specs.Prelude.{◌≡◌, ◌+◌, ◌*◌, ◌<◌, ◌≤◌, length, option_map, IfOk, IfSome};
ghost use Rattle.toml_edit_model.specs.Syntax.{opening_brackets};
ghost use Rattle.toml_edit_syntax.specs.Events.{header_open};
ghost use Rattle.toml_edit_syntax.specs.Gives.{Adds};
ghost use Rattle.toml_edit_laws.specs.reading.Runs.{first};
ghost use Rattle.toml_edit_syntax.specs.Scanning as spec;
ghost use Rattle.toml_edit_syntax.specs.StatementReading as read;

use crate::event::{Event, EventKind};
use crate::lexer::{Stop, new_event};
use crate::line::push_line_end;
use crate::mistake::{Mistake, mistake_at};
use crate::value::{frame, path, value};
use toml_edit_token::run::{Class, byte_at, first_byte, skip, split_run};

/// Adds the parts of a key line, after its trivia.
fn key_line<'a>(
    events: &mut Vec<Event>,
    whole: usize,
    leading: &str,
    s: &'a str,
) -> Result<&'a str, Stop>
    requires { length leading.now + length s.now ≤ whole }
    ensures adds { Adds events.old.items events.new.items result
        (read.key_line_read whole leading.now s.now) }
    ensures shorter { IfOk result (λ r. length r.now < length s.now) }
{
    let text = frame(events, whole, leading, s)?;
    let rest = value(events, whole, 0, text)?;
    push_line_end(events, whole, text, rest)
}

/// Returns `true` if two brackets open the header at the front, and the text after the one or the
/// two.
#[tactic(auto, unfolding(crate::specs::Scanning::opening_at))]
fn split_opening(s: &str) -> (bool, &str)
    requires { first s.now ≡ 0x5B }
    ensures value { (result.0, result.1.now) ≡ spec.opening_at s.now }
    ensures lens { length (opening_brackets result.0) + length result.1.now ≡ length s.now }
{
    if byte_at(s, 1) == b'[' {
        (true, skip(s, 2))
    } else {
        (false, skip(s, 1))
    }
}

/// Returns the text after the closing brackets of a header, or `None` if others are at the front.
#[tactic(auto, unfolding(crate::specs::Scanning::closing_rest))]
fn after_closing(is_array: bool, s: &str) -> Option<&str>
    ensures value { option_map (λ r. r.now) result ≡ spec.closing_rest is_array s.now }
    ensures within { IfSome result (λ r. length r.now ≤ length s.now) }
{
    if first_byte(s) != b']' {
        None
    } else if !is_array {
        Some(skip(s, 1))
    } else if byte_at(s, 1) == b']' {
        Some(skip(s, 2))
    } else {
        None
    }
}

/// Returns the kind of the opening brackets of a header.
fn open_kind(is_array: bool) -> EventKind
    ensures { result ≡ header_open is_array }
{
    if is_array {
        EventKind::ArrayHeaderOpen
    } else {
        EventKind::HeaderOpen
    }
}

/// Adds the closing brackets of a header, the whitespace before them and what follows them.
fn header_end<'a>(
    events: &mut Vec<Event>,
    whole: usize,
    is_array: bool,
    s: &'a str,
) -> Result<&'a str, Stop>
    requires { length s.now ≤ whole }
    ensures adds { Adds events.old.items events.new.items result
        (read.header_end_read whole is_array s.now) }
    ensures within { IfOk result (λ r. length r.now ≤ length s.now) }
{
    let (_, brackets) = split_run(s, Class::Blank);
    let Some(rest) = after_closing(is_array, brackets) else {
        return Err(Stop::Before(
            mistake_at(brackets, Mistake::UnclosedHeader),
            brackets.len(),
        ));
    };
    events.push(new_event(EventKind::AfterKey, whole - s.len(), whole - brackets.len()))?;
    events.push(new_event(
        EventKind::HeaderClose,
        whole - brackets.len(),
        whole - rest.len(),
    ))?;
    push_line_end(events, whole, brackets, rest)
}

/// Adds the parts of a header, after its trivia.
fn header<'a>(
    events: &mut Vec<Event>,
    whole: usize,
    leading: &str,
    s: &'a str,
) -> Result<&'a str, Stop>
    requires here { first s.now ≡ 0x5B }
    requires fits { length leading.now + length s.now ≤ whole }
    ensures adds { Adds events.old.items events.new.items result
        (read.header_read whole leading.now s.now) }
    ensures shorter { IfOk result (λ r. length r.now < length s.now) }
{
    let (is_array, inside) = split_opening(s);
    let (_, key) = split_run(inside, Class::Blank);
    events.push(new_event(
        EventKind::Leading,
        whole - s.len() - leading.len(),
        whole - s.len(),
    ))?;
    events.push(new_event(open_kind(is_array), whole - s.len(), whole - inside.len()))?;
    events.push(new_event(
        EventKind::BeforeKey,
        whole - inside.len(),
        whole - key.len(),
    ))?;
    let rest = path(events, whole, key)?;
    header_end(events, whole, is_array, rest)
}

/// Adds the parts of a statement, after its trivia.
pub(crate) fn statement<'a>(
    events: &mut Vec<Event>,
    whole: usize,
    leading: &str,
    s: &'a str,
) -> Result<&'a str, Stop>
    requires { length leading.now + length s.now ≤ whole }
    ensures adds { Adds events.old.items events.new.items result
        (read.statement_read whole leading.now s.now) }
    ensures shorter { IfOk result (λ r. length r.now < length s.now) }
{
    if first_byte(s) == b'[' {
        header(events, whole, leading, s)
    } else {
        key_line(events, whole, leading, s)
    }
}
