//! Keys, scalars, arrays and inline tables.
ghost use Rattle.std.specs.Prelude.{◌≡◌, ℕ, List, ◌+◌, ◌*◌, ◌-◌, ◌++◌, [], ◌∷◌, ◌<◌, ◌≤◌, false, true, length, drop, None, option_map, IfOk, IfErr, MatchResult};
ghost use Rattle.toml_edit_model.specs.Syntax.{nesting_limit};
ghost use Rattle.toml_edit_syntax.specs.Gives.{Adds, IsBefore, Leaves};
ghost use Rattle.toml_edit_laws.specs.reading.Runs.{first};
ghost use Rattle.toml_edit_syntax.specs.ValueReading as spec;
ghost use Rattle.toml_edit_syntax.specs.EventReading as read;
ghost use Rattle.toml_edit_syntax.specs.declared.event.Event.{Event as EventView};

use crate::event::{Event, EventKind};
use crate::lexer::{Stop, new_event};
use crate::line::{equals, is_solid, trivia};
use crate::mistake::{Mistake, behind_value, mistake_at, no_key, no_scalar};
use std::alloc::AllocError;
use toml_edit_token::run::{Class, byte_at, first_byte, skip, split_run};
use toml_edit_token::{after_key, after_scalar};

/// The most arrays and inline tables that may be open at once, and the most keys of a path.
pub const NESTING_LIMIT: usize = 80;

/// The brackets around elements or pairs.
#[derive(Clone, Copy)]
enum Brackets {
    Array,
    InlineTable,
}

impl Brackets {
    /// Returns the brackets that this byte opens, if it opens any.
    fn opened_by(byte: u8) -> Option<Brackets>
        ensures { read.OpenedBy byte result }
    {
        match byte {
            b'[' => Some(Brackets::Array),
            b'{' => Some(Brackets::InlineTable),
            _ => None,
        }
    }

    /// Returns the kind of the opening bracket.
    fn open_kind(self) -> EventKind
        ensures { result ≡ read.opening self }
    {
        match self {
            Brackets::Array => EventKind::ArrayOpen,
            Brackets::InlineTable => EventKind::InlineTableOpen,
        }
    }

    /// Returns the kind of the closing bracket.
    fn close_kind(self) -> EventKind
        ensures { result ≡ read.closing self }
    {
        match self {
            Brackets::Array => EventKind::ArrayClose,
            Brackets::InlineTable => EventKind::InlineTableClose,
        }
    }

    /// Returns what is wrong where a text ends inside of them.
    fn unclosed_mistake(self) -> Mistake {
        match self {
            Brackets::Array => Mistake::UnclosedArray,
            Brackets::InlineTable => Mistake::UnclosedInlineTable,
        }
    }

    /// Returns the closing bracket.
    fn closing_byte(self) -> u8
        ensures { result ≡ read.closing_byte self }
    {
        match self {
            Brackets::Array => b']',
            Brackets::InlineTable => b'}',
        }
    }
}

/// Splits off trivia. Fails where it stops inside a comment.
#[tactic(auto, unfolding(crate::specs::ValueReading::trivia_at))]
fn whole_trivia(s: &str) -> Result<(&str, &str), Stop>
    ensures value { MatchResult result (λ p. spec.trivia_at s.now ≡ spec.got p.0.now p.1.now)
        (λ _. spec.trivia_at s.now ≡ spec.wrong) }
    ensures before { IfErr result IsBefore }
    ensures lens { IfOk result (λ p. length p.0.now + length p.1.now ≡ length s.now) }
{
    // Mostly there is nothing, or one space.
    if is_solid(first_byte(s)) {
        return Ok(s.split_at(0));
    }
    if first_byte(s) == b' ' && is_solid(byte_at(s, 1)) {
        return Ok(s.split_at(1));
    }
    let (len, inside) = trivia(s);
    let (front, rest) = s.split_at(len);
    if inside {
        return Err(Stop::Before(mistake_at(rest, Mistake::ExpectedNewline), rest.len()));
    }
    Ok((front, rest))
}

/// Adds the end of a list, whose closing bracket is at the front of `s`, with `inner` before it and
/// perhaps a comma before that.
fn close<'a>(
    events: &mut Vec<Event>,
    whole: usize,
    brackets: Brackets,
    comma: bool,
    inner: &str,
    s: &'a str,
) -> Result<&'a str, Stop>
    requires here { first s.now ≡ read.closing_byte brackets }
    requires fits { length inner.now + length s.now ≤ whole }
    requires before { comma ≡ true → length inner.now + length s.now < whole }
    ensures adds { Adds events.old.items events.new.items result
        (spec.got (read.close_read brackets whole comma inner.now s.now) (drop 1 s.now)) }
    ensures shorter { IfOk result (λ r. length r.now < length s.now) }
{
    let start = whole - s.len() - inner.len();
    if comma {
        events.push(new_event(EventKind::Comma, start - 1, start))?;
    }
    let rest = skip(s, 1);
    events.push(new_event(EventKind::Inner, start, whole - s.len()))?;
    events.push(new_event(brackets.close_kind(), whole - s.len(), whole - rest.len()))?;
    Ok(rest)
}

/// Adds the parts of the key at the front.
#[inline(always)]
pub(crate) fn path<'a>(events: &mut Vec<Event>, whole: usize, s: &'a str) -> Result<&'a str, Stop>
    requires { length s.now ≤ whole }
    ensures adds { Adds events.old.items events.new.items result
        (read.path_read (length s.now) whole [] s.now) }
    ensures within { IfOk result (λ r. length r.now ≤ length s.now) }
{
    let mut rest = s;
    'segments: loop {
        let Some(end) = after_key(rest) else {
            let (mistake, left) = no_key(rest);
            return Err(Stop::Before(mistake, left));
        };
        events.push(new_event(EventKind::Key, whole - rest.len(), whole - end.len()))?;
        let (before, dot) = split_run(end, Class::Blank);
        if first_byte(dot) != b'.' {
            return Ok(end);
        }
        let (after, next) = split_run(skip(dot, 1), Class::Blank);
        events.push(new_event(EventKind::BeforeDot, whole - end.len(), whole - dot.len()))?;
        events.push(new_event(
            EventKind::AfterDot,
            whole - next.len() - after.len(),
            whole - next.len(),
        ))?;
        rest = next;
    }
}

/// Adds `=`, with whitespace around it.
#[inline(always)]
fn push_equals<'a>(events: &mut Vec<Event>, whole: usize, s: &'a str) -> Result<&'a str, Stop>
    requires { length s.now ≤ whole }
    ensures adds { Adds events.old.items events.new.items result (read.equals_read whole s.now) }
    ensures within { IfOk result (λ r. length r.now ≤ length s.now) }
{
    let Some(((_, after), rest)) = equals(s) else {
        let (_, other) = split_run(s, Class::Blank);
        return Err(Stop::Before(Mistake::ExpectedEquals, other.len()));
    };
    let end = whole - rest.len() - after.len();
    events.push(new_event(EventKind::Equals, end - 1, end))?;
    Ok(rest)
}

/// Adds the parts of a pair up to its value, after its trivia.
#[inline(always)]
pub(crate) fn frame<'a>(
    events: &mut Vec<Event>,
    whole: usize,
    leading: &str,
    s: &'a str,
) -> Result<&'a str, Stop>
    requires { length leading.now + length s.now ≤ whole }
    ensures adds { Adds events.old.items events.new.items result
        (read.frame_read whole leading.now s.now) }
    ensures within { IfOk result (λ r. length r.now ≤ length s.now) }
{
    events.push(new_event(
        EventKind::Leading,
        whole - s.len() - leading.len(),
        whole - s.len(),
    ))?;
    let rest = path(events, whole, s)?;
    push_equals(events, whole, rest)
}

/// Adds what comes before the value of an element or a pair, after its trivia.
fn push_before_value<'a>(
    events: &mut Vec<Event>,
    whole: usize,
    brackets: Brackets,
    leading: &str,
    s: &'a str,
) -> Result<&'a str, Stop>
    requires { length leading.now + length s.now ≤ whole }
    ensures adds { Adds events.old.items events.new.items result
        (read.head_read brackets whole leading.now s.now) }
    ensures within { IfOk result (λ r. length r.now ≤ length s.now) }
{
    match brackets {
        Brackets::Array => {
            events.push(new_event(
                EventKind::Before,
                whole - s.len() - leading.len(),
                whole - s.len(),
            ))?;
            Ok(s)
        }
        Brackets::InlineTable => frame(events, whole, leading, s),
    }
}

/// Adds the scalar at the front.
#[inline(always)]
fn scalar<'a>(events: &mut Vec<Event>, whole: usize, s: &'a str) -> Result<&'a str, Stop>
    requires { length s.now ≤ whole }
    ensures adds { Adds events.old.items events.new.items result (read.scalar_read whole s.now) }
    ensures shorter { IfOk result (λ r. length r.now < length s.now) }
{
    let Some(rest) = after_scalar(s) else {
        let (mistake, left) = no_scalar(s);
        return Err(Stop::Before(mistake, left));
    };
    events.push(new_event(EventKind::Scalar, whole - s.len(), whole - rest.len()))?;
    Ok(rest)
}

/// Returns the result of reading inside brackets that open where so many bytes are left, with a
/// text that ends inside marked there.
fn mark_unclosed<'a>(
    brackets: Brackets,
    left: usize,
    inner: Result<&'a str, Stop>,
) -> Result<&'a str, Stop>
    ensures leaves { (es : List EventView) (expected : spec.Reading (List EventView))
        → Leaves es inner.entry expected → Leaves es result expected }
    ensures shorter { (n : ℕ) → IfOk inner.entry (λ r. length r.now < n)
        → IfOk result (λ r. length r.now < n) }
{
    match inner {
        Err(Stop::Before(_, 0)) => Err(Stop::Before(brackets.unclosed_mistake(), left)),
        _ => inner,
    }
}

/// Adds the parts of the value at the front, inside so many brackets.
#[cycle(value)]
#[inline(always)]
pub(crate) fn value<'a>(
    events: &mut Vec<Event>,
    whole: usize,
    level: usize,
    s: &'a str,
) -> Result<&'a str, Stop>
    requires fits { length s.now ≤ whole }
    requires level { level ≤ nesting_limit }
    ensures adds { (n : ℕ) → 2 * length s.now + 2 ≤ n
        → Adds events.old.items events.new.items result (read.value_read n level whole s.now) }
    ensures shorter { IfOk result (λ r. length r.now < length s.now) }
{
    let Some(brackets) = Brackets::opened_by(first_byte(s)) else {
        return scalar(events, whole, s);
    };
    let rest = skip(s, 1);
    if level == NESTING_LIMIT {
        events.push(new_event(EventKind::TooDeep, whole - s.len(), whole - rest.len()))?;
        return Err(Stop::TooDeep);
    }
    events.push(new_event(brackets.open_kind(), whole - s.len(), whole - rest.len()))?;
    let inner = items(events, whole, level + 1, brackets, rest);
    mark_unclosed(brackets, s.len(), inner)
}

/// Adds the elements or the pairs after an opening bracket, and the closing bracket.
#[cycle(value)]
#[inline(never)]
fn items<'a>(
    events: &mut Vec<Event>,
    whole: usize,
    level: usize,
    brackets: Brackets,
    s: &'a str,
) -> Result<&'a str, Stop>
    requires fits { length s.now ≤ whole }
    requires level { level ≤ nesting_limit }
    ensures adds { (n : ℕ) → 2 * length s.now + 3 ≤ n
        → Adds events.old.items events.new.items result
        (read.items_read brackets n level whole false s.now) }
    ensures shorter { IfOk result (λ r. length r.now < length s.now) }
{
    let mut rest = s;
    let mut comma = false;
    'items: loop {
        let (before, start) = whole_trivia(rest)?;
        if first_byte(start) == brackets.closing_byte() {
            return close(events, whole, brackets, comma, before, start);
        }
        let start = push_before_value(events, whole, brackets, before, start)?;
        let end = value(events, whole, level, start)?;
        let (after, next) = whole_trivia(end)?;
        events.push(new_event(
            EventKind::After,
            whole - next.len() - after.len(),
            whole - next.len(),
        ))?;
        if first_byte(next) == brackets.closing_byte() {
            return close(events, whole, brackets, false, "", next);
        }
        if first_byte(next) != b',' {
            let (mistake, left) = behind_value(start, next, Mistake::UnexpectedCharacter);
            return Err(Stop::Before(mistake, left));
        }
        rest = skip(next, 1);
        comma = true;
    }
}
