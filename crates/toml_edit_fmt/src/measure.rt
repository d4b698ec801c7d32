//! What is inside brackets, before it is laid out.
ghost use Rattle.std.specs.Prelude.{◌≡◌, ◌+◌, ◌^◌, ◌<◌, ◌≤◌, Bool, ℕ, suc, IfOk, IsTrue, List, OnOk, if◌then◌else◌, length, option_map};
ghost use Rattle.toml_edit_model.specs.OwnedForm.{cut_out};
ghost use Rattle.toml_edit_model.specs.Syntax.{Elements, Pairs};
ghost use Rattle.toml_edit_model.specs.Text.{Text};
ghost use Rattle.toml_edit_syntax.specs.Events.{IsSpanOf};
ghost use Rattle.toml_edit_syntax.specs.LateEvents.{AreIn};
ghost use Rattle.toml_edit_fmt_laws.specs.Formatted.{is_in_rows};
ghost use Rattle.toml_edit_fmt_laws.specs.Laying.{columns};
ghost use Rattle.toml_edit_fmt_laws.specs.Rules.{units};
ghost use Rattle.toml_edit_fmt.specs.MeasureView.{IfArrayNext, IfInlineNext, IsInsideArray, IsInsideInline, Looks, closed, has_comma, has_element, opened, parted, passed, seeing, split_short, widened};
ghost use Rattle.toml_edit_fmt.specs.RulesView.{rules_of};
ghost use Rattle.toml_edit_fmt.specs.ValueBits.{counted};

use crate::columns::{columns, is_over, plus};
use crate::lines::{has_comments, is_broken};
use crate::page::Page;
use crate::path::laid_key;
use toml_edit_repr::Mem;
use toml_edit_syntax::{Event, EventKind};

/// What is between the brackets of an array or an inline table: whether anything is, whether it has a
/// newline or a comment of its own, and how many columns it takes on one line with the brackets.
#[derive(Clone, Copy)]
pub(crate) struct Inside {
    pub(crate) has_any: bool,
    pub(crate) is_broken: bool,
    pub(crate) has_comments: bool,
    pub(crate) columns: Option<usize>,
}

/// A look at what is inside brackets: how many are open, and whether anything was in the last ones.
#[derive(Clone, Copy)]
struct Look {
    level: usize,
    is_filled: bool,
    inside: Inside,
}

/// Returns what is inside the brackets of these events, the opening one not among them.
pub(crate) fn measure(page: &Page<'_>, events: &[Event]) -> Mem<Inside>
    requires { AreIn page.now.source.now events.now }
    ensures array { (es : Elements) (comma : Bool) (t : Text) (start : ℕ) (more : List Event)
        → IfArrayNext page.now.source.now events.now es comma t start more
        (IfOk result (IsInsideArray (rules_of page.now.rules) es comma t)) }
    ensures inline { (ps : Pairs) (comma : Bool) (t : Text) (start : ℕ) (more : List Event)
        → IfInlineNext page.now.source.now events.now ps comma t start more
        (IfOk result (IsInsideInline ps t)) }
{
    let inside = Inside {
        has_any: false,
        is_broken: false,
        has_comments: false,
        columns: Some(2),
    };
    let mut look = Look {
        level: 1,
        is_filled: false,
        inside,
    };
    let mut rest = events;
    'events: while let [event, more @ ..] = rest {
        if look.level == 0 {
            return Ok(look.inside);
        }
        look.go_on(page, event)?;
        rest = more;
    }
    Ok(look.inside)
}

impl Look {
    /// Looks at the next event.
    fn go_on(&mut self, page: &Page<'_>, event: &Event) -> Mem<()>
        requires span { IsSpanOf page.now.source.now event.now.span }
        requires room { self.old.level + 1 < 2 ^ 64 }
        ensures looks { OnOk result (Looks (rules_of page.now.rules) event.now.kind
            (cut_out page.now.source.now event.now.span.start event.now.span.end) self.old self.new) }
        ensures level { OnOk result (self.new.level ≤ self.old.level + 1) }
    {
        match event.kind {
            EventKind::ArrayOpen | EventKind::InlineTableOpen => self.open(),
            EventKind::ArrayClose => self.close(page.rules.bracket_space),
            EventKind::InlineTableClose => self.close(page.rules.brace_space),
            EventKind::Key => self.widen(columns(laid_key(page, event)?.as_str())),
            EventKind::Scalar => self.widen(columns(page.text_of(event))),
            EventKind::BeforeDot => self.widen(1),
            EventKind::Equals => self.widen(3),
            EventKind::After => {
                self.see(page.text_of(event));
                self.pass();
            }
            EventKind::Before | EventKind::Leading => {
                self.see(page.text_of(event));
                self.part();
            }
            EventKind::Inner => self.see(page.text_of(event)),
            _ => {}
        }
        Ok(())
    }

    /// Counts columns.
    fn widen(&mut self, count: usize)
        ensures { self.new ≡ widened count self.old }
    {
        if let Some(columns) = self.inside.columns {
            self.inside.columns = columns.checked_add(count);
        }
    }

    /// Goes into brackets.
    fn open(&mut self)
        requires { self.old.level + 1 < 2 ^ 64 }
        ensures { self.new ≡ opened self.old }
    {
        self.widen(2);
        self.level += 1;
        self.is_filled = false;
    }

    /// Goes out of brackets, which have a space at both ends if so asked.
    fn close(&mut self, has_space: bool)
        ensures { self.new ≡ closed has_space self.old }
    {
        if self.is_filled && has_space {
            self.widen(2);
        }
        self.level = self.level.saturating_sub(1);
    }

    /// Counts the comma and the space before a member that is not the first.
    fn part(&mut self)
        ensures { self.new ≡ parted self.old }
    {
        if self.is_filled {
            self.widen(2);
        }
    }

    /// Goes past a member.
    fn pass(&mut self)
        ensures { self.new ≡ passed self.old }
    {
        self.is_filled = true;
        self.inside.has_any = self.inside.has_any || self.level == 1;
    }

    /// Looks at white space and comments.
    fn see(&mut self, text: &str)
        ensures { self.new ≡ seeing text.now self.old }
    {
        if self.level == 1 {
            self.inside.is_broken = self.inside.is_broken || is_broken(text);
            self.inside.has_comments = self.inside.has_comments || has_comments(text);
        }
    }
}

/// Returns `true` if the elements of an array are scalars on several lines, of which one has several
/// elements, and each line, which begins with so many columns, has room.
pub(crate) fn is_in_rows(page: &Page<'_>, indent: Option<usize>, events: &[Event]) -> bool
    requires { AreIn page.now.source.now events.now }
    ensures { (es : Elements) (comma : Bool) (t : Text) (start depth : ℕ) (more : List Event)
        → IfArrayNext page.now.source.now events.now es comma t start more
        (indent ≡ counted (length (units (rules_of page.now.rules) (suc depth)))
        → IsTrue page.now.rules.rows
        → result ≡ is_in_rows (rules_of page.now.rules) depth comma es) }
{
    let (mut has_break, mut has_joint, mut is_first) = (false, false, true);
    let mut used = indent;
    let mut rest = events;
    'elements: while let Some((before, value, more)) = split_short(page, rest) {
        let is_new = is_first || is_broken(before);
        if is_new {
            has_break = has_break || !is_first;
        } else {
            has_joint = true;
        }
        used = used_after(is_new, indent, used, value);
        if is_over(page.rules.width, used) {
            return false;
        }
        is_first = false;
        rest = more;
    }
    if has_element(rest) {
        return false;
    }
    has_break && has_joint
}

/// Returns how much of a line is used after an element and its comma, which is in a new row or in the
/// last one.
fn used_after(
    is_new: bool,
    indent: Option<usize>,
    used: Option<usize>,
    value: &str,
) -> Option<usize>
    ensures { (i u : ℕ) → indent ≡ counted i → used ≡ counted u
        → result ≡ counted ((if is_new then i else u + 1) + columns value.now + 1) }
{
    let start = if is_new { indent } else { plus(used, 1) };
    plus(plus(start, columns(value)), 1)
}

/// Splits off the text before an element and the element, if it is a scalar on one line, and no newline
/// is before a comma after it.
fn split_short<'a, 'e>(
    page: &Page<'a>,
    events: &'e [Event],
) -> Option<(&'a str, &'a str, &'e [Event])>
    requires { AreIn page.now.source.now events.now }
    ensures { option_map (λ p. (p.0.now, p.1.now, p.2.now)) result
        ≡ split_short page.now.source.now events.now }
{
    let [before, value, after, rest @ ..] = events else {
        return None;
    };
    let text = page.text_of(value);
    let is_split = is_broken(text) || has_comma(rest) && is_broken(page.text_of(after));
    match (before.kind, value.kind) {
        (EventKind::Before, EventKind::Scalar) if !is_split => {
            Some((page.text_of(before), text, rest))
        }
        _ => None,
    }
}

/// Returns `true` if another element comes first.
fn has_element(events: &[Event]) -> bool
    ensures { result ≡ has_element events.now }
{
    match events {
        [first, ..] => matches!(first.kind, EventKind::Before),
        [] => false,
    }
}

/// Returns `true` if a comma is before what comes first, or comes first.
fn has_comma(events: &[Event]) -> bool
    ensures { result ≡ has_comma events.now }
{
    match events {
        [first, ..] => matches!(first.kind, EventKind::Before | EventKind::Comma),
        [] => false,
    }
}
