//! Values: what is between the brackets of arrays and inline tables.
ghost use Rattle.std.specs.Prelude.{◌≡◌, ◌<◌, ◌+◌, ◌++◌, ◌^◌, true, false, ℕ, Bool, List, [], Option, None, IfOk, OnOk, if◌then◌else◌, is_none, is_some, length};
ghost use Rattle.toml_edit_model.specs.Syntax as syntax;
ghost use Rattle.toml_edit_model.specs.Text.{Text};
ghost use Rattle.toml_edit_laws.specs.Standing.{Stands};
ghost use Rattle.toml_edit_syntax.specs.LateEvents.{AreIn};
ghost use Rattle.toml_edit_syntax.specs.ValueEvents.{value_events};
ghost use Rattle.toml_edit_fmt_laws.specs.Formatted.{array_layout, inner_depth, inner_room, is_in_rows, is_too_wide, rows_if};
ghost use Rattle.toml_edit_fmt.specs.MemberView.{AreNext, End, IsMember, Member, head, head_bits, head_events, members_bits, text_before, text_of, value_at, value_of};
ghost use Rattle.toml_edit_fmt.specs.MeasureView.{IfArrayNext, IfInlineNext, IsInsideArray};
ghost use Rattle.toml_edit_fmt.specs.PageView.{Gains, Grows};
ghost use Rattle.toml_edit_fmt.specs.PathView.{Handed, Leaves};
ghost use Rattle.toml_edit_fmt.specs.RulesView.{rules_of};
ghost use Rattle.toml_edit_fmt.specs.ValueBits.{after_bits, before_bits, before_last, comma_bits, counted, inner_bits, inner_text, last_comma_as, value_bits};
ghost use Rattle.toml_edit_fmt.specs.ValueView.{CanGoDeeper, IfValueNext, IsArrayLaid, IsInlineLaid, RoomIs, SplitsMember, StandsAt, is_open, layout_of, listed, split_comma};
ghost use Rattle.toml_edit_fmt.specs.declared.value.Layout.TheVariants.{LineByLine, OnOneLine};

use crate::columns::{is_over, plus};
use crate::lines::{Gap, has_comments, is_broken, put_gap};
use crate::measure::{Inside, is_in_rows, measure};
use crate::page::Page;
use crate::path::put_pair_head;
use crate::rules::{Arrays, Commas, Rules};
use toml_edit_repr::Mem;
use toml_edit_syntax::{Event, EventKind, Span, text_at};

/// How what is between brackets is laid out.
#[derive(Clone, Copy, PartialEq, Eq)]
enum Layout {
    /// As it is.
    Untouched,
    /// On one line.
    OnOneLine,
    /// With a line for each value or pair.
    LineByLine,
    /// With the lines that it had.
    InRows,
}

/// Where a value stands: how far its line is indented, whether it may be broken for its width, and how
/// much of its line is used.
#[derive(Clone, Copy)]
pub(crate) struct Place {
    pub(crate) depth: usize,
    pub(crate) may_break: bool,
    pub(crate) used: Option<usize>,
}

/// An array or an inline table that is laid out.
#[derive(Clone, Copy)]
struct Brackets {
    is_array: bool,
    layout: Layout,
    has_any: bool,
    depth: usize,
}

impl Brackets {
    /// Returns `true` if it has several lines that are laid out.
    fn is_open(&self) -> bool
        ensures { result ≡ is_open self.now.layout }
    {
        matches!(self.layout, Layout::LineByLine | Layout::InRows)
    }

    /// Returns where a value inside stands.
    fn place(&self, rules: &Rules) -> Place
        requires { self.now.depth + 1 < 2 ^ 64 }
        ensures { StandsAt (inner_depth (layout_of self.now.layout) self.now.depth)
            (if self.now.is_array then inner_room (rules_of rules.now) (layout_of self.now.layout) self.now.depth
            else None) result }
    {
        if !self.is_open() {
            return Place {
                depth: self.depth,
                may_break: false,
                used: None,
            };
        }
        let depth = self.depth + 1;
        Place {
            depth,
            may_break: self.is_array,
            used: depth.checked_mul(rules.unit),
        }
    }
}

/// Adds the value at the front. Returns the events after it.
#[cycle(value)]
pub(crate) fn put_value<'e>(
    page: &mut Page<'_>,
    place: Place,
    events: &'e [Event],
) -> Mem<&'e [Event]>
    requires spans { AreIn page.old.source.now events.now }
    requires room { CanGoDeeper place.depth events.now }
    ensures value { (v : syntax.Value) (start : ℕ) (room : Option ℕ) (more : List Event)
        → IfValueNext page.old.source.now events.now v start more (StandsAt place.depth room place
        → IfOk result (λ rest. Handed more rest.now
        (Grows (value_bits (rules_of page.old.rules) place.depth room v) page.old page.new))) }
    ensures rest { Leaves page.old page.new events.now result }
{
    let [first, rest @ ..] = events else {
        return Ok(events);
    };
    page.put_event(first)?;
    match first.kind {
        EventKind::ArrayOpen => {
            let list = array_of(page, place, rest)?;
            put_members(page, &list, rest)
        }
        EventKind::InlineTableOpen => {
            let list = inline_table_of(page, place, rest)?;
            put_members(page, &list, rest)
        }
        _ => Ok(rest),
    }
}

/// Returns how the array of these events is laid out.
fn array_of(page: &Page<'_>, place: Place, events: &[Event]) -> Mem<Brackets>
    requires spans { AreIn page.now.source.now events.now }
    requires room { place.depth + 1 < 2 ^ 64 }
    ensures array { (es : syntax.Elements) (comma : Bool) (t : Text) (start : ℕ) (room : Option ℕ) (more : List Event)
        → IfArrayNext page.now.source.now events.now es comma t start more (StandsAt place.depth room place
        → IfOk result (IsArrayLaid (rules_of page.now.rules) place.depth room es comma t)) }
    ensures kind { IfOk result (λ x. (x.is_array ≡ true) × (x.depth ≡ place.depth)) }
{
    let inside = measure(page, events)?;
    let layout = open_array(page, place, inside);
    Ok(Brackets {
        is_array: true,
        layout: with_rows(page, place.depth, layout, events),
        has_any: inside.has_any,
        depth: place.depth,
    })
}

/// Returns how an array with this inside is laid out, but for rows.
fn open_array(page: &Page<'_>, place: Place, inside: Inside) -> Layout
    ensures { (es : syntax.Elements) (comma : Bool) (t : Text) (room : Option ℕ)
        → RoomIs room place → IsInsideArray (rules_of page.now.rules) es comma t inside
        → rows_if (is_in_rows (rules_of page.now.rules) place.depth comma es) (layout_of result)
        ≡ array_layout (rules_of page.now.rules) place.depth room es comma t }
{
    let is_wide = is_too_wide(page, place, inside.columns);
    match page.rules.arrays {
        Arrays::AsTheyAre => Layout::Untouched,
        Arrays::Kept => open_if(inside, inside.is_broken || is_wide),
        Arrays::Collapsed => open_if(inside, inside.has_comments || is_wide),
    }
}

/// Returns the layout with the lines that an array had, if it is to be line by line and is in rows.
fn with_rows(page: &Page<'_>, depth: usize, layout: Layout, events: &[Event]) -> Layout
    requires spans { AreIn page.now.source.now events.now }
    requires room { depth + 1 < 2 ^ 64 }
    ensures { (es : syntax.Elements) (comma : Bool) (t : Text) (start : ℕ) (more : List Event)
        → IfArrayNext page.now.source.now events.now es comma t start more
        (layout_of result ≡ rows_if (is_in_rows (rules_of page.now.rules) depth comma es) (layout_of layout)) }
{
    if layout != Layout::LineByLine || !page.rules.rows {
        return layout;
    }
    let indent = (depth + 1).checked_mul(page.rules.unit);
    if is_in_rows(page, indent, events) {
        Layout::InRows
    } else {
        layout
    }
}

/// Returns `true` if so many columns are too many where a value stands that may be broken.
fn is_too_wide(page: &Page<'_>, place: Place, columns: Option<usize>) -> bool
    ensures { (room : Option ℕ) (n : ℕ) → RoomIs room place → columns ≡ counted n
        → result ≡ is_too_wide (rules_of page.now.rules) room n }
{
    if !place.may_break {
        return false;
    }
    let all = match columns {
        Some(more) => plus(place.used, more),
        None => None,
    };
    is_over(page.rules.width, all)
}

/// Returns how the inline table of these events is laid out.
fn inline_table_of(page: &Page<'_>, place: Place, events: &[Event]) -> Mem<Brackets>
    requires { AreIn page.now.source.now events.now }
    ensures inline { (ps : syntax.Pairs) (comma : Bool) (t : Text) (start : ℕ) (more : List Event)
        → IfInlineNext page.now.source.now events.now ps comma t start more
        (IfOk result (IsInlineLaid (rules_of page.now.rules) place.depth ps comma t)) }
    ensures kind { IfOk result (λ x. (x.is_array ≡ false) × (x.depth ≡ place.depth)) }
{
    let inside = measure(page, events)?;
    let layout = if page.rules.inline_tables {
        open_if(inside, inside.is_broken)
    } else {
        Layout::Untouched
    };
    Ok(Brackets {
        is_array: false,
        layout,
        has_any: inside.has_any,
        depth: place.depth,
    })
}

/// Returns the layout with a line for each member if so asked. Where there is none, it is so if there
/// is a comment.
fn open_if(inside: Inside, is_asked: bool) -> Layout
    ensures { result ≡ (if (if inside.has_any then is_asked else inside.has_comments) then LineByLine else OnOneLine) }
{
    let is_open = if inside.has_any {
        is_asked
    } else {
        inside.has_comments
    };
    if is_open {
        Layout::LineByLine
    } else {
        Layout::OnOneLine
    }
}

/// Adds the members at the front and the closing bracket. Returns the events after that.
#[cycle(value)]
fn put_members<'e>(page: &mut Page<'_>, list: &Brackets, events: &'e [Event]) -> Mem<&'e [Event]>
    requires spans { AreIn page.old.source.now events.now }
    requires room { CanGoDeeper (list.now.depth + 1) events.now }
    ensures members { (e : End) (ms : List Member) (at : ℕ) (more : List Event)
        → AreNext page.old.source.now list.now.is_array events.now e None ms at more → IfOk result
        (λ rest. Handed more rest.now (Grows
        (members_bits (rules_of page.old.rules) (listed (rules_of page.old.rules) list.now) e None ms)
        page.old page.new)) }
    ensures rest { Leaves page.old page.new events.now result }
{
    let source = page.source;
    let mut rest = events;
    let mut after = None;
    'members: while let Some((before, member)) = split_member(rest) {
        put_between(page, list, after, text_at(source, before))?;
        let value = put_member_head(page, list, member)?;
        let place = list.place(&page.rules);
        let behind = put_value(page, place, value)?;
        let [last, more @ ..] = behind else {
            return Ok(behind);
        };
        after = Some(text_at(source, last.span));
        rest = more;
    }
    put_close(page, list, after, rest)
}

/// Splits off the text before an element or a pair, if one comes first.
fn split_member(events: &[Event]) -> Option<(Span, &[Event])>
    ensures { SplitsMember events.now result }
{
    match events {
        [first, rest @ ..] if matches!(first.kind, EventKind::Before | EventKind::Leading) => {
            Some((first.span, rest))
        }
        _ => None,
    }
}

/// Adds what a pair has before its value. Returns the events after that.
fn put_member_head<'e>(
    page: &mut Page<'_>,
    list: &Brackets,
    events: &'e [Event],
) -> Mem<&'e [Event]>
    requires { AreIn page.old.source.now events.now }
    ensures head { (m : Member) (start : ℕ) (more : List Event)
        → IsMember list.now.is_array m
        → Stands page.old.source.now (start + length (text_before m)) (head m)
        → events.now ≡ head_events (start + length (text_before m)) m ++ (value_events (value_at start m) (value_of m) ++ more)
        → IfOk result (λ rest. Handed (value_events (value_at start m) (value_of m) ++ more) rest.now
        (Grows (head_bits (rules_of page.old.rules) m) page.old page.new)) }
    ensures rest { Leaves page.old page.new events.now result }
{
    if list.is_array {
        return Ok(events);
    }
    put_pair_head(page, events)
}

/// Adds what is between a member and the one before, after which is this text, if there is one.
fn put_between(page: &mut Page<'_>, list: &Brackets, after: Option<&str>, before: &str) -> Mem<()>
    requires { list.now.depth + 1 < 2 ^ 64 }
    ensures { OnOk result
        (Grows (after_bits (rules_of page.old.rules) (listed (rules_of page.old.rules) list.now) (text_of after.entry)
        ++ before_bits (rules_of page.old.rules) (listed (rules_of page.old.rules) list.now) (is_none after.entry) before.now)
        page.old page.new) }
{
    if let Some(text) = after {
        put_comma(page, list, text, true)?;
    }
    put_before(page, list, after.is_none(), before)
}

/// Adds what is before a member.
fn put_before(page: &mut Page<'_>, list: &Brackets, is_first: bool, text: &str) -> Mem<()>
    requires { list.now.depth + 1 < 2 ^ 64 }
    ensures { OnOk result
        (Grows (before_bits (rules_of page.old.rules) (listed (rules_of page.old.rules) list.now) is_first
        text.now) page.old page.new) }
{
    let gap = if is_first { Gap::First } else { Gap::Next };
    match list.layout {
        Layout::Untouched => page.put(text),
        Layout::OnOneLine if is_first => put_bracket_space(page, list),
        Layout::OnOneLine => page.put(" "),
        Layout::InRows if !is_first && !is_broken(text) => page.put(" "),
        Layout::LineByLine | Layout::InRows => put_gap(page, list.depth, gap, text),
    }
}

/// Adds the space inside of the brackets of a list on one line, if so asked.
fn put_bracket_space(page: &mut Page<'_>, list: &Brackets) -> Mem<()>
    ensures { OnOk result
        (Gains (listed (rules_of page.old.rules) list.now).edge page.old page.new) }
{
    let has_space = if list.is_array {
        page.rules.bracket_space
    } else {
        page.rules.brace_space
    };
    if has_space && list.has_any {
        page.put(" ")?;
    }
    Ok(())
}

/// Adds a comma, if there is to be one, and what is before it: in several lines nothing but comments.
fn put_comma(page: &mut Page<'_>, list: &Brackets, before: &str, has_comma: bool) -> Mem<()>
    requires { list.now.depth + 1 < 2 ^ 64 }
    ensures { OnOk result
        (Grows (comma_bits (rules_of page.old.rules) (listed (rules_of page.old.rules) list.now) before.now
        has_comma) page.old page.new) }
{
    if list.layout == Layout::Untouched {
        page.put(before)?;
    } else if list.is_open() && has_comments(before) {
        put_gap(page, list.depth, Gap::Comma, before)?;
    }
    if has_comma {
        page.put(",")?;
    }
    Ok(())
}

/// Adds the end of an array or inline table, where this is after the last member if there is one.
/// Returns the events after it.
fn put_close<'e>(
    page: &mut Page<'_>,
    list: &Brackets,
    after: Option<&str>,
    events: &'e [Event],
) -> Mem<&'e [Event]>
    requires spans { AreIn page.old.source.now events.now }
    requires room { list.now.depth + 1 < 2 ^ 64 }
    ensures close { (e : End) (at : ℕ) (more : List Event)
        → AreNext page.old.source.now list.now.is_array events.now e (text_of after.entry) [] at more → IfOk result
        (λ rest. Handed more rest.now (Grows
        (members_bits (rules_of page.old.rules) (listed (rules_of page.old.rules) list.now) e (text_of after.entry) [])
        page.old page.new)) }
    ensures rest { Leaves page.old page.new events.now result }
{
    let (comma, rest) = split_comma(events);
    let [inner, bracket, rest @ ..] = rest else {
        return Ok(events);
    };
    let (before, inner) = texts_at_end(after, comma, page.text_of(inner));
    let has_comma = has_last_comma(page, list, comma, before);
    put_comma(page, list, before, has_comma)?;
    put_inner(page, list, inner)?;
    page.put_event(bracket)?;
    Ok(rest)
}

/// Adds what is before the closing bracket.
fn put_inner(page: &mut Page<'_>, list: &Brackets, text: &str) -> Mem<()>
    requires { list.now.depth + 1 < 2 ^ 64 }
    ensures { OnOk result
        (Grows (inner_bits (layout_of list.now.layout) (rules_of page.old.rules)
        (listed (rules_of page.old.rules) list.now) text.now) page.old page.new) }
{
    let gap = if list.has_any { Gap::Last } else { Gap::Only };
    match list.layout {
        Layout::Untouched => page.put(text),
        Layout::OnOneLine => put_bracket_space(page, list),
        Layout::LineByLine | Layout::InRows => put_gap(page, list.depth, gap, text),
    }
}

/// Splits off the comma after the last member, if there is one.
fn split_comma(events: &[Event]) -> (bool, &[Event])
    ensures { (result.0, result.1.now) ≡ split_comma events.now }
{
    match events {
        [first, rest @ ..] if first.kind == EventKind::Comma => (true, rest),
        _ => (false, events),
    }
}

/// Returns the texts before the last comma and before the closing bracket. Without a comma that after
/// the last member is before the bracket.
fn texts_at_end<'a>(after: Option<&'a str>, comma: bool, inner: &'a str) -> (&'a str, &'a str)
    ensures before { result.0.now ≡ before_last (text_of after.entry) comma }
    ensures inner { syntax.IsClose (is_some after.entry) comma inner.now → result.1.now ≡ inner_text (text_of after.entry) comma inner.now }
{
    match after {
        Some(text) if comma => (text, inner),
        Some(text) => ("", text),
        None => ("", inner),
    }
}

/// Returns `true` if a comma is after the last member, where one was or none was after this text.
fn has_last_comma(page: &Page<'_>, list: &Brackets, comma: bool, before: &str) -> bool
    ensures { result
        ≡ last_comma_as (layout_of list.now.layout) (rules_of page.now.rules)
        (listed (rules_of page.now.rules) list.now) comma before.now }
{
    match list.layout {
        Layout::Untouched => comma,
        Layout::OnOneLine => false,
        Layout::LineByLine | Layout::InRows => match page.rules.commas {
            Commas::AsTheyAre => comma,
            Commas::Always => list.has_any,
            Commas::Never => has_comments(before),
        },
    }
}
