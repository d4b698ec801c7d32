//! Keys, and the sign `=`.
ghost use Rattle.std.specs.Prelude.{◌≡◌, ◌≤◌, ◌∷◌, ◌++◌, ℕ, [], IfOk, List, OnOk, if◌then◌else◌, length};
ghost use Rattle.std.specs.Cow.{cow_str_bytes};
ghost use Rattle.toml_edit_model.specs.OwnedForm.{cut_out};
ghost use Rattle.toml_edit_model.specs.Syntax.{Frame, Segment, path_text};
ghost use Rattle.toml_edit_model.specs.DefaultSpelling.{is_bare_key};
ghost use Rattle.toml_edit_model.specs.Spelling.{SpellsKey};
ghost use Rattle.toml_edit_syntax.specs.Events.{IsSpanOf};
ghost use Rattle.toml_edit_syntax.specs.LateEvents.{AreIn};
ghost use Rattle.toml_edit_fmt_laws.specs.Formatted.{laid_path, laid_spelling};
ghost use Rattle.toml_edit_fmt.specs.PageView.{Gains};
ghost use Rattle.toml_edit_fmt.specs.PathView.{Handed, IfHeadNext, IfPathNext, Leaves};
ghost use Rattle.toml_edit_fmt.specs.RulesView.{rules_of};
ghost use Rattle.toml_edit_fmt.specs.ValueBits.{head_text};

use crate::page::Page;
use std::borrow::CowStr;
use toml_edit_repr::Mem;
use toml_edit_syntax::{Event, EventKind};
use toml_edit_token::decode_name;
use toml_edit_token::run::{Class, split_run};

/// Adds the path at the front. Returns the events after it.
pub(crate) fn put_path<'e>(page: &mut Page<'_>, events: &'e [Event]) -> Mem<&'e [Event]>
    requires { AreIn page.old.source.now events.now }
    ensures path { (p : List Segment) (start : ℕ) (more : List Event)
        → IfPathNext page.old.source.now events.now p start more (IfOk result
        (λ rest. Handed more rest.now (Gains (path_text (laid_path (rules_of page.old.rules) p)) page.old page.new))) }
    ensures rest { Leaves page.old page.new events.now result }
{
    let mut rest = events;
    'keys: while let [first, more @ ..] = rest {
        match first.kind {
            EventKind::Key => {
                let key = laid_key(page, first)?;
                page.put(key.as_str())?;
            }
            EventKind::BeforeDot => {
                put_inside(page, first)?;
                page.put(".")?;
            }
            EventKind::AfterDot => put_inside(page, first)?,
            _ => return Ok(rest),
        }
        rest = more;
    }
    Ok(rest)
}

/// Adds the white space at a dot or inside the brackets of a header, unless there is to be none.
pub(crate) fn put_inside(page: &mut Page<'_>, event: &Event) -> Mem<()>
    requires { IsSpanOf page.old.source.now event.now.span }
    ensures { OnOk result
        (Gains (if page.old.rules.dots then []
        else cut_out page.old.source.now event.now.span.start event.now.span.end) page.old page.new) }
{
    if page.rules.dots {
        return Ok(());
    }
    page.put_event(event)
}

/// Returns a key as it is laid out: bare if it can be and is to be so.
pub(crate) fn laid_key<'a>(page: &Page<'a>, event: &Event) -> Mem<CowStr<'a>>
    requires { IsSpanOf page.now.source.now event.now.span }
    ensures { (s : Segment) → SpellsKey s.key s.spelled
        → cut_out page.now.source.now event.now.span.start event.now.span.end ≡ s.spelled
        → IfOk result (λ t. cow_str_bytes t ≡ laid_spelling (rules_of page.now.rules) s) }
{
    let text = page.text_of(event);
    if !page.rules.keys {
        return Ok(CowStr::Borrowed(text));
    }
    match decode_name(page.alloc, text)? {
        Some(name) if can_be_bare(name.as_str()) => Ok(name),
        _ => Ok(CowStr::Borrowed(text)),
    }
}

/// Returns `true` if a key of this name can be bare.
fn can_be_bare(name: &str) -> bool
    ensures { result ≡ is_bare_key name.now }
{
    !name.is_empty() && split_run(name, Class::Bare).1.is_empty()
}

/// Adds the path and the sign `=` at the front. Returns the events after them, the value first.
pub(crate) fn put_pair_head<'e>(page: &mut Page<'_>, events: &'e [Event]) -> Mem<&'e [Event]>
    requires { AreIn page.old.source.now events.now }
    ensures head { (f : Frame) (start : ℕ) (more : List Event)
        → IfHeadNext page.old.source.now events.now f start more (IfOk result
        (λ rest. Handed more rest.now (Gains (head_text (rules_of page.old.rules) f) page.old page.new))) }
    ensures rest { Leaves page.old page.new events.now result }
{
    let rest = put_path(page, events)?;
    let [equals, value @ ..] = rest else {
        return Ok(rest);
    };
    let [first, ..] = value else {
        return Ok(value);
    };
    if page.rules.equals {
        page.put(" = ")?;
        return Ok(value);
    }
    let end = end_before(events, rest);
    let source = page.source;
    page.put(source.get(end..first.span.start).unwrap_or(""))?;
    Ok(value)
}

/// Returns where the last of the events before the others ends.
fn end_before(events: &[Event], rest: &[Event]) -> usize
    requires { length rest.now ≤ length events.now }
    ensures { (es : List Event) (last : Event) → events.now ≡ es ++ (last ∷ rest.now)
        → result ≡ last.span.end }
{
    match &events[..events.len() - rest.len()] {
        [.., last] => last.span.end,
        [] => 0,
    }
}
