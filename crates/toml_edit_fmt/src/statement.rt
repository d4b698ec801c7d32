//! Statements: lines and headers.
ghost use Rattle.std.specs.Prelude.{◌≡◌, ◌+◌, ◌<◌, ◌^◌, ℕ, OnOk, length};
ghost use Rattle.toml_edit_model.specs.Syntax.{Frame, Header, Statement, Value, header, key_line};
ghost use Rattle.toml_edit_model.specs.Text.{Text};
ghost use Rattle.toml_edit_syntax.specs.LateEvents.{AreIn};
ghost use Rattle.toml_edit_fmt.specs.PageView.{Grows};
ghost use Rattle.toml_edit_fmt.specs.RulesView.{rules_of};
ghost use Rattle.toml_edit_fmt.specs.StatementView.{IfStatementNext};
ghost use Rattle.toml_edit_fmt.specs.StateView.{state_of};
ghost use Rattle.toml_edit_fmt.specs.ValueBits.{statement_bits};

use crate::lines::{put_header_leading, put_leading, put_rest};
use crate::page::Page;
use crate::path::{put_inside, put_pair_head, put_path};
use crate::state::{State, depth_below, is_header, key_count};
use crate::value::{Place, put_value};
use toml_edit_repr::Mem;
use toml_edit_syntax::Event;

/// Adds a statement up to its newline.
pub(crate) fn put_statement(page: &mut Page<'_>, state: State, statement: &[Event]) -> Mem<()>
    requires spans { AreIn page.old.source.now statement.now }
    requires room { state.keys + length statement.now < 2 ^ 64 }
    ensures laid { (s : Statement) (start : ℕ) → IfStatementNext page.old.source.now statement.now s start
        (OnOk result (Grows (statement_bits (rules_of page.old.rules) (state_of state) s) page.old page.new)) }
    ensures source { OnOk result (page.new.source ≡ page.old.source) }
{
    if is_header(statement) {
        put_header(page, state, statement)
    } else {
        put_key_line(page, state, statement)
    }
}

/// Adds a line.
fn put_key_line(page: &mut Page<'_>, state: State, statement: &[Event]) -> Mem<()>
    requires spans { AreIn page.old.source.now statement.now }
    requires room { state.keys + length statement.now < 2 ^ 64 }
    ensures laid { (f : Frame) (v : Value) (end : Text) (start : ℕ)
        → IfStatementNext page.old.source.now statement.now (key_line f v end) start
        (OnOk result
        (Grows (statement_bits (rules_of page.old.rules) (state_of state) (key_line f v end)) page.old page.new)) }
    ensures source { OnOk result (page.new.source ≡ page.old.source) }
{
    let [leading, pair @ ..] = statement else {
        return Ok(());
    };
    let depth = depth_below(&page.rules, state.keys);
    let before = page.text_of(leading);
    let start = page.len();
    put_leading(page, state.is_start, depth, before)?;
    let value = put_pair_head(page, pair)?;
    let place = Place {
        depth,
        may_break: true,
        used: Some(page.columns_since(start)),
    };
    let [end, ..] = put_value(page, place, value)? else {
        return Ok(());
    };
    let after = page.text_of(end);
    put_rest(page, Some(depth), after)
}

/// Adds a header.
fn put_header(page: &mut Page<'_>, state: State, statement: &[Event]) -> Mem<()>
    requires { AreIn page.old.source.now statement.now }
    ensures laid { (h : Header) (end : Text) (start : ℕ)
        → IfStatementNext page.old.source.now statement.now (header h end) start
        (OnOk result
        (Grows (statement_bits (rules_of page.old.rules) (state_of state) (header h end)) page.old page.new)) }
    ensures source { OnOk result (page.new.source ≡ page.old.source) }
{
    let [leading, open, before, path @ ..] = statement else {
        return Ok(());
    };
    let depth = depth_below(&page.rules, key_count(statement).saturating_sub(1));
    let lines = page.text_of(leading);
    put_header_leading(page, state.is_start, depth, lines)?;
    page.put_event(open)?;
    put_inside(page, before)?;
    let [after, close, end, ..] = put_path(page, path)? else {
        return Ok(());
    };
    put_inside(page, after)?;
    page.put_event(close)?;
    let rest = page.text_of(end);
    put_rest(page, None, rest)
}
