//! Putting the JSON text of items into sinks.
//!
//! A level of a tree takes one frame, and a small one, since what is put for a key or a scalar has frames
//! of its own.
#![tactic(auto, using(toml_edit_io::proofs::Puts::put_steps))]

ghost use Rattle.std.specs.Prelude.{◌≡◌, false};
ghost use Rattle.std.specs.Fmt.{WritesInCalls};
ghost use Rattle.toml_edit_datetime.specs.DatetimeView.{datetime_view};
ghost use Rattle.json.specs.Json as json;
ghost use Rattle.json.specs.Json.{array, null, number, object, string};
ghost use Rattle.json.specs.Print.{quoted};
ghost use Rattle.toml_edit_json.specs.Parts.{comma_after, items_text, pair_text, slots_text};
ghost use Rattle.toml_edit_json.specs.Texts.{written};
ghost use Rattle.toml_edit_json.specs.Values.{float_value, json_items, json_members, json_text, value_text};
ghost use Rattle.toml_edit_model.specs.DefaultSpelling.{default_spelling};
ghost use Rattle.toml_edit_model.specs.Lists.{is_item};
ghost use Rattle.toml_edit_model.specs.Scalars.{datetime, integer};
ghost use Rattle.toml_edit_model.specs.Text.{has_byte};
ghost use Rattle.toml_edit_json.specs.declared.runs.Form.TheVariants.{Number};
ghost use Rattle.toml_edit_tree.specs.View.{item_view, items_view, slots_view, value_view};

use crate::escaped::{put_escaped_datetime, put_escaped_float};
use crate::runs::{Form, put_text};
use toml_edit_datetime::Datetime;
use toml_edit_io::{Printed, Sink};
use toml_edit_key::Key;
use toml_edit_repr::ScalarValue;
use toml_edit_slots::Slots;
use toml_edit_tree::{Item, Value};

/// An item that is printed as JSON, on one line.
///
/// A table is an object with its keys in order, and an array of tables an array. An integer is in
/// decimal, and a float has its digits, without `_` and `+`. `inf`, `nan`, dates and times are
/// strings. A placeholder is `null`, and is left out of tables and arrays.
#[derive(Drop)]
pub struct Json<'a>(pub &'a Item);

impl Printed for Json<'_> {
    ghost text = { λ json. json_text (item_view json.0.now) };

    fn put_into<S: Sink>(&self, out: &mut S) {
        put_item(out, self.0)
    }
}

/// Puts the JSON text of the item.
#[cycle(json)]
#[inline(always)]
fn put_item<S: Sink>(out: &mut S, item: &Item)
    ensures { WritesInCalls S.puts out.old (json_text (item_view item.now)) out.new }
{
    match item {
        Item::None => put_null(out),
        Item::Value(value) => put_value(out, value),
        Item::Table(table) => put_object(out, &table.slots),
        Item::ArrayOfTables(tables) => put_array(out, &tables.values),
    }
}

/// Puts the JSON text of the value.
#[cycle(json)]
#[inline(always)]
fn put_value<S: Sink>(out: &mut S, value: &Value)
    ensures { WritesInCalls S.puts out.old (json_text (value_view value.now)) out.new }
{
    match value {
        Value::String(scalar) => put_string(out, scalar.value().as_str()),
        Value::Integer(scalar) => put_integer(out, scalar.value()),
        Value::Float(scalar) => put_float(out, scalar.value().as_str()),
        Value::Boolean(scalar) => put_boolean(out, *scalar.value()),
        Value::Datetime(scalar) => put_datetime(out, scalar.value()),
        Value::Array(array) => put_array(out, &array.values),
        Value::InlineTable(table) => put_object(out, &table.items),
    }
}

/// Puts the items between brackets.
#[cycle(json)]
#[inline(always)]
fn put_array<S: Sink>(out: &mut S, items: &Vec<Item>)
    ensures { WritesInCalls S.puts out.old
        (value_text (array (json_items (items_view items.now.items)))) out.new }
{
    out.put("[");
    put_items(out, items)
}

/// Puts the items with commas between them, and the bracket that closes the array.
#[cycle(json)]
#[inline(never)]
fn put_items<S: Sink>(out: &mut S, items: &Vec<Item>)
    ensures { WritesInCalls S.puts out.old
        (items_text false (items_view items.now.items)) out.new }
{
    let mut after_value = false;
    'items: for item in items {
        if is_filled(item) {
            put_comma(out, after_value);
            put_item(out, item);
            after_value = true;
        }
    }
    out.put("]")
}

/// Puts the slots between braces.
#[cycle(json)]
#[inline(always)]
fn put_object<S: Sink>(out: &mut S, slots: &Slots<Item>)
    ensures { WritesInCalls S.puts out.old
        (value_text (object (json_members (slots_view slots.now)))) out.new }
{
    out.put("{");
    put_slots(out, slots)
}

/// Puts the slots with commas between them, and the brace that closes the object.
#[cycle(json)]
#[inline(never)]
fn put_slots<S: Sink>(out: &mut S, slots: &Slots<Item>)
    ensures { WritesInCalls S.puts out.old
        (slots_text false (slots_view slots.now)) out.new }
{
    let mut after_value = false;
    let entries = slots.as_slice();
    'slots: for slot in entries {
        if is_filled(&slot.item) {
            put_comma(out, after_value);
            put_pair(out, &slot.key, &slot.item);
            after_value = true;
        }
    }
    out.put("}")
}

/// Puts a key, a colon and the item.
#[cycle(json)]
#[inline(always)]
fn put_pair<S: Sink>(out: &mut S, key: &Key, item: &Item)
    ensures { WritesInCalls S.puts out.old
        (pair_text key.now (item_view item.now)) out.new }
{
    put_quoted(out, key.get());
    out.put(":");
    put_item(out, item)
}

/// Returns `true` if the item is not a placeholder.
fn is_filled(item: &Item) -> bool
    ensures { result ≡ is_item (item_view item.now) }
{
    !item.is_none()
}

/// Puts a comma if a value is before what comes.
fn put_comma<S: Sink>(out: &mut S, after_value: bool)
    ensures { WritesInCalls S.puts out.old (comma_after after_value) out.new }
{
    if after_value {
        out.put(",")
    }
}

/// Puts what stands for no value.
fn put_null<S: Sink>(out: &mut S)
    ensures { WritesInCalls S.puts out.old (value_text null) out.new }
{
    out.put("null")
}

/// Puts a string.
fn put_string<S: Sink>(out: &mut S, text: &str)
    ensures { WritesInCalls S.puts out.old (value_text (string text.now)) out.new }
{
    put_quoted(out, text)
}

/// Puts the text between quotes.
#[inline(never)]
fn put_quoted<S: Sink>(out: &mut S, text: &str)
    ensures { WritesInCalls S.puts out.old (quoted text.now) out.new }
{
    out.put("\"");
    put_text(out, text, Form::Quoted);
    out.put("\"")
}

/// Puts an integer in decimal.
#[inline(never)]
fn put_integer<S: Sink>(out: &mut S, value: &i64)
    ensures { WritesInCalls S.puts out.old
        (value_text (number (default_spelling (integer value.now)))) out.new }
{
    value.put_default(out)
}

/// Puts a boolean.
fn put_boolean<S: Sink>(out: &mut S, value: bool)
    ensures { WritesInCalls S.puts out.old (value_text (json.boolean value)) out.new }
{
    value.put_default(out)
}

/// Puts a float of this text: a number, or `inf` or `nan` between quotes.
#[inline(never)]
fn put_float<S: Sink>(out: &mut S, text: &str)
    ensures { WritesInCalls S.puts out.old (value_text (float_value text.now)) out.new }
{
    if is_special(text) {
        put_special(out, text)
    } else {
        put_text(out, text, Form::Number)
    }
}

/// Returns `true` if a float's text is `inf` or `nan`, with a sign or not.
fn is_special(text: &str) -> bool
    ensures { result ≡ has_byte 0x6E text.now }
{
    text.as_bytes().contains(&b'n')
}

/// Puts the text of a float between quotes.
fn put_special<S: Sink>(out: &mut S, text: &str)
    ensures { WritesInCalls S.puts out.old (quoted (written Number text.now)) out.new }
{
    out.put("\"");
    put_escaped_float(out, text);
    out.put("\"")
}

/// Puts a date or a time between quotes.
#[inline(never)]
fn put_datetime<S: Sink>(out: &mut S, value: &Datetime)
    ensures { WritesInCalls S.puts out.old
        (value_text (string (default_spelling (datetime (datetime_view value.now))))) out.new }
{
    out.put("\"");
    put_escaped_datetime(out, value);
    out.put("\"")
}
