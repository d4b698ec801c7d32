//! Putting scalars in their places.
ghost use Rattle.std.specs.Prelude.{◌≡◌, ◌<◌, ◌^◌, Some, string_bytes};
ghost use Rattle.toml_edit_datetime.specs.DatetimeView.{datetime_view};
ghost use Rattle.toml_edit_model.specs.Scalars as scalars;
ghost use Rattle.toml_edit_model.specs.Tree as tree;
ghost use Rattle.toml_edit_token.specs.Decoded.{scalar_view};
ghost use Rattle.toml_edit_tree.specs.View.{item_view};

use crate::value::put;
use toml_edit_datetime::{Datetime, FloatText};
use toml_edit_repr::{Decor, Formatted};
use toml_edit_syntax::Span;
use toml_edit_token::Scalar;
use toml_edit_tree::{Item, Value};

/// Puts a scalar, spelled at the span, into the item's place. Each kind has a function of its own,
/// which makes it in place.
#[inline(always)]
pub(crate) fn put_spanned(scalar: Scalar, span: Span, decor: Decor, item: &mut Item)
    requires { span.start < 2 ^ 56 }
    ensures { item_view item.new
        ≡ tree.leaf (scalar_view scalar) (Some (tree.span span.start span.end)) decor }
{
    match scalar {
        Scalar::String(text) => put_string(text, span, decor, item),
        Scalar::Integer(number) => put_integer(number, span, decor, item),
        Scalar::Float(float) => put_float(float, span, decor, item),
        Scalar::Boolean(truth) => put_boolean(truth, span, decor, item),
        Scalar::Datetime(datetime) => put_datetime(datetime, span, decor, item),
    }
}

/// Puts a string, as [`put_spanned`].
#[inline(never)]
fn put_string(text: String, span: Span, decor: Decor, item: &mut Item)
    requires { span.start < 2 ^ 56 }
    ensures { item_view item.new ≡ tree.leaf (scalars.string (string_bytes text))
        (Some (tree.span span.start span.end)) decor }
{
    let value = Value::String(Formatted::spanned(text, span.start, span.end, decor));
    put(item, Item::Value(value));
}

/// Puts an integer, as [`put_spanned`].
#[inline(never)]
fn put_integer(number: i64, span: Span, decor: Decor, item: &mut Item)
    requires { span.start < 2 ^ 56 }
    ensures { item_view item.new
        ≡ tree.leaf (scalars.integer number) (Some (tree.span span.start span.end)) decor }
{
    let value = Value::Integer(Formatted::spanned(number, span.start, span.end, decor));
    put(item, Item::Value(value));
}

/// Puts a float, as [`put_spanned`].
#[inline(never)]
fn put_float(float: FloatText, span: Span, decor: Decor, item: &mut Item)
    requires { span.start < 2 ^ 56 }
    ensures { item_view item.new
        ≡ tree.leaf (scalars.float float) (Some (tree.span span.start span.end)) decor }
{
    let value = Value::Float(Formatted::spanned(float, span.start, span.end, decor));
    put(item, Item::Value(value));
}

/// Puts a boolean, as [`put_spanned`].
#[inline(never)]
fn put_boolean(truth: bool, span: Span, decor: Decor, item: &mut Item)
    requires { span.start < 2 ^ 56 }
    ensures { item_view item.new
        ≡ tree.leaf (scalars.boolean truth) (Some (tree.span span.start span.end)) decor }
{
    let value = Value::Boolean(Formatted::spanned(truth, span.start, span.end, decor));
    put(item, Item::Value(value));
}

/// Puts a date or a time, as [`put_spanned`].
#[inline(never)]
fn put_datetime(datetime: Datetime, span: Span, decor: Decor, item: &mut Item)
    requires { span.start < 2 ^ 56 }
    ensures { item_view item.new ≡ tree.leaf (scalars.datetime (datetime_view datetime))
        (Some (tree.span span.start span.end)) decor }
{
    let value = Value::Datetime(Formatted::spanned(datetime, span.start, span.end, decor));
    put(item, Item::Value(value));
}
