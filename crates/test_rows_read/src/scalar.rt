//! Questions on scalars.
use crate::answer::Answer;
use toml_edit_datetime::FloatText;
use toml_edit_repr::{Formatted, Repr, ValueRepr};
use toml_edit_tree::Value;

/// Resets the spelling of a scalar.
pub fn forget_spelling(value: &mut Value, out: &mut Answer) {
    match value {
        Value::String(scalar) => scalar.fmt(),
        Value::Integer(scalar) => scalar.fmt(),
        Value::Float(scalar) => scalar.fmt(),
        Value::Boolean(scalar) => scalar.fmt(),
        Value::Datetime(scalar) => scalar.fmt(),
        _ => out.no_such("fmt"),
    }
}

/// Answers a question on the spelling of a scalar.
pub fn ask(value: &Value, call: &str, out: &mut Answer) {
    match value {
        Value::String(scalar) => ask_scalar(scalar, call, out),
        Value::Integer(scalar) => ask_scalar(scalar, call, out),
        Value::Float(scalar) => ask_scalar(scalar, call, out),
        Value::Boolean(scalar) => ask_scalar(scalar, call, out),
        Value::Datetime(scalar) => ask_scalar(scalar, call, out),
        _ => out.no_such(call),
    }
}

fn ask_scalar<T: ValueRepr + Drop>(scalar: &Formatted<T>, call: &str, out: &mut Answer) {
    match call {
        "as_repr" => out.raw(scalar.as_repr().map(Repr::as_raw)),
        "repr_span" => out.span(scalar.as_repr().and_then(Repr::span)),
        "default_repr" => out.repr(scalar.default_repr(out.alloc)),
        "repr_clone" => repr_copied(scalar.as_repr(), out),
        "scalar_clone" => out.made(scalar.clone(out.alloc)),
        _ => out.made(scalar.display_repr(out.alloc)),
    }
}

/// Writes a copy of a spelling.
fn repr_copied(repr: Option<&Repr>, out: &mut Answer) {
    match repr {
        Some(repr) => out.repr(repr.clone(out.alloc)),
        None => out.text("none"),
    }
}

/// Writes a copy of a float.
pub fn float_copied(float: Option<&FloatText>, out: &mut Answer) {
    match float {
        Some(float) => out.made(float.clone(out.alloc)),
        None => out.text("none"),
    }
}

/// Answers by a call that every value has.
pub fn cast(value: &Value, call: &str, out: &mut Answer) -> bool {
    match call {
        "as_str" => out.text_or_none(value.as_str()),
        "as_integer" => out.shown_or_none(value.as_integer().as_ref()),
        "as_bool" => out.shown_or_none(value.as_bool().as_ref()),
        "as_float_text" => out.shown_or_none(value.as_float_text()),
        _ => return is_kind(value, call, out),
    }
    true
}

fn is_kind(value: &Value, call: &str, out: &mut Answer) -> bool {
    let is_kind = match call {
        "is_str" => value.is_str(),
        "is_integer" => value.is_integer(),
        "is_float" => value.is_float(),
        "is_bool" => value.is_bool(),
        "is_datetime" => value.is_datetime(),
        "is_array" => value.is_array() && value.as_array().is_some(),
        "is_inline_table" => value.is_inline_table() && value.as_inline_table().is_some(),
        _ => return false,
    };
    out.truth(is_kind);
    true
}
