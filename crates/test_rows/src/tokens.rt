//! Rows on tokens: keys and scalars as they are spelled.
use std::fmt::Display;
use test_rows_read::{Answer, Row};
use toml_edit::Mem;
use toml_edit_datetime::{is_datetime, is_float};
use toml_edit_token::{Scalar, after_key, after_scalar, decode_key, decode_scalar};

/// Answers rows on tokens.
pub fn answer(row: Row<'_>, out: &mut Answer) {
    let text = row.text();
    match row.question {
        "scalar" => scalar(decode_scalar(out.alloc, text), out),
        "key_text" => key_text(decode_key(out.alloc, text), out),
        "after_key" => out.text_or_none(after_key(text)),
        "after_scalar" => out.text_or_none(after_scalar(text)),
        "is_float" => out.truth(is_float(text)),
        "is_datetime" => out.truth(is_datetime(text)),
        _ => out.no_such(row.question),
    }
}

fn key_text(decoded: Mem<Option<String>>, out: &mut Answer) {
    match decoded {
        Ok(key) => out.text_or_none(key.as_ref().map(String::as_str)),
        Err(_) => out.refuse(),
    }
}

/// Writes what the token means: its kind and its value.
fn scalar(decoded: Mem<Option<Scalar>>, out: &mut Answer) {
    match decoded {
        Ok(Some(scalar)) => scalar_text(&scalar, out),
        Ok(None) => out.text("none"),
        Err(_) => out.refuse(),
    }
}

fn scalar_text(scalar: &Scalar, out: &mut Answer) {
    match scalar {
        Scalar::String(string) => kind("string ", string, out),
        Scalar::Integer(number) => kind("integer ", number, out),
        Scalar::Float(float) => kind("float ", float, out),
        Scalar::Boolean(truth) => kind("boolean ", truth, out),
        Scalar::Datetime(datetime) => kind("datetime ", datetime, out),
    }
}

fn kind<T: Display>(kind: &str, scalar: &T, out: &mut Answer) {
    out.text(kind);
    out.shown(scalar);
}
