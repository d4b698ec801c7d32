//! Rows on scalars that are made and not parsed.
use crate::program::Texts;
use std::alloc::Global;
use test_rows_read::{Answer, Row, refusal, steps};
use toml_edit::{FloatText, Mem, Value};

/// Answers rows on a scalar that is made.
pub fn answer(row: Row<'_>, out: &mut Answer) {
    match row.kind {
        "float" => float(String::from_str(out.alloc, row.text()), row, out),
        "float_text" => copied_float(FloatText::from_text(out.alloc, row.text()), row, out),
        "integer" => steps::found::<Texts, _>(integer(row.text()), row, out),
        _ => steps::made::<Texts, _>(made(out.alloc, row), row, out),
    }
}

fn made(alloc: Global, row: Row<'_>) -> Mem<Value> {
    match row.kind {
        "string" => Value::string(alloc, row.text()),
        "owned_string" => String::from_str(alloc, row.text()).map(Value::from),
        _ => Ok(Value::from(row.text() == "true")),
    }
}

fn integer(text: &str) -> Option<Value> {
    text.parse::<i64>().ok().map(Value::from)
}

fn float(text: Mem<String>, row: Row<'_>, out: &mut Answer) {
    match text {
        Ok(text) => checked_float(FloatText::new(text), row, out),
        Err(_) => out.refuse(),
    }
}

/// Answers a question on the float that was made of a text, if that is one.
fn copied_float(made: Mem<Option<FloatText>>, row: Row<'_>, out: &mut Answer) {
    match made {
        Ok(float) => steps::found::<Texts, _>(float.map(Value::from), row, out),
        Err(_) => out.refuse(),
    }
}

/// Answers a question on the float, or on the text that is given back, which is none.
fn checked_float(float: Result<FloatText, String>, row: Row<'_>, out: &mut Answer) {
    match float {
        Ok(float) => steps::stepped::<Texts, _>(Value::from(float), row, out),
        Err(back) => given_back(back.as_str(), row.question, out),
    }
}

fn given_back(text: &str, question: &str, out: &mut Answer) {
    match question {
        "given_back" => out.text(text),
        _ => refusal::none(question, out),
    }
}
