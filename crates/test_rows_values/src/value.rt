//! Rows on lone values, and on arrays and inline tables that are made.
use crate::inline_table;
use crate::program::Values;
use serde_json::Value as Json;
use test_rows_read::steps::{Tries, behind, word};
use test_rows_read::tell::tell_given;
use test_rows_read::{Answer, Row, array, make, refusal, steps, value};
use toml_edit::{Array, FromStr, InlineTable, Value};

/// Answers rows on a value.
pub fn answer(row: Row<'_>, out: &mut Answer) {
    match row.kind {
        "array" => steps::stepped::<Values, _>(Value::from(Array::new(out.alloc)), row, out),
        "inline_table" => {
            steps::stepped::<Values, _>(Value::from(InlineTable::new(out.alloc)), row, out);
        }
        _ => steps::read::<Values, _>(Value::from_str(out.alloc, row.text()), row, out),
    }
}

impl Tries<Value> for Values {
    fn call(value: &mut Value, words: &[Json], out: &mut Answer) {
        change(value, words, out);
    }

    fn answer(value: &Value, question: &str, out: &mut Answer) {
        match question {
            "shown" => out.shown(value),
            "steps" => {}
            _ => refusal::of_accepted(question, out),
        }
    }
}

/// Makes a step with a value. The answer to a call that changes it is empty.
pub fn change(value: &mut Value, words: &[Json], out: &mut Answer) {
    let rest = behind(words, 1);
    match word(words, 0) {
        "as_array_mut" => array::change_found(value.as_array_mut(), rest, out),
        "as_inline_table_mut" => inline_table::change_found(value.as_inline_table_mut(), rest, out),
        "replace_with" => replace(value, make::value(rest, out), out),
        _ => value::change(value, words, out),
    }
}

/// Writes the value that was replaced.
fn replace(value: &mut Value, made: Option<Value>, out: &mut Answer) {
    match made {
        Some(new) => tell_given(value.replace_with(new), out),
        None => out.text("no value"),
    }
}
