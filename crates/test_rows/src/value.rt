//! Rows on lone values.
use crate::events;
use crate::program::Texts;
use serde_json::Value as Json;
use test_rows_read::steps::Tries;
use test_rows_read::{Answer, Row, refusal, steps, value};
use toml_edit::{FromStr, FromStrWith, ParseOptions, Value, Version};

/// Answers rows on a lone value.
pub fn answer(row: Row<'_>, out: &mut Answer) {
    match row.question {
        "events" => events::all_lone(row.text(), out),
        "last_event" => events::last_lone(row.text(), out),
        _ => steps::read::<Texts, _>(Value::from_str(out.alloc, row.text()), row, out),
    }
}

/// Answers rows on a lone value that is parsed as TOML 1.0.
pub fn strict(row: Row<'_>, out: &mut Answer) {
    let options = ParseOptions::new().version(Version::V1_0);
    steps::read::<Texts, _>(
        Value::from_str_with(out.alloc, row.text(), options),
        row,
        out,
    );
}

impl Tries<Value> for Texts {
    fn call(value: &mut Value, words: &[Json], out: &mut Answer) {
        value::change(value, words, out);
    }

    fn answer(value: &Value, question: &str, out: &mut Answer) {
        match question {
            "shown" => out.shown(value),
            "steps" => {}
            _ => refusal::of_accepted(question, out),
        }
    }
}
