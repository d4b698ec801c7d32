//! The kinds of rows on texts.
use crate::{date_time, document, key, run, scalar, tokens, value};
use test_rows_read::{Answer, Program, Row};

const KINDS: &[&str] = &[
    "text",
    "strict_text",
    "exact_text",
    "strict_value",
    "value",
    "string",
    "owned_string",
    "integer",
    "boolean",
    "float",
    "float_text",
    "date_time",
    "date",
    "time",
    "parts",
    "key",
    "name",
    "path",
    "token",
    "run",
];

/// The program that tries rows on texts.
pub struct Texts;

impl Program for Texts {
    fn knows(kind: &str) -> bool {
        KINDS.contains(&kind)
    }

    fn answer(row: Row<'_>, out: &mut Answer) {
        match row.kind {
            "text" => document::answer(row, out),
            "strict_text" => document::strict(row, out),
            "exact_text" => document::exact(row, out),
            "strict_value" => value::strict(row, out),
            "value" => value::answer(row, out),
            "key" | "name" | "path" => key::answer(row, out),
            "token" => tokens::answer(row, out),
            "run" => run::answer(row, out),
            "date_time" | "date" | "time" | "parts" => date_time::answer(row, out),
            _ => scalar::answer(row, out),
        }
    }
}
