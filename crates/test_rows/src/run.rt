//! Rows on the program: its words and its input, and how it ends.
use crate::streams::{self, Ended};
use serde_json::Value as Json;
use std::alloc::Global;
use test_rows_read::{Answer, Row, items_of, text_of};
use toml_edit::Mem;

/// Answers rows on runs of the program.
pub fn answer(row: Row<'_>, out: &mut Answer) {
    let words = words(out.alloc, items_of(row.subject()));
    run_of(words, row, out);
}

fn run_of(words: Mem<Vec<String>>, row: Row<'_>, out: &mut Answer) {
    match (words, input(out.alloc, row.json)) {
        (Ok(words), Ok(input)) => ended(words.as_slice(), input.as_slice(), row.question, out),
        _ => out.refuse(),
    }
}

/// Writes how the run ends: its status, its output, or its messages.
fn ended(words: &[String], input: &[u8], question: &str, out: &mut Answer) {
    match streams::run_whole(out.alloc, words, input) {
        Ok(ended) if question == "streams_fail" => {
            out.told(streams::hold(out.alloc, words, input, &ended));
        }
        Ok(ended) => tell(&ended, question, out),
        Err(_) => out.refuse(),
    }
}

fn tell(ended: &Ended, question: &str, out: &mut Answer) {
    match question {
        "status" => out.shown(&ended.status),
        "output" => bytes(ended.output.as_slice(), out),
        "errors" => bytes(ended.errors.as_slice(), out),
        _ => out.no_such(question),
    }
}

fn words(alloc: Global, items: &[Json]) -> Mem<Vec<String>> {
    let mut words = Vec::new(alloc);
    for item in items {
        words.push(String::from_str(alloc, text_of(Some(item)))?)?;
    }
    Ok(words)
}

/// Returns the input: the text `input`, and after it the `bytes`.
fn input(alloc: Global, json: &Json) -> Mem<Vec<u8>> {
    let mut input = Vec::new(alloc);
    input.extend_from_slice(text_of(json.get("input")).as_bytes())?;
    for byte in items_of(json.get("bytes")) {
        input.push(byte_of(byte))?;
    }
    Ok(input)
}

fn byte_of(number: &Json) -> u8 {
    match number.as_u64() {
        Some(number) => u8::try_from(number).unwrap_or(0),
        None => 0,
    }
}

fn bytes(bytes: &[u8], out: &mut Answer) {
    match str::from_utf8(bytes) {
        Ok(text) => out.text(text),
        Err(_) => out.text("not UTF-8"),
    }
}

/// Writes the lengths of the beginnings of the text that `print` accepts. It ends with status 1 on
/// each other one, or the status is written too.
pub fn accepted_cuts(text: &str, out: &mut Answer) {
    match print_word(out.alloc) {
        Ok(words) => tell_cuts(words.as_slice(), text, out),
        Err(_) => out.refuse(),
    }
}

fn print_word(alloc: Global) -> Mem<Vec<String>> {
    let mut words = Vec::new(alloc);
    words.push(String::from_str(alloc, "print")?)?;
    Ok(words)
}

fn tell_cuts(words: &[String], text: &str, out: &mut Answer) {
    let mut between = "";
    for length in 0..text.len() {
        let status = match cut_status(out.alloc, words, text.as_bytes(), length) {
            Ok(status) => status,
            Err(_) => return out.refuse(),
        };
        if status != 1 {
            out.text(between);
            tell_cut(length, status, out);
            between = " ";
        }
    }
}

fn tell_cut(length: usize, status: u8, out: &mut Answer) {
    out.shown(&length);
    if status != 0 {
        out.text(": status ");
        out.shown(&status);
    }
}

fn cut_status(alloc: Global, words: &[String], text: &[u8], length: usize) -> Mem<u8> {
    let cut = text.get(..length).unwrap_or(&[]);
    let ended = streams::run_whole(alloc, words, cut)?;
    Ok(ended.status)
}
