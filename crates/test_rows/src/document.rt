//! Rows on the text of a document.
use crate::program::Texts;
use crate::{events, run};
use serde_json::Value as Json;
use test_rows_read::steps::{Tries, word};
use test_rows_read::{Answer, Row, prints, refusal, steps};
use toml_edit::{
    Document, DocumentMut, Mem, ParseFault, ParseOptions, SourceText, Version, line_column,
};

/// Answers rows on the text of a document.
pub fn answer(row: Row<'_>, out: &mut Answer) {
    match row.question {
        "events" => events::all(row.text(), out),
        "last_event" => events::last(row.text(), out),
        "accepted_cuts" => run::accepted_cuts(row.text(), out),
        "line_columns" => line_columns(row.text(), out),
        "from_str_prints" | "from_str_at" | "from_str_error" => {
            steps::read::<Texts, _>(DocumentMut::from_str(out.alloc, row.text()), row, out);
        }
        "document_from_str_prints" => owned(Document::from_str(out.alloc, row.text()), row, out),
        _ => read(Document::parse(out.alloc, row.text()), row, out),
    }
}

/// Writes the line and the column of each byte of the text, of its end, and of a byte beyond.
fn line_columns(text: &str, out: &mut Answer) {
    let mut between = "";
    for byte in 0..=text.len().saturating_add(1) {
        let (line, column) = line_column(text, byte);
        out.text(between);
        out.shown(&line);
        out.text(":");
        out.shown(&column);
        between = " ";
    }
}

/// Answers rows on the text of a document that is parsed as TOML 1.0.
pub fn strict(row: Row<'_>, out: &mut Answer) {
    by_options(ParseOptions::new().version(Version::V1_0), row, out);
}

/// Answers rows on the text of a document whose line endings are kept.
pub fn exact(row: Row<'_>, out: &mut Answer) {
    by_options(ParseOptions::new().exact(true), row, out);
}

/// Answers rows on the text of a document that is parsed by these options.
fn by_options(options: ParseOptions, row: Row<'_>, out: &mut Answer) {
    match row.question {
        "from_str_prints" | "from_str_at" | "from_str_error" => steps::read::<Texts, _>(
            DocumentMut::from_str_with(out.alloc, row.text(), options),
            row,
            out,
        ),
        _ => read(
            Document::parse_with(out.alloc, row.text(), options),
            row,
            out,
        ),
    }
}

/// Answers a question on the document that is made of the parsed root, or on the document after it
/// owns its texts.
fn read(read: Result<Document<&str>, ParseFault>, row: Row<'_>, out: &mut Answer) {
    match read {
        Ok(document) if row.question == "root_prints" || row.question == "root_fits" => {
            steps::stepped::<Texts, _>(DocumentMut::from(document.into_table()), row, out);
        }
        Ok(document) => owning(document.into_mut(out.alloc), row, out),
        Err(fault) => refusal::answer(&fault, row.question, out),
    }
}

/// Answers a question on the document after it owns its texts.
fn owned<S: SourceText>(read: Result<Document<S>, ParseFault>, row: Row<'_>, out: &mut Answer) {
    match read {
        Ok(document) => owning(document.into_mut(out.alloc), row, out),
        Err(fault) => refusal::answer(&fault, row.question, out),
    }
}

/// Answers a question on the document, or on the document that is made of its root.
fn owning(made: Mem<DocumentMut>, row: Row<'_>, out: &mut Answer) {
    match made {
        Ok(document) if row.question == "owned_root_prints" => {
            steps::stepped::<Texts, _>(DocumentMut::from(document.into_table()), row, out);
        }
        Ok(document) => steps::stepped::<Texts, _>(document, row, out),
        Err(_) => out.refuse(),
    }
}

impl Tries<DocumentMut> for Texts {
    fn call(_: &mut DocumentMut, words: &[Json], out: &mut Answer) {
        out.no_such(word(words, 0));
    }

    fn answer(document: &DocumentMut, question: &str, out: &mut Answer) {
        match question {
            "settles" => prints::settles(document, out),
            "fits" | "root_fits" => out.told(document.fits(out.alloc)),
            _ if question.ends_with("prints") => prints::answer(document, out),
            _ => refusal::of_accepted(question, out),
        }
    }
}
