//! The words of a line of a script.
ghost use Rattle.std.specs.Prelude.{◌≡◌, ◌++◌, IfOk, None, OnOk, false, length, map};
ghost use Rattle.toml_edit_edits.specs.LineWords.{AreWords, first_word, last_word, may_be_empty, operands_in, quoting, rest_of, word_from};
ghost use Rattle.toml_edit_model.specs.Trivia.{is_blank};

use crate::edit::{PathVerb, Verb};
use std::alloc::Global;
use toml_edit::Mem;

/// Returns the words of a line of a script: a name, and as many as its edit takes, of which the last
/// is the rest of the line. A word may have blanks between quotes.
pub fn line_words(alloc: Global, line: &str) -> Mem<Vec<&str>>
    ensures { IfOk result (λ words. AreWords line.now (map (λ w. w.now) words.items)) }
{
    let (name, rest) = split_word(line);
    let mut words = Vec::new(alloc);
    words.push(name)?;
    match Verb::named(name) {
        Some(verb) => push_operands(&mut words, verb, rest)?,
        None => {}
    }
    Ok(words)
}

fn push_operands<'w>(words: &mut Vec<&'w str>, verb: Verb, rest: &'w str) -> Mem<()>
    ensures { OnOk result (map (λ w. w.now) words.new.items
        ≡ map (λ w. w.now) words.old.items ++ operands_in verb rest.now) }
{
    if verb.count() == 1 {
        return push_last(words, verb, rest);
    }
    let (path, last) = split_word(rest);
    if path.is_empty() {
        return Ok(());
    }
    words.push(path)?;
    push_last(words, verb, last)
}

/// Adds the last word of an edit, which is the rest of the line. It is none if it is empty, unless the
/// edit may take an empty one.
fn push_last<'w>(words: &mut Vec<&'w str>, verb: Verb, word: &'w str) -> Mem<()>
    ensures { OnOk result (map (λ w. w.now) words.new.items
        ≡ map (λ w. w.now) words.old.items ++ last_word verb word.now) }
{
    if word.is_empty() && !may_be_empty(verb) {
        return Ok(());
    }
    words.push(word)?;
    Ok(())
}

/// Returns `true` if the last word of the edit may be empty: the path of a sort, and a text.
fn may_be_empty(verb: Verb) -> bool
    ensures { result ≡ may_be_empty verb }
{
    match verb {
        Verb::Path(PathVerb::Sort) | Verb::Text(_) => true,
        _ => false,
    }
}

/// Splits off the first word of a line, and the white space after it.
fn split_word(line: &str) -> (&str, &str)
    ensures word { result.0.now ≡ first_word line.now }
    ensures rest { result.1.now ≡ rest_of line.now }
{
    let (word, rest) = line.split_at(word_length(line.as_bytes()));
    (word, rest.trim_start())
}

/// Returns how many bytes the first word of a line has. Between quotes it may have blanks.
fn word_length(line: &[u8]) -> usize
    ensures { result ≡ length (word_from None false line.now) }
{
    let mut quote = None;
    let mut escaped = false;
    for at in 0..line.len() {
        let byte = line[at];
        if quote.is_none() && is_blank(byte) {
            return at;
        }
        let next = quoting(quote, escaped, byte);
        quote = next.0;
        escaped = next.1;
    }
    line.len()
}

fn is_blank(byte: u8) -> bool
    ensures { result ≡ is_blank byte }
{
    byte == b' ' || byte == b'\t'
}

/// Returns the quote that is open behind a byte, and whether the next byte is escaped.
fn quoting(quote: Option<u8>, escaped: bool, byte: u8) -> (Option<u8>, bool)
    ensures { result ≡ quoting quote escaped byte }
{
    match quote {
        None => {
            let next = if byte == b'"' || byte == b'\'' {
                Some(byte)
            } else {
                None
            };
            (next, false)
        }
        Some(mark) if escaped => (Some(mark), false),
        Some(mark) => {
            let next = if byte == mark { None } else { Some(mark) };
            (next, byte == b'\\' && mark == b'"')
        }
    }
}
