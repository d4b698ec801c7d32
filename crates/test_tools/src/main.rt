//! What the tools of `tools` run, on the document on standard input.
//!
//! - `meaning [strict]` writes what it means, for `tools/conformance.py` and `tools/differential.py`.
//!   The status is 1 if it is refused.
//! - `kept [detach]` keeps one of its values and drops the rest, for `tools/kept.py`.
//! - `shared` edits two documents that share its text by turns, for `tools/threads.py`.
//! - `format RULE..` formats it, for `tools/format.py`.
//!
//! Without words, each line of standard input is such words and `< FILE`. What they write is shown
//! below it, and the status if it is not 0. The status is 2 if something fails.
#![tactic(auto)]

mod kept;
mod layout;
mod meaning;
mod shared;

use anyhow::{Result, bail};
use kept::text_of_kept;
use layout::formatted;
use meaning::meaning_of;
use shared::edited_by_turns;
use std::io::{BufRead, BufReader, ErrorKind};
use std::process::ExitCode;
use std::{fs, io};
use toml_edit_words::arguments;

fn main(rt: HostRuntime) -> ExitCode {
    let Ok(words) = arguments(&rt) else {
        return ExitCode::from(2);
    };
    if words.is_empty() {
        return match show_all(&rt) {
            Ok(()) => ExitCode::from(0),
            Err(_) => ExitCode::from(2),
        };
    }
    match io::read_to_string(rt.alloc(), rt.stdin()) {
        Ok(text) => ExitCode::from(run(&rt, words.as_slice(), text)),
        Err(error) if error.kind() == ErrorKind::InvalidData => ExitCode::from(1),
        Err(_) => ExitCode::from(2),
    }
}

/// Runs the words of each line, and shows what they write.
fn show_all(rt: &HostRuntime) -> Result<()> {
    let reader = BufReader::new(rt.alloc(), rt.stdin())?;
    for line in reader.lines(rt.alloc()) {
        let line = line?;
        println!(rt; "{line}")?;
        let mut words = Vec::new(rt.alloc());
        for word in line.as_str().split(' ') {
            words.push(String::from_str(rt.alloc(), word)?)?;
        }
        let [front @ .., _, file] = words.as_slice() else {
            bail!("no file");
        };
        let text = fs::read_to_string(rt, file.as_str())?;
        let status = run(rt, front, text);
        if status != 0 {
            println!(rt; "[{status}]")?;
        }
    }
    Ok(())
}

/// Runs the words on a text, writes what they make of it, and returns the status.
fn run(rt: &HostRuntime, words: &[String], text: String) -> u8 {
    match made(rt, words, text) {
        Ok(Some(text)) => match rt.print(text.as_str()) {
            Ok(()) => 0,
            Err(_) => 2,
        },
        Ok(None) => 1,
        Err(error) => {
            let _ = eprintln!(rt; "test_tools: {error}");
            2
        }
    }
}

/// Returns what the words make of a text, or `None` if it is refused.
fn made(rt: &HostRuntime, words: &[String], text: String) -> Result<Option<String>> {
    let [name, words @ ..] = words else {
        bail!("no words");
    };
    match name.as_str() {
        "meaning" => Ok(meaning_of(rt.alloc(), text.as_str(), !words.is_empty())?),
        "kept" => Ok(Some(text_of_kept(rt.alloc(), text, !words.is_empty())?)),
        "shared" => Ok(Some(edited_by_turns(rt.alloc(), text.as_str())?)),
        "format" => Ok(Some(formatted(rt.alloc(), text.as_str(), words)?)),
        _ => bail!("no tool of this name"),
    }
}
