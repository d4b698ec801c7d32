//! Runs of `tomlfile` and `tomled`, one for each line of standard input, as a transcript.
//!
//! A line `get a.toml b` is a run of `tomlfile` with these words, over the files of the folder, and
//! `tomled get b` one of `tomled`. Words are apart by spaces, and stand between single quotes where
//! they have some. With `< FILE` at the end, the file is the run's standard input. What a run writes
//! is shown below its line, and its status if that is not 0. A line `put FILE TEXT` makes a file, and `cat FILE` shows one: a
//! carriage return as `<CR>`, a line feed in TEXT as `<LF>`, a byte order mark as `<BOM>`, and
//! `<END>` where no newline ends it. Empty lines and lines that begin with `#` are shown alone.
#![tactic(auto)]

#[cfg(test)]
mod endings;

use file_replace::Host;
use std::alloc::Global;
use std::io::{BufRead, BufReader};
use std::{fs, io, process};
use toml_edit_io::Watched;

fn main(rt: HostRuntime) -> io::Result<()> {
    let reader = BufReader::new(rt.alloc(), rt.stdin())?;
    for line in reader.lines(rt.alloc()) {
        let line = line?;
        println!(rt; "{line}")?;
        if !line.is_empty() && !line.as_str().starts_with('#') {
            let words = split(rt.alloc(), line.as_str())?;
            show(&rt, words)?;
        }
    }
    Ok(())
}

/// Runs the words, and shows the status if it is not 0.
fn show(rt: &HostRuntime, mut words: Vec<String>) -> io::Result<()> {
    let mut input = Vec::new(rt.alloc());
    if let [.., mark, file] = words.as_slice() {
        if mark.as_str() == "<" {
            input = fs::read(rt, file.as_str())?;
            let left = words.len().saturating_sub(2);
            words.truncate(left);
        }
    }
    match words.as_slice() {
        [name, file] if name.as_str() == "cat" => return show_file(rt, file.as_str()),
        [name, file, text] if name.as_str() == "put" => {
            return put_file(rt, file.as_str(), text.as_str());
        }
        _ => {}
    }
    let status = status_of(rt, words.as_slice(), input.as_slice());
    if status != 0 {
        println!(rt; "[{status}]")?;
    }
    Ok(())
}

/// Runs the words on this standard input, and returns the status.
fn status_of(rt: &HostRuntime, words: &[String], input: &[u8]) -> u8 {
    let mut input = Watched::new(input);
    let mut output = Watched::new(rt.stdout());
    let mut errors = Watched::new(rt.stdout());
    match words {
        [name, words @ ..] if name.as_str() == "tomled" => {
            let ending = toml_edit_command::Ending::Call;
            toml_edit_command::run(
                rt.alloc(),
                ending,
                words,
                &mut input,
                &mut output,
                &mut errors,
            )
        }
        _ => toml_edit_files::run(
            rt.alloc(),
            words,
            &mut Host::new(rt, process::id(rt.process())),
            &mut input,
            &mut output,
            &mut errors,
        ),
    }
}

/// Makes a file of a text with marks.
fn put_file(rt: &HostRuntime, file: &str, text: &str) -> io::Result<()> {
    let text = text.replace(rt.alloc(), "<BOM>", "\u{feff}")?;
    let text = text.as_str().replace(rt.alloc(), "<CR>", "\r")?;
    let text = text.as_str().replace(rt.alloc(), "<LF>", "\n")?;
    fs::write(rt, file, text.as_str())
}

/// Shows a file with marks.
fn show_file(rt: &HostRuntime, file: &str) -> io::Result<()> {
    let text = fs::read_to_string(rt, file)?;
    let text = text.as_str().replace(rt.alloc(), "\u{feff}", "<BOM>")?;
    let text = text.as_str().replace(rt.alloc(), "\r", "<CR>")?;
    let end = if text.as_str().ends_with('\n') {
        ""
    } else {
        "<END>\n"
    };
    print!(rt; "{text}{end}")?;
    Ok(())
}

/// Splits a line into words.
fn split(alloc: Global, line: &str) -> io::Result<Vec<String>> {
    let mut words = Vec::new(alloc);
    let mut word = String::new(alloc);
    let mut is_word = false;
    let mut quoted = false;
    for c in line.chars() {
        if c == '\'' {
            quoted = !quoted;
            is_word = true;
        } else if c == ' ' && !quoted {
            if is_word {
                words.push(word)?;
                word = String::new(alloc);
                is_word = false;
            }
        } else {
            word.push(c)?;
            is_word = true;
        }
    }
    if is_word {
        words.push(word)?;
    }
    Ok(words)
}
