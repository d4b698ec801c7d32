//! `tomlfile [strict] [normal] get | has | edit | keys | json | check | fmt ..`
//!
//! Reads and edits TOML files. `tomlfile --help` has the commands, and `test_runs` runs of each.
#![tactic(auto)]

use file_replace::Host;
use std::process;
use std::process::ExitCode;
use toml_edit_files::{end_without_memory, run};
use toml_edit_io::{Watched, write_all};
use toml_edit_words::{ArgumentFault, arguments};

fn main(rt: HostRuntime) -> ExitCode {
    let words = match arguments(&rt) {
        Ok(words) => words,
        Err(fault) => return ExitCode::from(end_without_words(&rt, fault)),
    };
    let status = run(
        rt.alloc(),
        words.as_slice(),
        &mut Host::new(&rt, process::id(rt.process())),
        &mut Watched::new(rt.stdin()),
        &mut Watched::new(rt.stdout()),
        &mut Watched::new(rt.stderr()),
    );
    ExitCode::from(status)
}

/// Writes why the arguments are not known, and returns the exit status.
fn end_without_words(rt: &HostRuntime, fault: ArgumentFault) -> u8 {
    let mut errors = Watched::new(rt.stderr());
    let ArgumentFault::NotUtf8(number) = fault else {
        return end_without_memory(&mut errors);
    };
    match format!(in rt.alloc(); "tomlfile: word {number} is not UTF-8\n") {
        Ok(text) => {
            let _ = write_all(&mut errors, text.as_bytes());
            2
        }
        Err(_) => end_without_memory(&mut errors),
    }
}
