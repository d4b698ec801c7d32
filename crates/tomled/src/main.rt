//! `tomled [exact] [strict] print | get PATH | set PATH VALUE | remove PATH`
//!
//! Reads a TOML document from standard input, and writes the document, the item at a path of keys,
//! or the document with that item set or removed to standard output. `test_runs` has runs of each.
#![tactic(auto)]

use std::process::ExitCode;
use toml_edit_command::{Ending, end_without_memory, run};
use toml_edit_io::Watched;
use toml_edit_words::{ArgumentFault, arguments};

fn main(rt: HostRuntime) -> ExitCode {
    let words = match arguments(&rt) {
        Ok(words) => words,
        // No command has such a word.
        Err(ArgumentFault::NotUtf8(_)) => Vec::new(rt.alloc()),
        Err(ArgumentFault::Memory) => {
            return ExitCode::from(end_without_memory(&mut Watched::new(rt.stderr())));
        }
    };
    let status = run(
        rt.alloc(),
        Ending::Process,
        words.as_slice(),
        &mut Watched::new(rt.stdin()),
        &mut Watched::new(rt.stdout()),
        &mut Watched::new(rt.stderr()),
    );
    ExitCode::from(status)
}
