//! Tries rows on texts: documents, lone values and keys, tokens, and runs of `tomled`.
//!
//! Each line of standard input is a row in JSON: questions to the library, and the answers that it
//! should give. Each row that does not hold is written with what came instead, and last the number
//! of rows that hold.
#![tactic(auto)]

mod date_time;
mod document;
mod events;
mod key;
mod program;
mod run;
mod scalar;
mod streams;
mod tokens;
mod value;

use program::Texts;
use std::process::ExitCode;

fn main(rt: HostRuntime) -> ExitCode {
    test_rows_read::run::<Texts>(rt)
}
