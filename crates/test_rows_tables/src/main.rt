//! Tries rows on tables, arrays of tables and items, and on the documents that hold them.
//!
//! Each line of standard input is a row in JSON: questions to the library, and the answers that it
//! should give. Each row that does not hold is written with what came instead, and last the number
//! of rows that hold.
#![tactic(auto)]

mod at;
mod convert;
mod document;
mod entry;
mod indexing;
mod item;
mod misfit;
mod program;
mod rearrange;
mod slots;
mod table;
mod tables;

use program::Tables;
use std::process::ExitCode;

fn main(rt: HostRuntime) -> ExitCode {
    test_rows_read::run::<Tables>(rt)
}
