//! Tries rows that change arrays, inline tables, and tables of either kind by `TableLike`.
//!
//! Each line of standard input is a row in JSON: questions to the library, and the answers that it
//! should give. Each row that does not hold is written with what came instead, and last the number
//! of rows that hold.
#![tactic(auto)]

mod document;
mod inline_entry;
mod inline_slot;
mod inline_table;
mod item;
mod program;
mod rearrange;
mod table_like;
mod value;

use program::Values;
use std::process::ExitCode;

fn main(rt: HostRuntime) -> ExitCode {
    test_rows_read::run::<Values>(rt)
}
