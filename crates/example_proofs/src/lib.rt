//! Eleven programs whose contracts say all that a user asks of them. Five need no proof, the others at
//! most twenty lines each.
#![tactic(auto)]

pub mod add_dependency;
pub mod add_member;
pub mod bump;
pub mod error;
pub mod format_text;
pub mod misspelled;
mod parts;
pub mod remove_dependency;
pub mod rename_key;
pub mod set_string;
pub mod set_two;
pub mod sort_table;
pub mod to_project;
