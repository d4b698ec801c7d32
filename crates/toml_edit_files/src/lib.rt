//! The program `tomlfile`, over any folder and any streams: its words, its steps and its exit
//! status.
#![tactic(auto)]

mod check;
mod edit;
mod fmt;
mod get;
mod help;
mod messages;
mod outcome;
mod paths;
mod program;
mod put;
mod read;
mod request;
mod script;
mod split;
mod stop;
mod tally;
mod told;
mod walk;
mod words;

pub use program::{end_without_memory, run};
