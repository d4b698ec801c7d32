//! Rows: how they are read, tried and reported, and the questions on values and keys, and the steps
//! with arrays, that more than one program of rows has.
#![tactic(auto)]

mod answer;
pub mod array;
mod array_lines;
mod bites;
pub mod date_time;
pub mod key;
pub mod lines;
pub mod list;
pub mod make;
mod out_of_memory;
pub mod prints;
pub mod refusal;
mod report;
mod row;
pub mod scalar;
pub mod steps;
pub mod tell;
pub mod value;

pub use answer::Answer;
pub use report::run;
pub use row::{Program, Row, items_of, text_of};
