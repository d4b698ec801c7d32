//! Keys: their names, spellings and decors, and how they print.
#![tactic(auto)]

pub mod key;

pub use key::{Key, KeyMut, bare_name};
