//! What programs do with documents, as the library's documentation quotes it. `docs/PROVING.md` shows
//! one of these functions with its proof.
#![tactic(auto)]

pub mod adding;
pub mod arranging;
pub mod changing;
pub mod dates;
pub mod documents;
pub mod editing;
pub mod edits;
pub mod either_table;
pub mod exchanging;
pub mod fault;
pub mod first;
pub mod generic;
pub mod lists;
pub mod normalizing;
pub mod reading;
pub mod removing;
pub mod spelling;
