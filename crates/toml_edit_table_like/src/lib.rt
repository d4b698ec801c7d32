//! Calls that tables and inline tables share: traits for both, and references to an item that is
//! one.
#![tactic(auto)]

mod as_table;
mod entry;
mod find;
mod has_slots;
mod inline;
mod like;
mod put;
mod slot;
mod table_ref;
mod table_ref_mut;

pub use as_table::AsTableLike;
pub use entry::TableLikeEntry;
pub use has_slots::HasSlots;
pub use like::{AnyTable, TableLike};
pub use slot::TableLikeSlot;
pub use table_ref::TableRef;
pub use table_ref_mut::TableRefMut;
