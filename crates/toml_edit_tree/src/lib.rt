//! The tree of a document: items, values, arrays, inline tables, tables and arrays of tables, with
//! their calls, copies, conversions and text. Texts are parsed into trees by `toml_edit_parser`,
//! and documents are in `toml_edit`.
#![tactic(auto)]

pub mod array;
pub mod array_of_tables;
mod convert;
mod copy;
mod despan;
mod detach;
mod elements;
mod empty;
mod encode;
pub mod index;
pub mod inline_table;
pub mod item;
mod lines;
mod order;
mod positions;
mod sort;
pub mod table;
pub mod value;
mod visit;

pub use array::{Array, ArrayIntoIter, ArrayIter};
pub use array_of_tables::{ArrayOfTables, ArrayOfTablesIntoIter, ArrayOfTablesIter};
#[doc(hidden)]
pub use encode::{Bare, Path, put_path, put_table_lines, table_has_lines};
#[doc(hidden)]
pub use index::filled_place;
pub use index::{Index, IndexFault};
pub use inline_table::{
    InlineEntry, InlineOccupiedEntry, InlineSlotMut, InlineTable, InlineTableIntoIter,
    InlineTableIter, InlineVacantEntry,
};
pub use item::Item;
#[doc(hidden)]
pub use order::put_in_order;
pub use table::{Entry, IntoIter, Iter, OccupiedEntry, Table, VacantEntry};
pub use value::Value;
#[doc(hidden)]
pub use visit::{LineVisitor, visit_lines};
