//! The container that tables store their keys and items in, and the lists of elements of arrays.
#![tactic(auto)]

mod hashed;
mod index;
pub mod list;
mod order;
mod places;
pub mod slots;
mod tally;

pub use slots::rearrange::Renamed;
pub use slots::{NoMemory, Refused, Slot, Slots};
