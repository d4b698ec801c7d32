//! Finding an item by a path of keys, putting a value there, changing it, and removing it. Renaming
//! and moving the last key of a path, and resetting the spelling of its keys.
#![tactic(auto)]

mod alter;
mod element;
mod fault;
mod find;
mod keys;
mod make;
mod put;
mod take;
mod take_line;

pub use alter::change;
pub use element::number_of;
pub use fault::ChangeFault;
pub use find::{get, get_shown, get_through_tables};
pub use keys::{move_to, rename, reset_keys};
pub use put::{set, set_with_headers};
pub use take::remove;
pub use take_line::remove_line;
