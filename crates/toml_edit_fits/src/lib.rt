//! Checking whether a document fits: whether its print is accepted and means what the tree shows.
//! Where it does not fit, the first such place is found.
#![tactic(auto)]

mod first;
mod fits;
mod laws;
mod misfit;
mod order;
mod report;
mod route;
mod table;
mod trivia;
mod value;

#[doc(hidden)]
pub use first::first_misfit;
#[doc(hidden)]
pub use fits::tree_fits;
pub use laws::broken;
pub use misfit::{FitRule, Misfit};
