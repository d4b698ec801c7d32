//! Inputs and outputs of bytes that remember a fault, and the sinks that texts are put into.
#![tactic(auto)]

mod sink;
mod sinks;
mod streams;
mod watch;

pub use sink::{Printed, Sink};
pub use sinks::{print, print_to, show};
pub use streams::{Broken, Input, Output, ReadFault, read_to_end, write_all};
pub use watch::Watched;
