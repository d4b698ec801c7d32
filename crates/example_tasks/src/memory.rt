//! Running out of memory.
use std::alloc::AllocError;
use toml_edit::NoMemory;

/// Drops what found no memory, and returns the error.
pub fn no_memory<T: Drop>(_refused: NoMemory<T>) -> AllocError {
    AllocError
}
