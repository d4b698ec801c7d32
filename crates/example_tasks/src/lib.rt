//! The tasks of `docs/GUIDE.md`, which quotes these functions without their contracts.
#![tactic(auto)]

pub mod add;
pub mod comments;
pub mod convert;
pub mod files;
pub mod float;
pub mod headers;
pub mod json;
pub mod lines;
pub mod lint;
pub mod memory;
pub mod paths;
pub mod relocate;
pub mod removing;
pub mod rename;
pub mod sorting;
pub mod version;
pub mod visiting;
