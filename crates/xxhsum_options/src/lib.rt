//! Parses the arguments of `xxhsum`.
#![tactic(auto)]

pub mod exclude;
mod letters;
pub mod name;
mod number;
pub mod options;
pub mod table;
