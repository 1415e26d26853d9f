//! The audit of a directory tree against a checksum list: which files are the same, changed, moved, copied, new and
//! missing. A function of values: the entries of the lines, and the current digests of the names. Also reads whole
//! lists and names.
#![tactic(auto)]

pub mod digest;
pub mod json;
pub mod laws;
pub mod list;
pub mod moves;
pub mod order;
pub mod parts;
pub mod read;
pub mod side;
pub mod text;
pub mod verdict;
