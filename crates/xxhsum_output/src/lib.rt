//! The streams that `xxhsum` writes to: a sink that buffers lines and writes them whole.
#![tactic(auto)]

pub mod messages;
pub mod output;
pub mod visible;
pub mod whole_lines;
