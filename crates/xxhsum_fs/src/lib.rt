//! Files and directories by names that are bytes: those that `xxhsum` opens, from the system or from a table in memory.
#![tactic(auto)]

pub mod below;
pub mod calls;
pub mod entries;
pub mod folders;
pub mod memory;
pub mod store;
pub mod system;
pub mod uninterrupted;
