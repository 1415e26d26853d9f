//! The program `xxhsum` over its arguments: walks of folders, lists of names, and audits against a list of digests.
//! Other runs are those of `xxhsum_program`.
#![tactic(auto)]

pub mod audit;
mod digests;
pub mod names;
mod read_list;
mod report;
pub mod run;
pub mod texts;
pub mod walk;
