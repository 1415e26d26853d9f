//! Properties of `twox_hash` that a caller can prove from its contracts only.
#![tactic(auto)]

mod blocks;
mod records;
mod standard;
mod stored;
