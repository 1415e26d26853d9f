//! Tests of the digest engine and of the program `xxh`, for what no clause covers: outside vectors, printed texts, how
//! many bytes a read is offered, and that out of memory is reported only if an allocation fails. Each public call of
//! `xxh_program` is made once, and once with a read and a write that fail in mid-stream.
//!
//! Each call is in a small function with no contract, so that a test, which calls it in a loop over a table, has
//! nothing to prove of it.
#![tactic(auto)]

#[cfg(test)]
mod calls;
#[cfg(test)]
mod commands;
#[cfg(test)]
mod digests;
#[cfg(test)]
mod lengths;
#[cfg(test)]
mod process;
