//! Tests of XXH3, only through the public calls of `twox_hash`. The tests of XXH32 and XXH64 are in `plain_tests`,
//! those of the parts of XXH3 in `core_tests`, those of its memory in `memory_tests`.
//!
//! A test has no contract, so its proof has little to find as long as each function is small: a call and the checks of
//! its result are in a separate function, which callers see without the call's contract.
#![tactic(auto)]

#[cfg(test)]
mod algorithm;
#[cfg(test)]
mod counts;
#[cfg(test)]
mod kernels;
#[cfg(test)]
mod kinds;
#[cfg(test)]
mod laws;
#[cfg(test)]
mod oneshots;
#[cfg(test)]
mod pieces;
#[cfg(test)]
mod rows;
#[cfg(test)]
mod secret_lengths;
#[cfg(test)]
mod secrets;
