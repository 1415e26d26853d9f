//! Tests of XXH32, XXH64 and the words that every hash reads, only through the public calls of `twox_plain`.
//!
//! A test has no contract, so its proof has little to find as long as each function is small: a call and the checks of
//! its result are in a separate function, which callers see without the call's contract.
#![tactic(auto)]

#[cfg(test)]
mod copies;
#[cfg(test)]
mod laws;
#[cfg(test)]
mod maps;
#[cfg(test)]
mod records;
#[cfg(test)]
mod refusals;
#[cfg(test)]
mod saved;
#[cfg(test)]
mod text_lengths;
#[cfg(test)]
mod values;
#[cfg(test)]
mod words;
