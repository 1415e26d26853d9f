//! Tests of the parts of XXH3, only through the public calls of `twox_core`.
#![tactic(auto)]

#[cfg(test)]
mod accumulators;
#[cfg(test)]
mod buffers;
#[cfg(test)]
mod kernels;
#[cfg(test)]
mod parts;
