//! Tests of the streams, the buffers and the lines of `xxh_io`, over memory and with no hash.
#![tactic(auto)]

#[cfg(test)]
mod adapters;
#[cfg(test)]
mod buffered;
#[cfg(test)]
mod errors;
#[cfg(test)]
mod script;
