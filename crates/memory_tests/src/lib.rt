//! Tests of the allocations of XXH3 streams: constructors under seeds of every size, copies of every kind after few
//! bytes and many, and the result of each call if an allocation fails. Each contract allows out of memory, so only
//! tests show that a call succeeds.
#![tactic(auto)]

#[cfg(test)]
mod constructors;
#[cfg(test)]
mod copies;
#[cfg(test)]
mod great_streams;
#[cfg(test)]
mod inputs;
#[cfg(test)]
mod refused_memory;
#[cfg(test)]
mod streams;
