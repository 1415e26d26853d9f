//! Tests of `xxhsum`: its lines, arguments and files, and the program over them. Lines and outputs are those of
//! Debian's `xxhsum` 0.8.1.
#![tactic(auto)]

#[cfg(test)]
mod entry;
#[cfg(test)]
mod files;
#[cfg(test)]
mod lines;
#[cfg(test)]
mod many;
#[cfg(test)]
mod program;
#[cfg(test)]
mod progress;
#[cfg(test)]
mod whole_lines;
#[cfg(test)]
mod words;
