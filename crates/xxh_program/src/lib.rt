//! The digest engine and the program `xxh`, all in the module [`program`].
#![tactic(auto)]

pub mod program;
