// The reader for C.
#![tactic(auto)]

pub mod numbers; // a message as numbers
pub mod fields; // its fields of bytes
