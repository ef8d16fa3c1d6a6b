// The LSO file, Flash's shared object: a header, and elements up to the first that can't be read.
#![tactic(auto)]

pub mod read;
pub mod write;
