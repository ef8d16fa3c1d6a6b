// A tree image as JSON, as docs/JSON.md says: a value at a time, and the members of the document that values stand in.
#![tactic(auto)]

pub mod document;
mod leaf;
mod repeats;
mod shape;
pub mod tree;
