// AMF0 values: read into a tree image, and written from one.
#![tactic(auto)]

mod part;
pub mod read;
pub mod survey;
pub mod type_marker;
pub mod write;
