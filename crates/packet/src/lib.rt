// The AMF packet: read and written whole, and cut into its entries by their lengths, each of which is read by itself.
#![tactic(auto)]

pub mod entry;
pub mod head;
pub mod read;
pub mod row;
pub mod walk;
pub mod write;
