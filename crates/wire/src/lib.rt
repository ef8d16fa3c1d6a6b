// What every layer above stands on: the answers and the limits, the cursor and its fields, UTF-8, and the text of a place and length.
#![tactic(auto)]

pub mod answer;
pub mod bytes;
pub mod cursor;
pub mod limit;
pub mod number;
pub mod text;
pub mod utf8;
