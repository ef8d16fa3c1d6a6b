// Why an input was refused, and where, as lines for people: the field that was due at the place, found by a walk over the bytes before it, the way to it, and the
// bytes there.
#![tactic(auto)]

mod cause;
mod due;
pub mod fault;
pub mod field;
mod hex;
pub mod refusal;
mod way;
