// What a program that shows files prints by: a page that is written out where it is full, and onto it texts, numbers and dates as people read them.
#![tactic(auto)]

mod big;
pub mod date;
pub mod double;
pub mod escape;
pub mod input;
pub mod page;
