// An image and its text are handed on as two slices: a struct of both was tried, and its contracts say `tree.entry.image.now` where these say `image.now`.
#![tactic(auto)]

pub mod find;
pub mod make;
pub mod mark;
pub mod order;
pub mod sort;
pub mod walk;
