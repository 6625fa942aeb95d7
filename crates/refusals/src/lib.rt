// Document 01, "What is sent back": its numbers and its codes, by name.

#![tactic(auto)]

pub mod codes; // what a frame is refused by
pub mod numbers; // what a call is refused by
