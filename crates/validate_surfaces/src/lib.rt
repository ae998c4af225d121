// The first pass over the body of a SURF: whether it is fine, and else the first fault and its place. A lent chunk is read and nothing is changed.
#![tactic(auto)]

pub mod body;
pub mod nesting;
