// Bytes put into a lent output from a place on: items, and the heads and pads of chunks. Each function answers the place after what it put.
// The output and the place are two parameters: of a struct that holds the `&mut` slice, each contract would have to say that it still holds the same one.
#![tactic(auto)]

pub mod each;
pub mod heads;
pub mod items;
