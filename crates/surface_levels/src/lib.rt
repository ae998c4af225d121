// The levels of a surface, in every kind of file: which tag names which, levels as floats, and the value that a sub-chunk gives with them. Everything is by
// value: a lent sub-chunk is read and nothing is changed.
#![tactic(auto)]

pub mod level;
pub mod shading;
pub mod sub_chunk;
pub mod value;
