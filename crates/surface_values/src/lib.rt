// What both passes read of a SURF: the strings that its body starts with, and the value of a sub-chunk in either kind of file. A lent chunk is read and
// nothing is changed.
#![tactic(auto)]

pub mod strings;
pub mod value;
