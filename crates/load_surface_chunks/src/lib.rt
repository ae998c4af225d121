// Second pass over the SURF chunks of a file that was validated, for some of its names: the record of each SURF is stored at its name, where that is one of
// these. Only the records of these names are changed, at the front of the lent table.
#![tactic(auto)]

pub mod chunks;
pub mod named;
