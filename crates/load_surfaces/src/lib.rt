// Second pass over the SURF chunks of a file that was validated: the record of each is stored at its name. The names stand in their tables already, and only
// the records of these names are changed, at the front of their table.
#![tactic(auto)]

pub mod records;
