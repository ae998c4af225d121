// The second pass over the sub-chunks of a SURF that was judged fine: the last value of each tag, by value. A lent chunk is read and nothing is changed.
#![tactic(auto)]

pub mod last_values;
