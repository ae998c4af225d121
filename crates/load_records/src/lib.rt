// The second pass over the body of a SURF that was judged fine: the record that its last values make, and records put into the lent table. Of the table only the
// words of the entry that is put are changed.
#![tactic(auto)]

pub mod record;
pub mod table;
