// Second pass over a PTAG chunk: its tags are put into the table of polygons, over the surface numbers or the part names of the latest POLS. The body was
// validated before, and the rest of the table is unchanged.
#![tactic(auto)]

pub mod tagging;
