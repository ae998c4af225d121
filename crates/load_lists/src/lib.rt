// Second pass over the chunks that are plain lists: the points of a PNTS, and the names of a SRFS or TAGS, are put into the tables of points, of name lengths
// and of name bytes, one body at a time and over a whole file. The file was validated before. These words stand in a table from an index on, and the rest of
// it is unchanged.
#![tactic(auto)]

pub mod names;
pub mod points;
