// First pass over the chunks that are plain lists: the points of a PNTS and the names of a SRFS or TAGS are validated and counted. A body is lent as its
// chunk's bytes from the tag up to the body's end, so that it starts at 8. The answer is the count, or the first fault with its place; nothing is written.
#![tactic(auto)]

pub mod names;
pub mod points;
