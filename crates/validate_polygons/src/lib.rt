// First pass over the chunks that hold polygons: the faces of an LWOB POLS, the patches of a PCHS and the polygons of an LWO2 POLS are validated and counted. A
// body is lent as its chunk's bytes from the tag up to the body's end, so that it starts at 8. The answer is the counts, or the first fault with its place;
// nothing is written.
#![tactic(auto)]

pub mod entries;
pub mod faces;
pub mod patches;
pub mod polygons;
