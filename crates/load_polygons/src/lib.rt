// Second pass over the chunks that hold polygons: the faces of an LWOB POLS, the patches of a PCHS and the polygons of an LWO2 POLS are put into the tables of
// polygons and of vertices. The body was validated before. These words stand in a table from an index on, and the rest of it is unchanged.
#![tactic(auto)]

pub mod entries;
pub mod faces;
pub mod patches;
pub mod polygons;

// The kinds that the table of polygons has for faces and patches: numbers and no enum, as the words in the table, which the C interface hands out.
const FACE: u32 = 1;

const PATCH: u32 = 2;
