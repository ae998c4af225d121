// Second pass over the polygons of a file that was validated: each POLS and PCHS is put by the points and names before it, and the tags of each PTAG over the
// latest POLS. The polygons stand at the front of the tables of polygons and of vertices, and the rest of both is unchanged.
#![tactic(auto)]

pub mod polygons;
