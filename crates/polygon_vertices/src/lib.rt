// What polygons start with, validated: a count and vertices, and in an LWOB file a surface number after them. The first pass counts them, and the details that
// both passes read start with them too. The slice and a cursor come in, and the count with the moved cursor goes out, or the first fault with its place;
// nothing is written.
#![tactic(auto)]

pub mod lwob_entry;
pub mod vertices;
