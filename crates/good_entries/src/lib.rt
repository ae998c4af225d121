// Whether the entries of each lent table are those of a mesh: floats, names, polygons with their vertices, and records. Nothing is changed.
#![tactic(auto)]

pub mod floats;
pub mod names;
pub mod polygons;
pub mod records;
