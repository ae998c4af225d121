// The details that follow a face of an LWOB file: polygons that lie on it. They are validated and counted, and not kept, so that the second pass, too, reads
// them here for the place after them. The slice and a cursor come in, and the count with the moved cursor goes out, or the first fault with its place;
// nothing is written.
#![tactic(auto)]

pub mod details;
