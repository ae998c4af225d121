// First pass over a LAYR chunk of an LWO2 file: its numbers, its pivot, its name and its parent are validated. The body is lent as its chunk's bytes from the
// tag up to the body's end, so that it starts at 8. The answer is that it is fine, or the first fault with its place; nothing is written.
#![tactic(auto)]

pub mod layer;
