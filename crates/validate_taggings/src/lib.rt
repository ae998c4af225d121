// First pass over a PTAG chunk: its pairs of a polygon and a tag are validated. The body is lent as its chunk's bytes from the tag up to the body's end, so
// that it starts at 8. The answer is that it is fine, or the first fault with its place; nothing is written.
#![tactic(auto)]

pub mod tagging;
