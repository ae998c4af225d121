// First pass over one chunk: by its tag, by the file's kind and by the lists before it, its body is validated, and what it adds to the counts is told. A chunk
// is lent as its bytes from the tag up to the body's end. The answer is the counts, or the first fault with its place; nothing is written.
#![tactic(auto)]

pub mod chunk;
pub mod lengths;
