// The bytes of a file as the specification's items. A chunk is lent as its bytes from its tag on, and a cursor is a place in them.
#![tactic(auto)]

use crate::cursor::Cursor;
use format::Fault;

pub mod cursor;
pub mod index;

// The first fault, and the place of the header, item or string at fault, counted from the chunk's tag.
#[derive(Clone, Copy, Debug, PartialEq, Eq)]
pub struct Refusal {
    pub why: Fault,
    pub at: usize,
}

// What is kept of an item or of entries, and the cursor after them.
pub type Read<T> = Result<(T, Cursor), Refusal>;
