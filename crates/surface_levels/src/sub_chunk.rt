// A sub-chunk of a SURF, lent with its header: the header stands at `head` in the bytes, and the body goes from six bytes on to their end.
ghost use Rattle.std.specs.Prelude.{◌≡◌, ◌+◌, ◌≤◌, length};
ghost use Rattle.surface_levels.specs.Promises.{FixedAt};

use format::Fault;
use wire::Refusal;
use wire::cursor::{Cursor, left};

// A place in a chunk's bytes, which end where the sub-chunk ends. A header stands before each body, so that the body starts inside them or at their end.
#[derive(Clone, Copy, Debug)]
pub struct SubChunk<'a> {
    pub bytes: &'a [u8],
    pub head: usize,
    pub ghost body_starts_inside: { head + 6 ≤ length bytes.now },
}

impl<'a> SubChunk<'a> {
    // The cursor at the start of the body.
    pub fn body(self) -> Cursor
        ensures { result.at ≡ self.entry.head + 6 }
    {
        Cursor { at: self.head + 6 }
    }

    // Whether the body has n bytes. It is judged before anything is read, and a wrong length is told at the header.
    pub fn fixed_length(self, n: usize) -> Result<(), Refusal>
        ensures { FixedAt n self.entry.bytes.now self.entry.head result }
    {
        if left(self.bytes, self.head + 6) == n {
            Ok(())
        } else {
            Err(Refusal {
                why: Fault::WrongLength,
                at: self.head,
            })
        }
    }
}
