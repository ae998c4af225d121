// The input of the listing program: bytes read from a reader into a lent buffer. Nothing but the buffer and the reader is touched. The library's `read_exact`
// does not tell a read that fails from the end of the input, nor how many bytes there were before that end.
#![tactic(auto)]

ghost use Rattle.std.specs.Io.{ReadsAtMost};
ghost use Rattle.listing_input.specs.Input.{InputEnds};

use std::io;
use std::io::Read;

// Reads until the buffer is full or the input ends, and tells how many bytes were read. What the buffer holds is the front of what the reader had left, and all of
// it where the buffer is not full.
pub fn read_input<R: Read>(reader: &mut R, buffer: &mut [u8]) -> io::Result<usize>
    ensures counts { ReadsAtMost result buffer.new }
    ensures taken { InputEnds (R.remaining reader.old) (R.remaining reader.new) buffer.new result }
{
    let mut held = 0;
    // A read gives as many bytes as it likes, so the place is moved on by hand.
    while held < buffer.len() {
        let more = reader.read(&mut buffer[held..])?;
        if more == 0 {
            return Ok(held);
        }
        held += more;
    }
    Ok(held)
}
