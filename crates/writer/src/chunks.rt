// TAGS and PNTS put into the output, each left out where it would be empty.
ghost use Rattle.std.specs.Prelude.{◌≡◌, ◌+◌, ◌≤◌, length};
ghost use Rattle.format.specs.Bytes.{sum};
ghost use Rattle.format.specs.Canonical.{bytes, string_bytes, unless_empty};
ghost use Rattle.format.specs.Written.{pieces};
ghost use Rattle.output.specs.Outputs.{Wrote, chunks_bytes};

use format::tags::{PNTS, TAGS};
use output::heads::close_chunk;
use output::items::{put_strings, put_words};

// TAGS is left out where there are no names.
// The lengths and the joined bytes are two of the caller's tables. A pair of them would be taken apart in each contract, so they stay side by side.
pub fn put_names_chunk(out: &mut [u8], at: usize, names: &[u32], name_bytes: &[u8]) -> usize
    requires { (sum names.now ≡ length name_bytes.now) × (at + length (chunks_bytes (unless_empty "TAGS" "" string_bytes (pieces names.now name_bytes.now))) ≤ length out.old) }
    ensures { Wrote out.old at (chunks_bytes (unless_empty "TAGS" "" string_bytes (pieces names.now name_bytes.now))) out.new result }
{
    if names.len() == 0 {
        return at;
    }
    let end = put_strings(out, at + 8, names, name_bytes);
    close_chunk(out, at, TAGS, end)
}

// PNTS is left out where there are no points. Points are three words each, so their bytes are those of all words.
// One function for this and `put_names_chunk` would take the tag, the test and the body's writer, of which each has its own promise, and be no plainer.
pub fn put_points_chunk(out: &mut [u8], at: usize, points: &[u32]) -> usize
    requires { at + length (chunks_bytes (unless_empty "PNTS" "" (bytes 4) points.now)) ≤ length out.old }
    ensures { Wrote out.old at (chunks_bytes (unless_empty "PNTS" "" (bytes 4) points.now)) out.new result }
{
    if points.len() == 0 {
        return at;
    }
    let end = put_words(out, at + 8, points);
    close_chunk(out, at, PNTS, end)
}
