// Items put into the output from a place on. Each function answers the place after what it put.
ghost use Rattle.std.specs.Prelude.{◌≡◌, true, map, ◌+◌, ◌≤◌, ◌<◌, ◌^◌, ltb, length};
ghost use Rattle.format.specs.Bytes.{all, sum, joined};
ghost use Rattle.format.specs.Canonical.{bytes, vx_bytes, string_bytes};
ghost use Rattle.format.specs.Written.{pieces};
ghost use Rattle.format.specs.Promises.{total};
ghost use Rattle.output.specs.Outputs.{Wrote};

use crate::each::{U4, Vx, put_each};
use format::FIRST_LONG_INDEX;

// Bytes as they are. One by one, so that the C library is asked for no more than memset.
pub fn put_bytes(out: &mut [u8], at: usize, part: &[u8]) -> usize
    requires { at + length part.now ≤ length out.old }
    ensures { Wrote out.old at part.now out.new result }
{
    for (i, byte) in part.iter().enumerate() {
        out[at + i] = *byte;
    }
    at + part.len()
}

// The low N bytes of a number, the high one first. Their count is known when it is compiled, so that they are copied at once.
pub fn put_number<const N: usize>(out: &mut [u8], at: usize, n: usize) -> usize
    requires { (N ≤ 8) × (at + N ≤ length out.old) }
    ensures { Wrote out.old at (bytes N n) out.new result }
{
    let all = n.to_be_bytes();
    out[at..at + N].copy_from_slice(&all[8 - N..]);
    at + N
}

// The low two bytes of a number, the high one first.
pub fn put_u2(out: &mut [u8], at: usize, n: u32) -> usize
    requires { at + 2 ≤ length out.old }
    ensures { Wrote out.old at (bytes 2 n) out.new result }
{
    put_number::<2>(out, at, n as usize)
}

// Four bytes, the high one first.
pub fn put_u4(out: &mut [u8], at: usize, n: u32) -> usize
    requires { at + 4 ≤ length out.old }
    ensures { Wrote out.old at (bytes 4 n) out.new result }
{
    put_number::<4>(out, at, n as usize)
}

// The shortest VX. An index has 24 bits.
pub fn put_vx(out: &mut [u8], at: usize, n: u32) -> usize
    requires { (n < 2 ^ 24) × (at + length (vx_bytes n) ≤ length out.old) }
    ensures { Wrote out.old at (vx_bytes n) out.new result }
{
    if n < FIRST_LONG_INDEX {
        put_u2(out, at, n)
    } else {
        put_u4(out, at, 0xFF00_0000 + n)
    }
}

// Four bytes a word: the coordinates of points, and levels.
pub fn put_words(out: &mut [u8], at: usize, words: &[u32]) -> usize
    requires { at + total (bytes 4) words.now ≤ length out.old }
    ensures { Wrote out.old at (joined (map (bytes 4) words.now)) out.new result }
{
    put_each::<U4>(out, at, words)
}

// The vertices of a polygon, a VX each.
pub fn put_vertices(out: &mut [u8], at: usize, vertices: &[u32]) -> usize
    requires { (all (λ v. ltb v (2 ^ 24)) vertices.now ≡ true) × (at + total vx_bytes vertices.now ≤ length out.old) }
    ensures { Wrote out.old at (joined (map vx_bytes vertices.now)) out.new result }
{
    put_each::<Vx>(out, at, vertices)
}

// A name and its one or two zeros.
pub fn put_string(out: &mut [u8], at: usize, name: &[u8]) -> usize
    requires { at + length (string_bytes name.now) ≤ length out.old }
    ensures { Wrote out.old at (string_bytes name.now) out.new result }
{
    let zeros = [0, 0];
    let count = 2 - name.len() % 2;
    let next = put_bytes(out, at, name);
    put_bytes(out, next, &zeros[..count])
}

// The names of a TAGS chunk.
// The lengths and the joined bytes are two of the caller's tables. A pair of them would be taken apart in each contract, so they stay side by side.
pub fn put_strings(out: &mut [u8], at: usize, lengths: &[u32], bytes: &[u8]) -> usize
    requires { (sum lengths.now ≡ length bytes.now) × (at + total string_bytes (pieces lengths.now bytes.now) ≤ length out.old) }
    ensures { Wrote out.old at (joined (map string_bytes (pieces lengths.now bytes.now))) out.new result }
{
    let mut next = at;
    let mut from = 0;
    for length in lengths {
        let end = from + *length as usize;
        next = put_string(out, next, &bytes[from..end]);
        from = end;
    }
    next
}
