// The head of a chunk and its pad put into the output: a chunk is a head, its body and its pad.
// A body is put before its head, so that its length is not counted before it is known.
ghost use Rattle.std.specs.Prelude.{◌+◌, ◌-◌, ◌%◌, ◌≤◌, length, take, drop, replicate};
ghost use Rattle.output.specs.Outputs.{Wrote, head_bytes, tagged_bytes};

use crate::items::{put_number, put_u4};

// A tag and the low N bytes of a body's length: no body within the limit has more.
fn put_tag<const N: usize>(out: &mut [u8], at: usize, tag: u32, n: usize) -> usize
    requires { (N ≤ 8) × (at + length (head_bytes N tag n) ≤ length out.old) }
    ensures { Wrote out.old at (head_bytes N tag n) out.new result }
{
    let next = put_u4(out, at, tag);
    put_number::<N>(out, next, n)
}

// A chunk has a length of four bytes.
pub fn put_head(out: &mut [u8], at: usize, tag: u32, n: usize) -> usize
    requires { at + length (head_bytes 4 tag n) ≤ length out.old }
    ensures { Wrote out.old at (head_bytes 4 tag n) out.new result }
{
    put_tag::<4>(out, at, tag, n)
}

// A sub-chunk has a length of two bytes.
pub fn put_sub_head(out: &mut [u8], at: usize, tag: u32, n: usize) -> usize
    requires { at + length (head_bytes 2 tag n) ≤ length out.old }
    ensures { Wrote out.old at (head_bytes 2 tag n) out.new result }
{
    put_tag::<2>(out, at, tag, n)
}

// A zero byte after a body whose length n is odd.
pub fn put_pad(out: &mut [u8], at: usize, n: usize) -> usize
    requires { at + n % 2 ≤ length out.old }
    ensures { Wrote out.old at (replicate (n % 2) 0) out.new result }
{
    if n % 2 == 0 {
        return at;
    }
    out[at] = 0;
    at + 1
}

// The head and the pad of a chunk whose body stands there already, from behind the place of the head up to `end`.
pub fn close_chunk(out: &mut [u8], at: usize, tag: u32, end: usize) -> usize
    requires { (at + 8 ≤ end) × (end + (end - (at + 8)) % 2 ≤ length out.old) }
    ensures { Wrote out.old at (tagged_bytes 4 tag (take (end - (at + 8)) (drop (at + 8) out.old))) out.new result }
{
    let n = end - (at + 8);
    put_head(out, at, tag, n);
    put_pad(out, end, n)
}
