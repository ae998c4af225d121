// An item for each word of a list: how many bytes a word takes is known by the type of the item.
ghost use Rattle.std.specs.Prelude.{◌≡◌, true, Bool, List, ℕ, map, ◌+◌, ◌≤◌, ◌^◌, ltb, length};
ghost use Rattle.format.specs.Bytes.{all, joined};
ghost use Rattle.format.specs.Canonical.{bytes, vx_bytes};
ghost use Rattle.format.specs.Promises.{total};
ghost use Rattle.output.specs.Outputs.{Wrote};

use crate::items::{put_u4, put_vx};

// What puts a word. Not every word need be one that the item can hold.
pub trait Item {
    ghost holds: { ℕ → Bool };

    ghost item: { ℕ → List ℕ };

    fn put(out: &mut [u8], at: usize, word: u32) -> usize
        requires { (holds word ≡ true) × (at + length (item word) ≤ length out.old) }
        ensures { Wrote out.old at (item word) out.new result };
}

// Four bytes.
#[derive(Clone, Copy, Debug, PartialEq, Eq)]
pub struct U4;

// The shortest VX, of a number of 24 bits.
#[derive(Clone, Copy, Debug, PartialEq, Eq)]
pub struct Vx;

impl Item for U4 {
    ghost holds = { λ word. true };

    ghost item = { bytes 4 };

    fn put(out: &mut [u8], at: usize, word: u32) -> usize {
        put_u4(out, at, word)
    }
}

impl Item for Vx {
    ghost holds = { λ word. ltb word (2 ^ 24) };

    ghost item = { vx_bytes };

    fn put(out: &mut [u8], at: usize, word: u32) -> usize {
        put_vx(out, at, word)
    }
}

// The items one after another.
pub fn put_each<I: Item>(out: &mut [u8], at: usize, words: &[u32]) -> usize
    requires { (all I.holds words.now ≡ true) × (at + total I.item words.now ≤ length out.old) }
    ensures { Wrote out.old at (joined (map I.item words.now)) out.new result }
{
    let mut next = at;
    for word in words {
        next = I::put(out, next, *word);
    }
    next
}
