// The items of a body, read at a place. A cursor may stand anywhere: beyond the end there is nothing to read.
ghost use Rattle.std.specs.Prelude.{◌≡◌, ◌==◌, position, ◌+◌, ◌-◌, ◌≤◌, ◌<◌, ◌^◌, length, get_or, take, drop};
ghost use Rattle.format.specs.Bytes.{signed, number};
ghost use Rattle.format.specs.Items.{uint, u2, u4, i2, long_form, vx, float};
ghost use Rattle.wire.specs.Promises.{signed_surface_of, AfterAt, SignedSurfaceAt, ItemAt, TextAt};

use crate::{Read, Refusal};
use format::{FIRST_LONG_INDEX, Fault};
use words::is_finite;

// A place alone. The slice is lent beside it and not held in it: else each contract and each loop would have to say once more that the cursor after an item
// stands in the same slice.
#[derive(Clone, Copy, Debug, PartialEq, Eq)]
pub struct Cursor {
    pub at: usize,
}

// A surface number of an LWOB file: its absolute value, and whether it was negative.
#[derive(Clone, Copy, Debug, PartialEq, Eq)]
pub struct SignedSurface {
    pub number: u32,
    pub negative: bool,
}

// How many bytes there are from a place on: none from a place beyond the end.
pub fn left(s: &[u8], at: usize) -> usize
    ensures { result ≡ length s.now - at }
{
    if at < s.len() { s.len() - at } else { 0 }
}

// The byte at a place, 0 beyond the end.
fn byte(s: &[u8], at: usize) -> u8
    ensures { result ≡ get_or s.now at 0 }
{
    if at < s.len() { s[at] } else { 0 }
}

// The number of the N bytes at a place, the high one first.
pub fn number_at<const N: usize>(s: &[u8], at: usize) -> u32
    requires { (N ≤ 4) × (at + N ≤ length s.now) }
    ensures is { result ≡ number (take N (drop at s.now)) }
    ensures fits { result < 256 ^ N }
{
    let mut n = 0;
    for i in 0..N {
        n = n * 256 + s[at + i] as u32;
    }
    n
}

// The number of four bytes.
pub fn word(s: &[u8], at: usize) -> u32
    requires { at + 4 ≤ length s.now }
    ensures { result ≡ number (take 4 (drop at s.now)) }
{
    number_at::<4>(s, at)
}

// The number of two bytes, in a type of their size.
pub fn pair(s: &[u8], at: usize) -> u16
    requires { at + 2 ≤ length s.now }
    ensures { result ≡ number (take 2 (drop at s.now)) }
{
    number_at::<2>(s, at) as u16
}

// The signed number that sixteen bits stand for.
fn signed16(n: u16) -> i16
    ensures { result ≡ signed n }
{
    if n < 32768 {
        n as i16
    } else {
        (n as i32 - 65536) as i16
    }
}

// The sign decides, and the number is negated only in the wider type: -32,768 stands for 32,768.
fn signed_surface(z: i16) -> SignedSurface
    ensures { result ≡ signed_surface_of z }
{
    let wide = z as i32;
    if wide < 0 {
        SignedSurface {
            number: -wide as u32,
            negative: true,
        }
    } else {
        SignedSurface {
            number: wide as u32,
            negative: false,
        }
    }
}

// The index of the first zero byte, by a look at one after the other.
fn zero_amongst(bytes: &[u8]) -> Option<usize>
    ensures { result ≡ position (λ b. b == 0) bytes.now }
{
    bytes.iter().position(|b| *b == 0)
}

// The same, four bytes a turn: with one, three instructions of five go to the step and to the test for the end. A list of names is gone through again for each of
// its names, and this is what takes the time there.
fn first_zero(bytes: &[u8]) -> Option<usize>
    ensures { result ≡ position (λ b. b == 0) bytes.now }
{
    let mut at = 0;
    while 4 <= bytes.len() - at {
        if let Some(i) = zero_amongst(&bytes[at..at + 4]) {
            return Some(at + i);
        }
        at += 4;
    }
    let i = zero_amongst(&bytes[at..])?;
    Some(at + i)
}

impl Cursor {
    // The cursor after n bytes, or that the item which they are is cut. The length is compared first, so that a loop over items does it once.
    fn after(self, s: &[u8], n: usize) -> Result<Self, Refusal>
        ensures { AfterAt n s.now self.at result }
    {
        let at = self.at;
        if s.len() < n || s.len() - n < at {
            return Err(Refusal {
                why: Fault::ItemCut,
                at,
            });
        }
        Ok(Self { at: at + n })
    }

    // A number of N bytes, the high one first.
    fn uint<const N: usize>(self, s: &[u8]) -> Read<u32>
        requires { (0 < N) × (N ≤ 4) }
        ensures { ItemAt (uint N) N s.now self.at result }
    {
        let next = self.after(s, N)?;
        Ok((number_at::<N>(s, self.at), next))
    }

    // Two bytes.
    pub fn u2(self, s: &[u8]) -> Read<u32>
        ensures { ItemAt u2 2 s.now self.at result }
    {
        self.uint::<2>(s)
    }

    // Four bytes: a type, or the bits of a float.
    pub fn u4(self, s: &[u8]) -> Read<u32>
        ensures { ItemAt u4 4 s.now self.at result }
    {
        self.uint::<4>(s)
    }

    // Two bytes as a signed number.
    pub fn i2(self, s: &[u8]) -> Read<i16>
        ensures { ItemAt i2 2 s.now self.at result }
    {
        let next = self.after(s, 2)?;
        Ok((signed16(pair(s, self.at)), next))
    }

    // An I2 that is a surface number.
    pub fn surface_number(self, s: &[u8]) -> Read<SignedSurface>
        ensures { SignedSurfaceAt s.now self.at result }
    {
        let (z, next) = self.i2(s)?;
        Ok((signed_surface(z), next))
    }

    // Four bytes, with the index in the low 24 bits. An index that two bytes hold is refused here.
    fn long_index(self, s: &[u8]) -> Read<u32>
        ensures { ItemAt long_form 4 s.now self.at result }
    {
        let at = self.at;
        let (n, next) = self.u4(s)?;
        let index = n % 16777216;
        if index < FIRST_LONG_INDEX {
            return Err(Refusal {
                why: Fault::LongIndex,
                at,
            });
        }
        Ok((index, next))
    }

    // Where the first byte is 255 there are four bytes, and two otherwise.
    pub fn vx(self, s: &[u8]) -> Read<u32>
        ensures { ItemAt vx 2 s.now self.at result }
    {
        if byte(s, self.at) == 255 {
            self.long_index(s)
        } else {
            self.u2(s)
        }
    }

    // A coordinate or a level. Only one that is not cut is judged.
    pub fn float(self, s: &[u8]) -> Read<u32>
        ensures { ItemAt float 4 s.now self.at result }
    {
        let at = self.at;
        let (bits, next) = self.u4(s)?;
        if is_finite(bits) {
            Ok((bits, next))
        } else {
            Err(Refusal {
                why: Fault::NotFinite,
                at,
            })
        }
    }

    // How long the name is that starts here. A name, its terminator, and one more zero where the two together are odd.
    pub fn string(self, s: &[u8]) -> Read<usize>
        ensures { TextAt s.now self.at result }
    {
        let at = self.at;
        let open = Refusal {
            why: Fault::StringOpen,
            at,
        };
        if s.len() < at {
            return Err(open);
        }
        let Some(n) = first_zero(&s[at..]) else {
            return Err(open);
        };
        let size = n + 2 - n % 2;
        if left(s, at) < size || s[at + size - 1] != 0 {
            return Err(open);
        }
        Ok((n, Cursor { at: at + size }))
    }
}
