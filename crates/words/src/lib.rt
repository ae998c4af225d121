// What reading and writing both ask of bytes and words.
#![tactic(auto)]

ghost use Rattle.std.specs.Prelude.{◌≡◌};
ghost use Rattle.format.specs.Bytes.{finite, same};

// The eight exponent bits are not all ones.
pub fn is_finite(bits: u32) -> bool
    ensures { result ≡ finite bits }
{
    bits / 8388608 % 256 != 255
}

// So many bytes at the front are compared one by one.
const NEAR: usize = 16;

// Lengths first, then the last byte, where names that begin alike mostly differ, then the first bytes one by one, and only then all: over many equal bytes the
// library's comparison is the fastest, but it is a call.
#[inline(always)]
pub fn same_bytes(a: &[u8], b: &[u8]) -> bool
    ensures { result ≡ same a.now b.now }
{
    let n = a.len();
    if n != b.len() {
        return false;
    }
    if n != 0 && a[n - 1] != b[n - 1] {
        return false;
    }
    for i in 0..n.min(NEAR) {
        if a[i] != b[i] {
            return false;
        }
    }
    a == b
}
