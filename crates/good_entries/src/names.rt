// The names: a length each, and their bytes joined.
ghost use Rattle.std.specs.Prelude.{◌≡◌, [], ◌≤◌, length};
ghost use Rattle.format.specs.Bytes.{amongst, sum};
ghost use Rattle.format.specs.Written.{pieces, good_names};
ghost use Rattle.good_entries.specs.Entries.{own_name, good_name};

use words::same_bytes;

// The most bytes of a name.
const LONGEST: usize = 255;

// Whether a name is good by itself, whatever the others are: it has at most 255 bytes, and none is zero, which would end it where it is written.
pub fn own_name(name: &[u8]) -> bool
    ensures { result ≡ own_name name.now }
{
    name.len() <= LONGEST && name.iter().all(|byte| *byte != 0)
}

// Whether a name is one of those that the lengths cut the bytes into. Bytes after these names are not looked at.
// The lengths and the joined bytes are two of the caller's tables. A pair of them would be taken apart in each contract, so they stay side by side.
pub fn among(name: &[u8], lengths: &[u32], bytes: &[u8]) -> bool
    requires { sum lengths.now ≤ length bytes.now }
    ensures { result ≡ amongst name.now (pieces lengths.now bytes.now) }
{
    let mut at = 0;
    for length in lengths {
        let end = at + *length as usize;
        if same_bytes(name, &bytes[at..end]) {
            return true;
        }
        at = end;
    }
    false
}

// Whether a name may stand after earlier ones. One that is not good by itself need not be compared.
fn good_name(name: &[u8], lengths: &[u32], bytes: &[u8]) -> bool
    requires { sum lengths.now ≤ length bytes.now }
    ensures { result ≡ good_name (pieces lengths.now bytes.now) name.now }
{
    own_name(name) && !among(name, lengths, bytes)
}

// Each name is compared with those before it, which the front of the lengths cuts from the same bytes.
pub fn good_names(lengths: &[u32], bytes: &[u8]) -> bool
    requires { sum lengths.now ≡ length bytes.now }
    ensures { result ≡ good_names [] (pieces lengths.now bytes.now) }
{
    let mut at = 0;
    for (i, length) in lengths.iter().enumerate() {
        let end = at + *length as usize;
        if !good_name(&bytes[at..end], &lengths[..i], bytes) {
            return false;
        }
        at = end;
    }
    true
}
