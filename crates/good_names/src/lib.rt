// Whether the names of a lent table are those of a mesh: a length each, and their bytes joined. No two may be equal, and a table has room for more names than
// can be kept at hand.
#![tactic(auto)]

ghost use Rattle.std.specs.Prelude.{◌≡◌, [], length};
ghost use Rattle.format.specs.Bytes.{all, sum};
ghost use Rattle.format.specs.Written.{pieces, good_names};
ghost use Rattle.good_entries.specs.Entries.{own_name};
ghost use Rattle.name_index.specs.Index.{all_new};
ghost use Rattle.good_names.specs.Repeats.{OwnNamesFrom, Passed};

use good_entries::names::{self, own_name};
use name_index::{FEW, NameIndex, multiplier_of, next_multiplier};

// Whether each name is good by itself.
// The lengths and the joined bytes are two of the caller's tables. A pair of them would be taken apart in each contract, so they stay side by side.
fn own_names(lengths: &[u32], bytes: &[u8]) -> bool
    requires { sum lengths.now ≡ length bytes.now }
    ensures { result ≡ all own_name (pieces lengths.now bytes.now) }
{
    let mut at = 0;
    for n in lengths {
        let end = at + *n as usize;
        if !own_name(&bytes[at..end]) {
            return false;
        }
        at = end;
    }
    true
}

// Takes a block of names from number `from` on, which stands at the place `base`, and looks each name up amongst those of the block that stand before it. The
// first name after the block and its place, or none where a name was equal to one at hand.
fn pass(
    lengths: &[u32],
    bytes: &[u8],
    from: usize,
    base: usize,
    multiplier: u32,
) -> Option<(usize, usize)>
    requires { OwnNamesFrom lengths.now bytes.now from base }
    ensures { Passed lengths.now bytes.now from base result }
{
    let mut block = NameIndex::new(bytes, base, multiplier);
    let mut at = base;
    let mut next = from;
    let mut place = base;
    // The index is a name's number, by which the block is known to go on there.
    for i in from..lengths.len() {
        let n = lengths[i] as usize;
        let end = at + n;
        if block.find(&bytes[at..end]).is_some() {
            return None;
        }
        if (next == i) & !block.is_full() {
            block.add(at, n);
            next = i + 1;
            place = end;
        }
        at = end;
    }
    Some((next, place))
}

// Whether no name is equal to an earlier one. The table is passed over once for each block of its names.
fn all_new(lengths: &[u32], bytes: &[u8]) -> bool
    requires { OwnNamesFrom lengths.now bytes.now 0 0 }
    ensures { result ≡ all_new [] (pieces lengths.now bytes.now) }
{
    let mut multiplier = multiplier_of(bytes);
    let mut from = 0;
    let mut base = 0;
    // A block holds as many names as there is room for, so its first name and its place are moved on by hand.
    'each_block: while from < lengths.len() {
        let Some((next, place)) = pass(lengths, bytes, from, base, multiplier) else {
            return false;
        };
        from = next;
        base = place;
        multiplier = next_multiplier(multiplier);
    }
    true
}

// An index of few names costs more than it saves: they are compared each with those before it, which with many names would take hours. An index holds no name
// of more than 255 bytes, so that each name is first tested by itself.
pub fn good_names(lengths: &[u32], bytes: &[u8]) -> bool
    requires { sum lengths.now ≡ length bytes.now }
    ensures { result ≡ good_names [] (pieces lengths.now bytes.now) }
{
    if lengths.len() <= FEW {
        return names::good_names(lengths, bytes);
    }
    own_names(lengths, bytes) && all_new(lengths, bytes)
}
