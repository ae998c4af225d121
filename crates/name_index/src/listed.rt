// Names as the tables hold them: a length each, and their bytes joined.
ghost use Rattle.std.specs.Prelude.{◌≡◌, ◌<◌, ◌^◌};
ghost use Rattle.format.specs.Bytes.{sum};
ghost use Rattle.name_index.specs.NameIndex.{IsEmptyIndex};
ghost use Rattle.name_index.specs.Listed.{ShortNames, AllHeld};

use crate::NameIndex;

// How many bytes the names have.
pub fn total(lengths: &[u32]) -> usize
    requires { sum lengths.now < 2 ^ 64 }
    ensures { result ≡ sum lengths.now }
{
    lengths.iter().map(|n| *n as usize).sum()
}

// Takes all the names into an empty index.
pub fn hold(lengths: &[u32], index: &mut NameIndex)
    requires short_names { ShortNames lengths.now index.old.bytes.now }
    requires none_yet { IsEmptyIndex index.old.bytes.now 0 index.old.multiplier index.old }
    ensures { AllHeld index.old.multiplier lengths.now index.old.bytes.now index.new }
{
    let mut at = 0;
    for n in lengths {
        let n = *n as usize;
        index.add(at, n);
        at += n;
    }
}
