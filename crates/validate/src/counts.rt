// What the first pass keeps of the chunks that it has judged.
ghost use Rattle.std.specs.Prelude.{◌≡◌, ◌+◌, ◌<◌, ◌^◌};
ghost use Rattle.validate.specs.Promises.{lengths_after, totals_with, seen_with, all_of, weight};

use validate_chunk::chunk::Counted;
use validate_chunk::lengths::Lengths;

// The needs of the mesh, the skipped chunks and the details.
#[derive(Clone, Copy, Debug, Default, PartialEq, Eq)]
pub struct Totals {
    pub points: usize,
    pub polygons: usize,
    pub vertices: usize,
    pub names: usize,
    pub name_bytes: usize,
    pub skipped: usize,
    pub details: usize,
}

#[derive(Clone, Copy, Debug, Default, PartialEq, Eq)]
pub struct Seen {
    pub lengths: Lengths,
    pub totals: Totals,
}

impl Totals {
    // The sums with what one chunk adds. They cannot wrap, since a chunk adds no more than it has bytes.
    pub fn with(mut self, part: Counted) -> Self
        requires { all_of self + weight part < 2 ^ 64 }
        ensures { result ≡ totals_with self part }
    {
        match part {
            Counted::Points(n) => self.points += n,
            Counted::Names(z) => {
                self.names += z.count;
                self.name_bytes += z.bytes;
            }
            Counted::Polygons(z) => {
                self.polygons += z.polygons;
                self.vertices += z.vertices;
                self.details += z.details;
            }
            Counted::Layer => (),
            Counted::Nothing => (),
            Counted::Skipped => self.skipped += 1,
        }
        self
    }
}

// A new list takes the place of the latest one. A layer empties both, and the names are the file's.
pub fn lengths_after(mut lengths: Lengths, part: Counted) -> Lengths
    ensures { result ≡ lengths_after lengths part }
{
    match part {
        Counted::Points(n) => lengths.points = Some(n),
        Counted::Names(z) => lengths.names = Some(z.count),
        Counted::Polygons(z) => lengths.polygons = Some(z.polygons),
        Counted::Layer => {
            lengths.points = None;
            lengths.polygons = None;
        }
        Counted::Nothing => (),
        Counted::Skipped => (),
    }
    lengths
}

// Before the first chunk no list is there, and nothing is counted: that is the default.
impl Seen {
    // The lists and the sums after one chunk more.
    pub fn with(self, part: Counted) -> Self
        requires { all_of self.totals + weight part < 2 ^ 64 }
        ensures { result ≡ seen_with self part }
    {
        Self {
            lengths: lengths_after(self.lengths, part),
            totals: self.totals.with(part),
        }
    }
}
