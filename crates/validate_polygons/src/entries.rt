// The polygons of a body, counted one after another. The three chunks that hold polygons differ in how an entry is laid out, and in nothing else.
ghost use Rattle.format.specs.Promises.{Keeps, JudgedAt};
ghost use Rattle.polygon_layouts.specs.Layouts.{Layout, entry_of, entries_of};
ghost use Rattle.wire.specs.Promises.{verdict_as};
ghost use Rattle.validate_polygons.specs.Promises.{entry_sizes, entry_bytes, entry_as, sizes_of};

use wire::Refusal;
use wire::cursor::Cursor;

// One polygon: how many vertices it has, and how many details go with it.
#[derive(Clone, Copy, Debug, PartialEq, Eq)]
pub struct Entry {
    pub vertices: usize,
    pub details: usize,
    pub next: Cursor,
}

// What a body of polygons adds to the needs and the detail count.
#[derive(Clone, Copy, Debug, PartialEq, Eq)]
pub struct Sizes {
    pub polygons: usize,
    pub vertices: usize,
    pub details: usize,
}

// A layout whose entries are validated, so that there is one loop for all of them.
pub trait Validated {
    ghost layout: { Self → Layout };

    // How many points there are and how many names stay two numbers: a vertex is judged by the one alone, a surface number by the other.
    fn entry(&self, s: &[u8], c: Cursor, points: usize, names: usize) -> Result<Entry, Refusal>
        ensures { Keeps (entry_of (layout self.now) points names) (entry_sizes (layout self.now)) entry_bytes s.now c.at (entry_as s.now result) };
}

// The entries from a place up to the body's end. The sums fit, since each vertex and each detail takes a byte at least.
pub fn entries<L: Validated>(
    s: &[u8],
    from: Cursor,
    layout: &L,
    points: usize,
    names: usize,
) -> Result<Sizes, Refusal>
    ensures { JudgedAt 0 from.at (entries_of (L.layout layout.now) points names) sizes_of s.now (verdict_as result) }
{
    let mut at = from.at;
    let mut polygons = 0;
    let mut vertices = 0;
    let mut details = 0;
    // An entry's length is its own, so the place is moved on by hand.
    while at < s.len() {
        let entry = layout.entry(s, Cursor { at }, points, names)?;
        polygons += 1;
        vertices += entry.vertices;
        details += entry.details;
        at = entry.next.at;
    }
    Ok(Sizes {
        polygons,
        vertices,
        details,
    })
}
