// The polygons table: an entry is four words, the kind, the vertex count, the surface number and the part name.
// Code that walks the table sees each polygon by `polygon_at`: which word is what is known here, and beside it by the code that puts the words.
ghost use Rattle.std.specs.Prelude.{◌≡◌, ◌+◌, ◌*◌, ◌≤◌, ◌<◌, ◌^◌, length};
ghost use Rattle.format.specs.Bytes.{sum};
ghost use Rattle.format.specs.Limits.{entry_limit};
ghost use Rattle.format.specs.Mesh.{word, polygon_size};
ghost use Rattle.format.specs.Written.{vertex_counts};
ghost use Rattle.mesh.specs.Lent.{entry_at};
ghost use Rattle.mesh.specs.Polygons.{polygon_at, run_end};

use crate::columns::sum_of;
use format::{PART_WORD, POLYGON_WORDS, SURFACE_WORD};

// One polygon of the tables: its kind, its surface number, its part name, and the places where its vertices begin and end.
// The kind is a number and no enum, as the word in the table, which the C interface hands out.
#[derive(Clone, Copy, Debug, PartialEq, Eq)]
pub struct Polygon {
    pub kind: u32,
    pub surface: u32,
    pub part_name: u32,
    pub first: usize,
    pub end: usize,
}

// The polygon whose entry the words begin with. Its vertices begin where those of the polygon before it end, which the caller knows.
pub fn polygon_at(entry: &[u32], first: usize) -> Polygon
    requires { (polygon_size ≤ length entry.now) × (first + word 1 (entry_at polygon_size 0 entry.now) < 2 ^ 64) }
    ensures { result ≡ polygon_at entry.now 0 first }
{
    Polygon {
        kind: entry[0],
        surface: entry[SURFACE_WORD],
        part_name: entry[PART_WORD],
        first,
        end: first + entry[1] as usize,
    }
}

// The kind of the first polygon, for the runs.
pub fn kind(polygons: &[u32]) -> u32
    requires { polygon_size ≤ length polygons.now }
    ensures { result ≡ word 0 (entry_at polygon_size 0 polygons.now) }
{
    polygons[0]
}

// How many vertices the polygons have together.
pub fn vertex_count(polygons: &[u32]) -> usize
    requires { length polygons.now ≤ polygon_size * entry_limit }
    ensures { result ≡ sum (vertex_counts polygons.now) }
{
    sum_of(polygons, POLYGON_WORDS, 1)
}

// The place after the run that begins at a place: the polygons from there on that have the kind of the first.
pub fn run_end(polygons: &[u32], at: usize) -> usize
    requires { at + polygon_size ≤ length polygons.now }
    ensures { (result ≡ run_end polygons.now at) × (result ≤ length polygons.now) }
{
    let first = kind(&polygons[at..]);
    let mut end = at + POLYGON_WORDS;
    for entry in polygons[end..].chunks_exact(POLYGON_WORDS) {
        if first != kind(entry) {
            return end;
        }
        end += POLYGON_WORDS;
    }
    end
}
