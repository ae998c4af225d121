// The words of a polygon into the table of polygons.
ghost use Rattle.std.specs.Prelude.{◌+◌, ◌≤◌, [], ◌∷◌, length};
ghost use Rattle.format.specs.Mesh.{polygon_size};
ghost use Rattle.format.specs.Promises.{Put};

use format::POLYGON_WORDS;

// The words of a polygon into the table from the index i on. A polygon has its part name from a PTAG alone, so that it is 0 here.
pub fn put_polygon_words(table: &mut [u32], i: usize, kind: u32, count: u32, surface: u32)
    requires { i + polygon_size ≤ length table.old }
    ensures { Put table.old i (kind ∷ count ∷ surface ∷ 0 ∷ []) table.new }
{
    table[i..i + POLYGON_WORDS].copy_from_slice(&[kind, count, surface, 0]);
}
