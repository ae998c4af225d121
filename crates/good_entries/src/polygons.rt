// The polygons: their kinds, vertices, surfaces and part names.
ghost use Rattle.std.specs.Prelude.{◌≡◌, ltb, length};
ghost use Rattle.format.specs.Bytes.{all, sum};
ghost use Rattle.format.specs.Written.{good_tag, good_polygon, vertex_counts};
ghost use Rattle.mesh.specs.Lent.{mesh_polygons};
ghost use Rattle.good_entries.specs.Entries.{good_entry};

use format::POLYGON_WORDS;
use mesh::polygons::polygon_at;

// Every vertex is the number of a point. A loop without an exit is several tests at a time to the processor.
fn all_below(vertices: &[u32], points: usize) -> bool
    ensures { result ≡ all (λ v. ltb v points) vertices.now }
{
    let mut below = true;
    for vertex in vertices {
        below = below & ((*vertex as usize) < points);
    }
    below
}

// A surface number or a part name: 0, or that of a name which a tag of two bytes can reach.
fn good_tag(number: u32, names: usize) -> bool
    ensures { result ≡ good_tag names number }
{
    (number as usize <= names) & (number <= 65536)
}

// The words of an entry: its kind, its vertex count, its surface number and its part name.
// They are the caller's numbers, which are not known to be a kind or a tag before they are judged here.
fn good_entry(kind: u32, count: usize, surface: u32, part_name: u32, names: usize) -> bool
    ensures { result ≡ good_entry names kind count surface part_name }
{
    ((1 <= kind) & (kind <= 2))
        & ((1 <= count) & (count <= 1023))
        & good_tag(surface, names)
        & good_tag(part_name, names)
}

// All vertices are tested at once, before the entries, since a test of a few at a time costs more.
// The two tables are the caller's, and the two numbers are judged apart: a vertex by how many points there are, a tag by how many names.
pub fn good_polygons(polygons: &[u32], vertices: &[u32], points: usize, names: usize) -> bool
    requires { sum (vertex_counts polygons.now) ≡ length vertices.now }
    ensures { result ≡ all (good_polygon points names) (mesh_polygons polygons.now vertices.now) }
{
    if !all_below(vertices, points) {
        return false;
    }
    let mut first = 0;
    for entry in polygons.chunks_exact(POLYGON_WORDS) {
        let p = polygon_at(entry, first);
        if !good_entry(p.kind, p.end - first, p.surface, p.part_name, names) {
            return false;
        }
        first = p.end;
    }
    true
}
