// The entries of a POLS chunk put into the output.
ghost use Rattle.std.specs.Prelude.{◌≡◌, true, map, ◌+◌, ◌≤◌, ◌^◌, ltb, length};
ghost use Rattle.format.specs.Bytes.{all, joined};
ghost use Rattle.format.specs.Canonical.{polygon_bytes};
ghost use Rattle.mesh.specs.Lent.{mesh_polygons};
ghost use Rattle.output.specs.Outputs.{Wrote};
ghost use Rattle.write_runs.specs.Runs.{vertices_bytes, PolsRoom};

use format::POLYGON_WORDS;
use mesh::polygons::polygon_at;
use output::items::{put_number, put_vertices};

// A polygon: its vertex count, whose six high bits are 0 since it is below 1,024, and its vertices.
fn put_polygon(out: &mut [u8], at: usize, vertices: &[u32]) -> usize
    requires { (all (λ v. ltb v (2 ^ 24)) vertices.now ≡ true) × (at + length (vertices_bytes vertices.now) ≤ length out.old) }
    ensures { Wrote out.old at (vertices_bytes vertices.now) out.new result }
{
    let next = put_number::<2>(out, at, vertices.len());
    put_vertices(out, next, vertices)
}

// The polygons of a run. The vertices of each stand behind those of the one before it.
pub fn put_polygons(out: &mut [u8], at: usize, polygons: &[u32], vertices: &[u32]) -> usize
    requires { PolsRoom out.old at polygons.now vertices.now }
    ensures { Wrote out.old at (joined (map polygon_bytes (mesh_polygons polygons.now vertices.now))) out.new result }
{
    let mut next = at;
    let mut first = 0;
    for entry in polygons.chunks_exact(POLYGON_WORDS) {
        let p = polygon_at(entry, first);
        let end = p.end;
        next = put_polygon(out, next, &vertices[first..end]);
        first = end;
    }
    next
}
