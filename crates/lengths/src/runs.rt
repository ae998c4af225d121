// The polygons by their longest runs of one kind. A run is written as a POLS and, where some of its polygons have a surface or a part name, a PTAG of each.
ghost use Rattle.std.specs.Prelude.{map, ◌+◌, ◌*◌, ◌≤◌, ◌<◌, length};
ghost use Rattle.format.specs.Bytes.{joined};
ghost use Rattle.format.specs.Mesh.{polygon_size};
ghost use Rattle.format.specs.Promises.{total};
ghost use Rattle.format.specs.Canonical.{encoded, runs, run_chunks};
ghost use Rattle.mesh.specs.Lent.{column, mesh_polygons};
ghost use Rattle.mesh.specs.Polygons.{PolygonsLent, pair_of, pairs_from};
ghost use Rattle.lengths.specs.Sizes.{Counted};

use crate::items::{unless_empty, vertices_length, vx_length};
use format::{PART_WORD, POLYGON_WORDS, SURFACE_WORD};
use mesh::polygons::{run_end, vertex_count};

// A polygon whose surface number, or part name, is 0 has no pair.
fn pair_length(i: usize, number: u32) -> usize
    ensures { Counted result (length (pair_of i number)) 6 }
{
    if number == 0 { 0 } else { vx_length(i) + 2 }
}

// The pairs of a run's PTAG, by the word of an entry that they are for: the polygons are numbered from 0.
pub fn pairs_length(run: &[u32], index: usize) -> usize
    requires { index < polygon_size }
    ensures { Counted result (length (pairs_from 0 (column polygon_size index run.now))) (2 * length run.now) }
{
    let mut bytes = 0;
    for (i, entry) in run.chunks_exact(POLYGON_WORDS).enumerate() {
        bytes += pair_length(i, entry[index]);
    }
    bytes
}

// The chunks of a run. Each has four bytes before its entries, and a polygon two before its vertices.
pub fn run_length(run: &[u32], vertices: &[u32]) -> usize
    requires { PolygonsLent run.now vertices.now × (polygon_size ≤ length run.now) }
    ensures { Counted result (total encoded (run_chunks (mesh_polygons run.now vertices.now))) (16 * length run.now + 4 * length vertices.now) }
{
    let count = run.len() / POLYGON_WORDS;
    let surfaces = pairs_length(run, SURFACE_WORD);
    let parts = pairs_length(run, PART_WORD);
    unless_empty(count, 4 + 2 * count + vertices_length(vertices))
        + unless_empty(surfaces, 4 + surfaces)
        + unless_empty(parts, 4 + parts)
}

// All runs, each by its part of the two tables.
// The polygons and their joined vertices are two of the caller's tables. A pair of them would be taken apart in each contract, so they stay side by side.
pub fn runs_length(polygons: &[u32], vertices: &[u32]) -> usize
    requires { PolygonsLent polygons.now vertices.now }
    ensures { Counted result (total encoded (joined (map run_chunks (runs (mesh_polygons polygons.now vertices.now))))) (16 * length polygons.now + 4 * length vertices.now) }
{
    let mut bytes = 0;
    let mut at = 0;
    let mut first = 0;
    // A run's length is its own, so the places in both tables are moved on by hand.
    while POLYGON_WORDS <= polygons.len() - at {
        let end = run_end(polygons, at);
        let last = first + vertex_count(&polygons[at..end]);
        bytes += run_length(&polygons[at..end], &vertices[first..last]);
        at = end;
        first = last;
    }
    bytes
}
