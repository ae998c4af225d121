// The chunks of the runs put into the output: for each run a POLS and, where some of its polygons have a surface or a part name, a PTAG of each.
#![tactic(auto)]

ghost use Rattle.std.specs.Prelude.{◌≡◌, ◌++◌, map, ◌+◌, ◌*◌, ◌≤◌, ◌<◌, length};
ghost use Rattle.format.specs.Bytes.{spelt, joined};
ghost use Rattle.format.specs.Limits.{entry_limit};
ghost use Rattle.format.specs.Mesh.{word, polygon_size};
ghost use Rattle.format.specs.Canonical.{bytes, chunk_bytes, polygon_bytes, type_of, runs, run_chunks};
ghost use Rattle.mesh.specs.Lent.{entry_at, column, mesh_polygons};
ghost use Rattle.mesh.specs.Polygons.{pairs_from};
ghost use Rattle.output.specs.Outputs.{Wrote, chunks_bytes};
ghost use Rattle.write_runs.specs.Runs.{tagging_bytes, Indexed, RunLent};

use crate::pairs::{no_pairs, put_pairs};
use crate::polygons::put_polygons;
use format::tags::{FACE, PART, POLS, PTAG, PTCH, SURF};
use format::{PART_WORD, POLYGON_WORDS, SURFACE_WORD};
use mesh::polygons::{kind, run_end, vertex_count};
use output::heads::close_chunk;
use output::items::put_u4;

pub mod pairs;
pub mod polygons;

// The type of a POLS, by the kind of its polygons.
// The kind is a number, as the word in the table, which the C interface hands out.
fn type_of(kind: u32) -> u32
    ensures { bytes 4 result ≡ spelt (type_of kind) }
{
    if kind == 1 { FACE } else { PTCH }
}

// The polygons of a run have one kind, which is that of the first.
fn put_pols(out: &mut [u8], at: usize, run: &[u32], vertices: &[u32]) -> usize
    requires { RunLent run.now vertices.now × (at + length (chunk_bytes 4 "POLS" (spelt (type_of (word 0 (entry_at polygon_size 0 run.now))) ++ joined (map polygon_bytes (mesh_polygons run.now vertices.now)))) ≤ length out.old) }
    ensures { Wrote out.old at (chunk_bytes 4 "POLS" (spelt (type_of (word 0 (entry_at polygon_size 0 run.now))) ++ joined (map polygon_bytes (mesh_polygons run.now vertices.now)))) out.new result }
{
    let first = put_u4(out, at + 8, type_of(kind(run)));
    let end = put_polygons(out, first, run, vertices);
    close_chunk(out, at, POLS, end)
}

// A PTAG of a type, for a word of an entry: SURF for the surface number, PART for the part name. It is left out where that is 0 in every polygon of the run. The
// polygons of a POLS are numbered from 0.
fn put_ptag(out: &mut [u8], at: usize, tagging: u32, run: &[u32], index: usize) -> usize
    requires { (length run.now ≤ polygon_size * entry_limit) × (index < polygon_size) × (at + length (tagging_bytes tagging (pairs_from 0 (column polygon_size index run.now))) ≤ length out.old) }
    ensures { Wrote out.old at (tagging_bytes tagging (pairs_from 0 (column polygon_size index run.now))) out.new result }
{
    if no_pairs(run, index) {
        return at;
    }
    let first = put_u4(out, at + 8, tagging);
    let end = put_pairs(out, first, run, index);
    close_chunk(out, at, PTAG, end)
}

// Each PTAG stands behind its POLS, into which its pairs are: the surfaces, and then the parts.
fn put_run(out: &mut [u8], at: usize, run: &[u32], vertices: &[u32]) -> usize
    requires { RunLent run.now vertices.now × (at + length (chunks_bytes (run_chunks (mesh_polygons run.now vertices.now))) ≤ length out.old) }
    ensures { Wrote out.old at (chunks_bytes (run_chunks (mesh_polygons run.now vertices.now))) out.new result }
{
    let surfaces = put_pols(out, at, run, vertices);
    let parts = put_ptag(out, surfaces, SURF, run, SURFACE_WORD);
    put_ptag(out, parts, PART, run, PART_WORD)
}

// The longest runs of one kind, in the order of the table.
// The polygons and their joined vertices are two of the caller's tables. A pair of them would be taken apart in each contract, so they stay side by side.
pub fn put_runs(out: &mut [u8], at: usize, polygons: &[u32], vertices: &[u32]) -> usize
    requires { Indexed polygons.now vertices.now × (at + length (chunks_bytes (joined (map run_chunks (runs (mesh_polygons polygons.now vertices.now))))) ≤ length out.old) }
    ensures { Wrote out.old at (chunks_bytes (joined (map run_chunks (runs (mesh_polygons polygons.now vertices.now))))) out.new result }
{
    let mut next = at;
    let mut entry = 0;
    let mut first = 0;
    // A run's length is its own, so the places in both tables are moved on by hand.
    while POLYGON_WORDS <= polygons.len() - entry {
        let end = run_end(polygons, entry);
        let last = first + vertex_count(&polygons[entry..end]);
        next = put_run(out, next, &polygons[entry..end], &vertices[first..last]);
        entry = end;
        first = last;
    }
    next
}
