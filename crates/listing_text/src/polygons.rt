// The lines of the polygons put into the output.
ghost use Rattle.std.specs.Prelude.{◌+◌, ◌≤◌, length};
ghost use Rattle.listing_text.specs.Text.{heading, vertex_texts, line_of};
ghost use Rattle.listing_text.specs.Prints.{Prints, LinesLent, PrintsLines, heading_size, vertices_size, line_size};

use crate::numbers::put_labelled;
use format::POLYGON_WORDS;
use mesh::polygons::{Polygon, polygon_at};
use output::items::put_bytes;

// What stands before the vertices of polygon `number`.
fn put_heading(out: &mut [u8], at: usize, number: usize, p: Polygon) -> usize
    requires { at + heading_size ≤ length out.old }
    ensures { Prints out.old at (heading number p.kind p.surface p.part_name) out.new result heading_size }
{
    let to_kind = put_labelled(out, at, b"polygon ", number);
    let to_surface = put_labelled(out, to_kind, b" kind ", p.kind as usize);
    let to_part = put_labelled(out, to_surface, b" surface ", p.surface as usize);
    let to_end = put_labelled(out, to_part, b" part ", p.part_name as usize);
    put_bytes(out, to_end, b" vertices")
}

// Point numbers, a blank before each.
fn put_vertices(out: &mut [u8], at: usize, vertices: &[u32]) -> usize
    requires { at + vertices_size vertices.now ≤ length out.old }
    ensures { Prints out.old at (vertex_texts vertices.now) out.new result (vertices_size vertices.now) }
{
    let mut next = at;
    for vertex in vertices {
        next = put_labelled(out, next, b" ", *vertex as usize);
    }
    next
}

// The line of polygon `number`, which has these vertices.
fn put_polygon(out: &mut [u8], at: usize, number: usize, p: Polygon, vertices: &[u32]) -> usize
    requires { at + line_size vertices.now ≤ length out.old }
    ensures { Prints out.old at (line_of number p.kind p.surface p.part_name vertices.now) out.new result (line_size vertices.now) }
{
    let to_vertices = put_heading(out, at, number, p);
    let to_end = put_vertices(out, to_vertices, vertices);
    put_bytes(out, to_end, b"\n")
}

// A line for each entry of the polygons table. The vertices of a polygon follow those of the one before it.
// The polygons and their joined vertices are two of the caller's tables. A pair of them would be taken apart in each contract, so they stay side by side.
pub fn put_polygons(out: &mut [u8], at: usize, polygons: &[u32], vertices: &[u32]) -> usize
    requires { LinesLent out.old at polygons.now vertices.now }
    ensures { PrintsLines out.old at polygons.now vertices.now out.new result }
{
    let mut next = at;
    let mut first = 0;
    for (number, entry) in polygons.chunks_exact(POLYGON_WORDS).enumerate() {
        let p = polygon_at(entry, first);
        let end = p.end;
        next = put_polygon(out, next, number, p, &vertices[first..end]);
        first = end;
    }
    next
}
