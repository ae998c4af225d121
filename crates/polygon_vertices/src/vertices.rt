// The vertices of a polygon: each is the number of a point.
ghost use Rattle.std.specs.Prelude.{length};
ghost use Rattle.format.specs.Items.{times};
ghost use Rattle.format.specs.Bodies.{vertex, lwob_vertices, lwo2_vertices};
ghost use Rattle.format.specs.Promises.{Keeps, each};
ghost use Rattle.wire.specs.Promises.{read_as};
ghost use Rattle.polygon_vertices.specs.Promises.{vertex_bytes};

use format::Fault;
use wire::cursor::Cursor;
use wire::index::{Index, U2, Vx};
use wire::{Read, Refusal};

// The vertices of a polygon, which were announced by a count: two bytes each in an LWOB file, and a VX each in an LWO2 file.
fn vertices<I: Index>(s: &[u8], from: Cursor, n: usize, points: usize) -> Read<usize>
    ensures { Keeps (times n (vertex I.reader points)) length (each 2) s.now from.at (read_as s.now result) }
{
    let mut c = from;
    for _ in 0..n {
        let at = c.at;
        let (v, next) = I::read(c, s)?;
        if points <= v as usize {
            return Err(Refusal {
                why: Fault::VertexNumber,
                at,
            });
        }
        c = next;
    }
    Ok((n, c))
}

// How many vertices a polygon of an LWOB file has.
pub fn lwob_vertices(s: &[u8], c: Cursor, points: usize) -> Read<usize>
    ensures { Keeps (lwob_vertices points) length vertex_bytes s.now c.at (read_as s.now result) }
{
    let at = c.at;
    let (n, next) = c.u2(s)?;
    if (1 <= n) & (n <= 200) {
        vertices::<U2>(s, next, n as usize, points)
    } else {
        Err(Refusal {
            why: Fault::VertexCount,
            at,
        })
    }
}

// How many vertices a polygon of an LWO2 file has: the low ten bits of the number that it starts with. It stays beside the one before it: they differ in the
// bits of the count, in its test and in the item, and one function for both would be passed all three.
pub fn lwo2_vertices(s: &[u8], c: Cursor, points: usize) -> Read<usize>
    ensures { Keeps (lwo2_vertices points) length vertex_bytes s.now c.at (read_as s.now result) }
{
    let at = c.at;
    let (n, next) = c.u2(s)?;
    let count = n % 1024;
    if 1 <= count {
        vertices::<Vx>(s, next, count as usize, points)
    } else {
        Err(Refusal {
            why: Fault::VertexCount,
            at,
        })
    }
}
