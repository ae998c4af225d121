// What every polygon of an LWOB file starts with, into the tables of polygons and of vertices.
ghost use Rattle.format.specs.Promises.{itself};
ghost use Rattle.load_vertices.specs.Promises.{EntryRoom, lwob_entry, LwobEntryPut};

use crate::polygon_words::put_polygon_words;
use crate::vertices::put_vertices;
use crate::{Ends, Lists, PolygonStored};
use wire::cursor::{Cursor, SignedSurface};
use wire::index::U2;

// What every polygon of an LWOB file starts with, which was judged to be fine, so that no item is cut. The answer's cursor is after the surface number, which
// is answered too: a negative one tells of details, and the surface is its absolute value.
// The two tables are lent one by one: of a struct of `&mut` slices the contract would have to say once more which slice is which after the call.
// The kind is a number, as the word in the table, which the C interface hands out.
pub fn put_lwob_entry(
    s: &[u8],
    c: Cursor,
    kind: u32,
    lists: Lists,
    ends: Ends,
    polygons: &mut [u32],
    vertices: &mut [u32],
) -> (PolygonStored, SignedSurface)
    requires { EntryRoom (lwob_entry lists.points kind) itself lists ends s.now c.at polygons.old vertices.old }
    ensures { LwobEntryPut kind lists ends s.now c.at polygons.old polygons.new vertices.old vertices.new result }
{
    let (n, first) = c.u2(s).unwrap();
    let count = n as usize;
    let end = ends.vertices + count;
    let after = put_vertices::<U2>(s, first, lists, &mut vertices[ends.vertices..end]);
    let (sign, next) = after.surface_number(s).unwrap();
    put_polygon_words(polygons, ends.polygons, kind, n, sign.number);
    let put = PolygonStored {
        next,
        vertices: count,
    };
    (put, sign)
}
