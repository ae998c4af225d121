// The polygons of a body into the tables of polygons and of vertices, whatever the layout of its entries.
ghost use Rattle.polygon_layouts.specs.Layouts.{Layout, entries_of};
ghost use Rattle.load_polygons.specs.Promises.{RoomIn, PutIn, BodyRoom, BodyPut};

use format::POLYGON_WORDS;
use load_vertices::{Ends, Lists, PolygonStored};
use wire::cursor::Cursor;

// A layout whose entries are put into the tables, so that there is one loop for all of them.
pub trait Loaded {
    ghost layout: { Self → Layout };

    // The two tables are lent one by one: of a struct of `&mut` slices the contract would have to say once more which slice is which after the call.
    fn put(
        &self,
        s: &[u8],
        c: Cursor,
        lists: Lists,
        ends: Ends,
        polygons: &mut [u32],
        vertices: &mut [u32],
    ) -> PolygonStored
        requires { RoomIn (layout self.now) lists ends s.now c.at polygons.old vertices.old }
        ensures { PutIn (layout self.now) lists ends s.now c.at polygons.old polygons.new vertices.old vertices.new result };
}

// The polygons from a place up to the body's end, after those that stand in the tables. The answer is where they end.
pub fn put_entries<L: Loaded>(
    s: &[u8],
    from: Cursor,
    layout: &L,
    lists: Lists,
    first: Ends,
    polygons: &mut [u32],
    vertices: &mut [u32],
) -> Ends
    requires { BodyRoom (entries_of (L.layout layout.now) lists.points lists.names) lists first s.now from.at polygons.old vertices.old }
    ensures { BodyPut (entries_of (L.layout layout.now) lists.points lists.names) lists first s.now from.at polygons.old polygons.new vertices.old vertices.new result }
{
    let mut at = from.at;
    let mut ends = first;
    // An entry's length is its own, so the place is moved on by hand.
    while at < s.len() {
        let put = layout.put(s, Cursor { at }, lists, ends, polygons, vertices);
        ends.polygons += POLYGON_WORDS;
        ends.vertices += put.vertices;
        at = put.next.at;
    }
    ends
}
