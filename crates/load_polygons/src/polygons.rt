// The polygons of a POLS body of an LWO2 file into the tables of polygons and of vertices.
ghost use Rattle.format.specs.Bodies.{polygons_body};
ghost use Rattle.polygon_layouts.specs.Layouts.{Layout};
ghost use Rattle.load_polygons.specs.Promises.{BodyRoom, BodyPut};

use crate::entries::{Loaded, put_entries};
use load_vertices::polygon_words::put_polygon_words;
use load_vertices::vertices::put_vertices;
use load_vertices::{Ends, Lists, PolygonStored};
use polygon_layouts::{Polygons, polygon_kind};
use wire::cursor::Cursor;
use wire::index::Vx;

impl Loaded for Polygons {
    ghost layout = { λ p. Layout.Polygons p.kind };

    // The count of vertices is the low ten bits of the number that a polygon starts with, and it has no surface until it is tagged.
    fn put(
        &self,
        s: &[u8],
        c: Cursor,
        lists: Lists,
        ends: Ends,
        polygons: &mut [u32],
        vertices: &mut [u32],
    ) -> PolygonStored {
        let (n, first) = c.u2(s).unwrap();
        let count = n % 1024;
        put_polygon_words(polygons, ends.polygons, self.kind, count, 0);
        let many = count as usize;
        let end = ends.vertices + many;
        let next = put_vertices::<Vx>(s, first, lists, &mut vertices[ends.vertices..end]);
        PolygonStored {
            next,
            vertices: many,
        }
    }
}

// The polygons of a body, after those that stand in the tables.
pub fn put_polygons(
    s: &[u8],
    lists: Lists,
    ends: Ends,
    polygons: &mut [u32],
    vertices: &mut [u32],
) -> Ends
    requires { BodyRoom (polygons_body lists.points) lists ends s.now 8 polygons.old vertices.old }
    ensures { BodyPut (polygons_body lists.points) lists ends s.now 8 polygons.old polygons.new vertices.old vertices.new result }
{
    let start = Cursor { at: 8 };
    let (t, first) = start.u4(s).unwrap();
    let layout = Polygons {
        kind: polygon_kind(t),
    };
    put_entries(s, first, &layout, lists, ends, polygons, vertices)
}
