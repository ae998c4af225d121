// The faces of a POLS body of an LWOB file into the tables of polygons and of vertices.
ghost use Rattle.format.specs.Bodies.{faces_body};
ghost use Rattle.polygon_layouts.specs.Layouts.{Layout};
ghost use Rattle.load_polygons.specs.Promises.{BodyRoom, BodyPut};

use crate::FACE;
use crate::entries::{Loaded, put_entries};
use load_vertices::lwob_entry::put_lwob_entry;
use load_vertices::{Ends, Lists, PolygonStored};
use polygon_details::details::details_after;
use polygon_layouts::Faces;
use wire::cursor::Cursor;

impl Loaded for Faces {
    ghost layout = { λ f. Layout.Faces };

    // The details of a face are not kept: they are read once more, as they were judged, for the cursor after them.
    fn put(
        &self,
        s: &[u8],
        c: Cursor,
        lists: Lists,
        ends: Ends,
        polygons: &mut [u32],
        vertices: &mut [u32],
    ) -> PolygonStored {
        let (put, sign) = put_lwob_entry(s, c, FACE, lists, ends, polygons, vertices);
        let details = details_after(s, put.next, sign.negative, lists.points, lists.names);
        let (_, next) = details.unwrap();
        PolygonStored { next, ..put }
    }
}

// The faces of a body, after the polygons that stand in the tables.
pub fn put_faces(
    s: &[u8],
    lists: Lists,
    ends: Ends,
    polygons: &mut [u32],
    vertices: &mut [u32],
) -> Ends
    requires { BodyRoom (faces_body lists.points lists.names) lists ends s.now 8 polygons.old vertices.old }
    ensures { BodyPut (faces_body lists.points lists.names) lists ends s.now 8 polygons.old polygons.new vertices.old vertices.new result }
{
    put_entries(s, Cursor { at: 8 }, &Faces, lists, ends, polygons, vertices)
}
