// The patches of a PCHS body into the tables of polygons and of vertices.
ghost use Rattle.format.specs.Bodies.{patches_body};
ghost use Rattle.polygon_layouts.specs.Layouts.{Layout};
ghost use Rattle.load_polygons.specs.Promises.{BodyRoom, BodyPut};

use crate::PATCH;
use crate::entries::{Loaded, put_entries};
use load_vertices::lwob_entry::put_lwob_entry;
use load_vertices::{Ends, Lists, PolygonStored};
use polygon_layouts::Patches;
use wire::cursor::Cursor;

impl Loaded for Patches {
    ghost layout = { λ p. Layout.Patches };

    // The surface number of a patch was judged not to be negative, so that no details follow it.
    fn put(
        &self,
        s: &[u8],
        c: Cursor,
        lists: Lists,
        ends: Ends,
        polygons: &mut [u32],
        vertices: &mut [u32],
    ) -> PolygonStored {
        let (put, _) = put_lwob_entry(s, c, PATCH, lists, ends, polygons, vertices);
        put
    }
}

// The patches of a body, after the polygons that stand in the tables.
pub fn put_patches(
    s: &[u8],
    lists: Lists,
    ends: Ends,
    polygons: &mut [u32],
    vertices: &mut [u32],
) -> Ends
    requires { BodyRoom (patches_body lists.points lists.names) lists ends s.now 8 polygons.old vertices.old }
    ensures { BodyPut (patches_body lists.points lists.names) lists ends s.now 8 polygons.old polygons.new vertices.old vertices.new result }
{
    put_entries(
        s,
        Cursor { at: 8 },
        &Patches,
        lists,
        ends,
        polygons,
        vertices,
    )
}
