// The body of a POLS chunk of an LWOB file: faces, and details where a face has them.
ghost use Rattle.format.specs.Bodies.{faces_body};
ghost use Rattle.format.specs.Promises.{Judged};
ghost use Rattle.polygon_layouts.specs.Layouts.{Layout};
ghost use Rattle.wire.specs.Promises.{verdict_as};
ghost use Rattle.validate_polygons.specs.Promises.{sizes_of};

use crate::entries::{Entry, Sizes, Validated, entries};
use format::Fault;
use polygon_details::details::details_after;
use polygon_layouts::Faces;
use polygon_vertices::lwob_entry::{in_name_list, lwob_entry_at};
use wire::Refusal;
use wire::cursor::Cursor;

impl Validated for Faces {
    ghost layout = { λ f. Layout.Faces };

    // The surface number is judged before the details, which stand after it.
    fn entry(&self, s: &[u8], c: Cursor, points: usize, names: usize) -> Result<Entry, Refusal> {
        let head = lwob_entry_at(s, c, points)?;
        if !in_name_list(head.sign.number, names) {
            return Err(Refusal {
                why: Fault::SurfaceNumber,
                at: head.at,
            });
        }
        let (details, next) = details_after(s, head.next, head.sign.negative, points, names)?;
        Ok(Entry {
            vertices: head.vertices,
            details,
            next,
        })
    }
}

// Faces from the first byte of the body on.
pub fn faces_body(s: &[u8], points: usize, names: usize) -> Result<Sizes, Refusal>
    ensures { Judged (faces_body points names) sizes_of s.now (verdict_as result) }
{
    entries(s, Cursor { at: 8 }, &Faces, points, names)
}
