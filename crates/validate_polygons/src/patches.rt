// The body of a PCHS chunk.
ghost use Rattle.format.specs.Bodies.{patches_body};
ghost use Rattle.format.specs.Promises.{Judged};
ghost use Rattle.polygon_layouts.specs.Layouts.{Layout};
ghost use Rattle.wire.specs.Promises.{verdict_as};
ghost use Rattle.validate_polygons.specs.Promises.{sizes_of};

use crate::entries::{Entry, Sizes, Validated, entries};
use format::Fault;
use polygon_layouts::Patches;
use polygon_vertices::lwob_entry::{in_name_list, lwob_entry_at};
use wire::Refusal;
use wire::cursor::Cursor;

impl Validated for Patches {
    ghost layout = { λ p. Layout.Patches };

    // A patch has no details, so that a negative surface number has no meaning and names nothing.
    fn entry(&self, s: &[u8], c: Cursor, points: usize, names: usize) -> Result<Entry, Refusal> {
        let head = lwob_entry_at(s, c, points)?;
        let sign = head.sign;
        if !sign.negative & in_name_list(sign.number, names) {
            Ok(Entry {
                vertices: head.vertices,
                details: 0,
                next: head.next,
            })
        } else {
            Err(Refusal {
                why: Fault::SurfaceNumber,
                at: head.at,
            })
        }
    }
}

// Patches from the first byte of the body on.
pub fn patches_body(s: &[u8], points: usize, names: usize) -> Result<Sizes, Refusal>
    ensures { Judged (patches_body points names) sizes_of s.now (verdict_as result) }
{
    entries(s, Cursor { at: 8 }, &Patches, points, names)
}
