// The body of a POLS chunk of an LWO2 file.
ghost use Rattle.std.specs.Prelude.{◌≡◌};
ghost use Rattle.format.specs.Bodies.{polygon_type, polygons_body};
ghost use Rattle.format.specs.Promises.{Judged};
ghost use Rattle.polygon_layouts.specs.Layouts.{Layout};
ghost use Rattle.wire.specs.Promises.{verdict_as};
ghost use Rattle.validate_polygons.specs.Promises.{sizes_of};

use crate::entries::{Entry, Sizes, Validated, entries};
use format::Fault;
use format::tags::{FACE, PTCH};
use polygon_layouts::{Polygons, polygon_kind};
use polygon_vertices::vertices::lwo2_vertices;
use wire::Refusal;
use wire::cursor::Cursor;

// The types that are read.
fn polygon_type(t: u32) -> bool
    ensures { result ≡ polygon_type t }
{
    (t == FACE) | (t == PTCH)
}

impl Validated for Polygons {
    ghost layout = { λ p. Layout.Polygons p.kind };

    // A polygon of any kind: it has no surface number and no details of its own.
    fn entry(&self, s: &[u8], c: Cursor, points: usize, names: usize) -> Result<Entry, Refusal> {
        let (vertices, next) = lwo2_vertices(s, c, points)?;
        Ok(Entry {
            vertices,
            details: 0,
            next,
        })
    }
}

// The type comes before the polygons, which are all of its kind.
pub fn polygons_body(s: &[u8], points: usize) -> Result<Sizes, Refusal>
    ensures { Judged (polygons_body points) sizes_of s.now (verdict_as result) }
{
    let start = Cursor { at: 8 };
    let (t, first) = start.u4(s)?;
    if !polygon_type(t) {
        return Err(Refusal {
            why: Fault::PolygonType,
            at: 8,
        });
    }
    let layout = Polygons {
        kind: polygon_kind(t),
    };
    entries(s, first, &layout, points, 0)
}
