// The body of a SURF chunk, judged.
ghost use Rattle.format.specs.Promises.{Judged, nothing};
ghost use Rattle.format.specs.Bodies.{surface_body};
ghost use Rattle.wire.specs.Promises.{verdict_as};

use crate::nesting::sub_chunks;
use format::{Container, Kind};
use surface_values::strings::strings;
use wire::Refusal;

// Levels two, three and four.
const DEPTH: u32 = 3;

// Strings, and then sub-chunks up to the end of the body.
pub fn surface_body(s: &[u8], kind: Kind) -> Result<(), Refusal>
    ensures { Judged (surface_body kind) nothing s.now (verdict_as result) }
{
    let first = strings(s, kind)?;
    sub_chunks(s, first, Container::Surf(kind), DEPTH)
}
