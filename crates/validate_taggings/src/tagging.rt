// The body of a PTAG chunk.
ghost use Rattle.format.specs.Items.{many};
ghost use Rattle.format.specs.Bodies.{pair, tagging_body};
ghost use Rattle.format.specs.Promises.{nothing, Judged, JudgedAt};
ghost use Rattle.wire.specs.Promises.{StepAt, verdict_as};

use format::Fault;
use format::tags::{PART, SURF};
use wire::Refusal;
use wire::cursor::Cursor;

// A polygon's number and a tag's. Each is judged where it stands, and its fault is at its own place.
// The two numbers stay apart: a polygon's number is judged by the one alone, a tag's by the other.
fn one_pair(s: &[u8], c: Cursor, polygons: usize, names: usize) -> Result<Cursor, Refusal>
    ensures { StepAt (pair polygons names) 4 s.now c.at result }
{
    let (polygon, after) = c.vx(s)?;
    if polygons <= polygon as usize {
        return Err(Refusal {
            why: Fault::PolygonNumber,
            at: c.at,
        });
    }
    let (tag, next) = after.u2(s)?;
    if names <= tag as usize {
        return Err(Refusal {
            why: Fault::SurfaceNumber,
            at: after.at,
        });
    }
    Ok(next)
}

// The pairs from a place up to the body's end.
fn pairs(s: &[u8], from: Cursor, polygons: usize, names: usize) -> Result<(), Refusal>
    ensures { JudgedAt 0 from.at (many (pair polygons names)) nothing s.now (verdict_as result) }
{
    let mut at = from.at;
    // A pair's length is its own, so the place is moved on by hand.
    while at < s.len() {
        let next = one_pair(s, Cursor { at }, polygons, names)?;
        at = next.at;
    }
    Ok(())
}

// Only tags of surfaces and of parts are judged: of another type the four bytes are required, and no more.
pub fn tagging_body(s: &[u8], polygons: usize, names: usize) -> Result<(), Refusal>
    ensures { Judged (tagging_body polygons names) nothing s.now (verdict_as result) }
{
    let start = Cursor { at: 8 };
    let (t, first) = start.u4(s)?;
    if (t == SURF) | (t == PART) {
        pairs(s, first, polygons, names)
    } else {
        Ok(())
    }
}
