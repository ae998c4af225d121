// The body of a LAYR chunk.
ghost use Rattle.format.specs.Items.{float};
ghost use Rattle.format.specs.Bodies.{point, layer_body};
ghost use Rattle.format.specs.Promises.{nothing, Says, Judged, JudgedAt};
ghost use Rattle.wire.specs.Promises.{step_as, verdict_as};
ghost use Rattle.validate_layers.specs.Promises.{parent_at_end, name_and_parent};

use format::Fault;
use wire::Refusal;
use wire::cursor::{Cursor, left};

// The pivot is a point. Its coordinates are judged one after the other, so that the first at fault is told: it may be cut, or not finite.
fn pivot(s: &[u8], c: Cursor) -> Result<Cursor, Refusal>
    ensures { Says point nothing s.now c.at (step_as s.now result) }
{
    let (_, y) = c.float(s)?;
    let (_, z) = y.float(s)?;
    let (_, next) = z.float(s)?;
    Ok(next)
}

// The parent's number, or nothing. One byte is a number that is cut, and what follows a number is left over.
fn parent(s: &[u8], c: Cursor) -> Result<(), Refusal>
    ensures { JudgedAt 0 c.at parent_at_end nothing s.now (verdict_as result) }
{
    if left(s, c.at) < 1 {
        return Ok(());
    }
    let (_, next) = c.u2(s)?;
    if next.at < s.len() {
        return Err(Refusal {
            why: Fault::WrongLength,
            at: 0,
        });
    }
    Ok(())
}

// The name, of any length, and what may follow it.
fn name_and_parent(s: &[u8], c: Cursor) -> Result<(), Refusal>
    ensures { JudgedAt 0 c.at name_and_parent nothing s.now (verdict_as result) }
{
    let (_, next) = c.string(s)?;
    parent(s, next)
}

// The layer's number and its flags may be any; the pivot and what follows it are judged.
pub fn layer_body(s: &[u8]) -> Result<(), Refusal>
    ensures { Judged layer_body nothing s.now (verdict_as result) }
{
    let start = Cursor { at: 8 };
    let (_, flags) = start.u2(s)?;
    let (_, first) = flags.u2(s)?;
    let next = pivot(s, first)?;
    name_and_parent(s, next)
}
