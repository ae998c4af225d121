// The values of a SURF's sub-chunks in an LWO2 file. A sub-chunk is lent, is read and is not changed.
#![tactic(auto)]

ghost use Rattle.std.specs.Prelude.{◌≡◌};
ghost use Rattle.format.specs.Surfaces.{float_colour, enveloped_level, side_number, side, lwo2_value};
ghost use Rattle.surface_levels.specs.Promises.{colour_tag, side_tag, short_tag, ValueHasBits, ValueAt, RestAt, ValueResultAt};
ghost use Rattle.lwo2_values.specs.Promises.{envelope_after};

use format::Fault;
use format::tags::{COLR, SIDE};
use surface_levels::level::float_at;
use surface_levels::shading::{Shading, level_named};
use surface_levels::sub_chunk::SubChunk;
use surface_levels::value::Value;
use wire::Refusal;
use wire::cursor::Cursor;

// The envelope, a VX that is dropped, and the end of the body.
fn enveloped(sub: SubChunk, c: Cursor, value: Value) -> Result<Value, Refusal>
    requires { ValueHasBits value }
    ensures { RestAt (envelope_after value) sub.entry.head sub.entry.bytes.now c.at result }
{
    let (_, next) = c.vx(sub.bytes)?;
    if next.at < sub.bytes.len() {
        return Err(Refusal {
            why: Fault::WrongLength,
            at: sub.head,
        });
    }
    Ok(value)
}

// A level and its envelope.
fn enveloped_level(sub: SubChunk, which: Shading) -> Result<Value, Refusal>
    ensures { ValueAt (enveloped_level (short_tag which)) sub.entry.head sub.entry.bytes.now result }
{
    let (x, next) = float_at(sub.bytes, sub.body())?;
    enveloped(sub, next, Value::Level(which, x))
}

// COLR. Its floats are read one after the other, so that the first at fault is told.
fn float_colour(sub: SubChunk) -> Result<Value, Refusal>
    ensures { ValueAt (float_colour colour_tag) sub.entry.head sub.entry.bytes.now result }
{
    let (red, to_green) = float_at(sub.bytes, sub.body())?;
    let (green, to_blue) = float_at(sub.bytes, to_green)?;
    let (blue, next) = float_at(sub.bytes, to_blue)?;
    enveloped(sub, next, Value::Colour(red, green, blue))
}

// One side, or both.
fn is_side(n: u32) -> bool
    ensures { result ≡ side_number n }
{
    matches!(n, 1 | 3)
}

// SIDE has a fixed length, which is judged before its value.
fn side(sub: SubChunk) -> Result<Value, Refusal>
    ensures { ValueAt (side side_tag) sub.entry.head sub.entry.bytes.now result }
{
    sub.fixed_length(2)?;
    let c = sub.body();
    let (n, _) = c.u2(sub.bytes)?;
    if is_side(n) {
        Ok(Value::Sides(n))
    } else {
        Err(Refusal {
            why: Fault::SurfaceValue,
            at: c.at,
        })
    }
}

// By its tag. A sub-chunk that is not listed gives no value.
pub fn lwo2_value(sub: SubChunk, tag: u32) -> Result<Option<Value>, Refusal>
    ensures { ValueResultAt (lwo2_value tag) sub.entry.head sub.entry.bytes.now result }
{
    if tag == COLR {
        return Ok(Some(float_colour(sub)?));
    }
    if let Some(which) = level_named(tag) {
        return Ok(Some(enveloped_level(sub, which)?));
    }
    if tag == SIDE {
        return Ok(Some(side(sub)?));
    }
    Ok(None)
}
