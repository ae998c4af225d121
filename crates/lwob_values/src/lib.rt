// The values of a SURF's sub-chunks in an LWOB file. A sub-chunk is lent, is read and is not changed.
#![tactic(auto)]

ghost use Rattle.format.specs.Surfaces.{byte_colour, short_level, long_level, flags, lwob_value};
ghost use Rattle.surface_levels.specs.Promises.{colour_tag, flag_tag, short_tag, long_tag, ValueAt, ValueResultAt};

use format::tags::{COLR, FLAG};
use surface_levels::level::{colour, float_at, level};
use surface_levels::shading::{Shading, level_named, long_level_named};
use surface_levels::sub_chunk::SubChunk;
use surface_levels::value::Value;
use wire::Refusal;

// COLR: three bytes, and a fourth that is not judged.
fn byte_colour(sub: SubChunk) -> Result<Value, Refusal>
    ensures { ValueAt (byte_colour colour_tag) sub.entry.head sub.entry.bytes.now result }
{
    sub.fixed_length(4)?;
    let s = sub.bytes;
    let at = sub.body().at;
    let red = colour(s[at]);
    let green = colour(s[at + 1]);
    let blue = colour(s[at + 2]);
    Ok(Value::Colour(red, green, blue))
}

// The short form of a level.
fn short_level(sub: SubChunk, which: Shading) -> Result<Value, Refusal>
    ensures { ValueAt (short_level (short_tag which)) sub.entry.head sub.entry.bytes.now result }
{
    sub.fixed_length(2)?;
    let (n, _) = sub.body().i2(sub.bytes)?;
    Ok(Value::Level(which, level(n)))
}

// The float form of a level, which wins over the short one.
fn long_level(sub: SubChunk, which: Shading) -> Result<Value, Refusal>
    ensures { ValueAt (long_level (long_tag which)) sub.entry.head sub.entry.bytes.now result }
{
    sub.fixed_length(4)?;
    let (x, _) = float_at(sub.bytes, sub.body())?;
    Ok(Value::Long(which, x))
}

// FLAG. What its bits mean is settled with the record.
fn flags(sub: SubChunk) -> Result<Value, Refusal>
    ensures { ValueAt (flags flag_tag) sub.entry.head sub.entry.bytes.now result }
{
    sub.fixed_length(2)?;
    let (n, _) = sub.body().u2(sub.bytes)?;
    Ok(Value::Flags(n))
}

// By its tag. A sub-chunk that is not listed gives no value.
pub fn lwob_value(sub: SubChunk, tag: u32) -> Result<Option<Value>, Refusal>
    ensures { ValueResultAt (lwob_value tag) sub.entry.head sub.entry.bytes.now result }
{
    if tag == COLR {
        return Ok(Some(byte_colour(sub)?));
    }
    if let Some(which) = level_named(tag) {
        return Ok(Some(short_level(sub, which)?));
    }
    if let Some(which) = long_level_named(tag) {
        return Ok(Some(long_level(sub, which)?));
    }
    if tag == FLAG {
        return Ok(Some(flags(sub)?));
    }
    Ok(None)
}
