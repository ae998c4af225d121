// Levels as floats: a signed number over 256, which is exact; a colour byte over 255, rounded once; and a float that is read.
ghost use Rattle.surface_levels.specs.Levels.{LevelOf, ColourOf};
ghost use Rattle.surface_levels.specs.Promises.{FloatAt};

use wire::Read;
use wire::cursor::Cursor;

// The short form of a level in an LWOB file. The division is exact.
pub fn level(n: i16) -> f32
    ensures { LevelOf n result }
{
    n as f32 / 256.0
}

// A byte of a colour in an LWOB file, rounded once by the division.
pub fn colour(b: u8) -> f32
    ensures { ColourOf b result }
{
    b as f32 / 255.0
}

// The float at a cursor. Only a finite one is read, so its bits are those that stand there.
pub fn float_at(s: &[u8], c: Cursor) -> Read<f32>
    ensures { FloatAt s.now c.at result }
{
    let (bits, next) = c.float(s)?;
    Ok((f32::from_bits(bits), next))
}
