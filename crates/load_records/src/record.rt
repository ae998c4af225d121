// The surface record by value: eight levels as floats, settled from the last values of one SURF body.
ghost use Rattle.std.specs.Prelude.{◌≡◌, drop};
ghost use Rattle.format.specs.Items.{whole};
ghost use Rattle.format.specs.Bodies.{surface_body};
ghost use Rattle.format.specs.Promises.{Succeeds};
ghost use Rattle.surface_levels.specs.Levels.{HasBits, bits};
ghost use Rattle.load_values.specs.LastValues.{LevelHasBits, LastLevelsHaveBits, LastValuesHaveBits, level_words, taken_of};
ghost use Rattle.load_records.specs.Promises.{LevelIs, GlowIs, sides_in, settled_of, record_from, RecordIs, MissingIs, RecordAt};

use format::{Kind, MISSING_COLOUR};
use load_values::last_values::{LastValues, Levels, last_values};
use surface_values::strings::strings;

#[derive(Clone, Copy, Debug, PartialEq)]
pub struct Record {
    pub defined: u32,
    pub red: f32,
    pub green: f32,
    pub blue: f32,
    pub diffuse: f32,
    pub luminosity: f32,
    pub specular: f32,
    pub reflection: f32,
    pub transparency: f32,
    pub sides: u32,
}

// Bit 0 gives luminosity 1.0.
fn glow(flags: u32) -> f32
    ensures { GlowIs flags result }
{
    if flags % 2 == 1 { 1.0 } else { 0.0 }
}

// Bit 8 gives sides 3.
fn sides(flags: u32) -> u32
    ensures { result ≡ sides_in flags }
{
    if flags / 256 % 2 == 1 { 3 } else { 1 }
}

// A level, of which the float form wins over the short one in either order.
fn level(long: Option<f32>, short: Option<f32>, missing: f32) -> f32
    requires { LevelHasBits long × LevelHasBits short × HasBits missing }
    ensures { LevelIs long short missing result }
{
    long.or(short).unwrap_or(missing)
}

impl Record {
    // What some last values make, where the float forms, and what stands for a missing diffuse level or luminosity and for the sides, go by kind of file.
    fn settled(values: LastValues, long: Levels, diffuse: f32, luminosity: f32, sides: u32) -> Self
        requires { LastValuesHaveBits values × LastLevelsHaveBits long × HasBits diffuse × HasBits luminosity }
        ensures { RecordIs (settled_of (taken_of values) (level_words long) (bits diffuse) (bits luminosity) sides) result }
    {
        let short = values.short;
        Self {
            defined: 1,
            red: values.red,
            green: values.green,
            blue: values.blue,
            diffuse: level(long.diffuse, short.diffuse, diffuse),
            luminosity: level(long.luminosity, short.luminosity, luminosity),
            specular: level(long.specular, short.specular, 0.0),
            reflection: level(long.reflection, short.reflection, 0.0),
            transparency: level(long.transparency, short.transparency, 0.0),
            sides,
        }
    }

    // The kinds of file differ in their missing values; LWOB alone has float forms, and flags that give luminosity and sides.
    fn of_values(values: LastValues, kind: Kind) -> Self
        requires { LastValuesHaveBits values }
        ensures { RecordIs (record_from kind (taken_of values)) result }
    {
        let long = values.long;
        let flags = values.flags;
        match kind {
            Kind::LWOB => Self::settled(values, long, 0.0, glow(flags), sides(flags)),
            Kind::LWO2 => Self::settled(values, Levels::default(), 1.0, 0.0, values.sides),
        }
    }

    // A name with no SURF.
    pub(crate) fn missing() -> Self
        ensures { MissingIs result }
    {
        Self {
            defined: 0,
            red: MISSING_COLOUR,
            green: MISSING_COLOUR,
            blue: MISSING_COLOUR,
            diffuse: 1.0,
            luminosity: 0.0,
            specular: 0.0,
            reflection: 0.0,
            transparency: 0.0,
            sides: 1,
        }
    }
}

// The record of a SURF body that was judged fine.
pub fn record_of(s: &[u8], kind: Kind) -> Record
    requires { Succeeds (whole 0 (surface_body kind) 8 (drop 8 s.now)) }
    ensures { RecordAt kind s.now result }
{
    let Ok(first) = strings(s, kind) else {
        return Record::missing();
    };
    Record::of_values(last_values(s, first, kind), kind)
}
