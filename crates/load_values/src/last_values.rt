// The last value of each tag in a SURF. One walk over the sub-chunks of SURF's own keeps them.
ghost use Rattle.std.specs.Prelude.{◌≡◌, drop};
ghost use Rattle.format.specs.declared.Container.TheVariants.{Surf};
ghost use Rattle.format.specs.Surfaces.{nested, surface_depth};
ghost use Rattle.format.specs.Promises.{Succeeds};
ghost use Rattle.surface_levels.specs.Promises.{ValueHasBits};
ghost use Rattle.load_values.specs.LastValues.{with_level, LastValuesHaveBits, NoneMet, TakenIn, LastAt};

use format::{Kind, MISSING_COLOUR};
use headers::{Header, sub_at};
use surface_levels::shading::Shading;
use surface_levels::sub_chunk::SubChunk;
use surface_levels::value::Value;
use surface_values::value::value_of;
use wire::cursor::Cursor;

// The last value of each level, where one was met.
#[derive(Clone, Copy, Debug, Default, PartialEq)]
pub struct Levels {
    pub luminosity: Option<f32>,
    pub diffuse: Option<f32>,
    pub specular: Option<f32>,
    pub reflection: Option<f32>,
    pub transparency: Option<f32>,
}

// The last value of each tag: `long` are LWOB's float forms. A missing colour, FLAG or SIDE is what it stands for.
#[derive(Clone, Copy, Debug, PartialEq)]
pub struct LastValues {
    pub red: f32,
    pub green: f32,
    pub blue: f32,
    pub short: Levels,
    pub long: Levels,
    pub flags: u32,
    pub sides: u32,
}

impl Levels {
    // The last value of one level.
    fn with(mut self, which: Shading, level: f32) -> Self
        ensures { result ≡ with_level self which level }
    {
        let last = Some(level);
        match which {
            Shading::Luminosity => self.luminosity = last,
            Shading::Diffuse => self.diffuse = last,
            Shading::Specular => self.specular = last,
            Shading::Reflection => self.reflection = last,
            Shading::Transparency => self.transparency = last,
        }
        self
    }
}

impl LastValues {
    // No sub-chunk was met.
    fn none() -> Self
        ensures { NoneMet result }
    {
        Self {
            red: MISSING_COLOUR,
            green: MISSING_COLOUR,
            blue: MISSING_COLOUR,
            short: Levels::default(),
            long: Levels::default(),
            flags: 0,
            sides: 1,
        }
    }

    // One value more.
    fn with(mut self, value: Value) -> Self
        requires { LastValuesHaveBits self × ValueHasBits value }
        ensures { TakenIn value self result }
    {
        match value {
            Value::Colour(red, green, blue) => {
                self.red = red;
                self.green = green;
                self.blue = blue;
            }
            Value::Level(which, x) => {
                let short = self.short;
                self.short = short.with(which, x);
            }
            Value::Long(which, x) => {
                let long = self.long;
                self.long = long.with(which, x);
            }
            Value::Flags(n) => self.flags = n,
            Value::Sides(n) => self.sides = n,
        }
        self
    }
}

// The last values of a SURF whose sub-chunks, from a place on, were judged fine. A BLOK is unlisted here and gives no value.
pub fn last_values(s: &[u8], from: Cursor, kind: Kind) -> LastValues
    requires { Succeeds (nested surface_depth (Surf kind) from.at (drop from.at s.now)) }
    ensures { LastAt kind s.now from.at result }
{
    let mut at = from.at;
    let mut last = LastValues::none();
    // A sub-chunk's length is its own, so the place is moved on by hand.
    while at < s.len() {
        let Ok(Header { tag, end, next }) = sub_at(s, Cursor { at }) else {
            return last;
        };
        let sub = SubChunk {
            bytes: &s[..end],
            head: at,
        };
        let Ok(given) = value_of(sub, tag, kind) else {
            return last;
        };
        if let Some(value) = given {
            last = last.with(value);
        }
        at = next.at;
    }
    last
}
