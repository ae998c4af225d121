// The value of a sub-chunk of a SURF.
use crate::shading::Shading;

// What a sub-chunk that is listed gives: a colour; a level, where `Long` is LWOB's float form that wins over the short one; or the number of a FLAG or a SIDE.
#[derive(Clone, Copy, Debug, PartialEq)]
pub enum Value {
    Colour(f32, f32, f32),
    Level(Shading, f32),
    Long(Shading, f32),
    Flags(u32),
    Sides(u32),
}
