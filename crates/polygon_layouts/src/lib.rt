// How a polygon is laid out in the chunks that hold polygons, a type for each layout: both passes go by it, each with a step of its own. Nothing is read or
// written here.
#![tactic(auto)]

ghost use Rattle.std.specs.Prelude.{◌≡◌};
ghost use Rattle.format.specs.Bodies.{polygon_kind};

use format::tags::FACE;

// The faces of an LWOB file.
#[derive(Clone, Copy, Debug, PartialEq, Eq)]
pub struct Faces;

// The patches of an LWOB file.
#[derive(Clone, Copy, Debug, PartialEq, Eq)]
pub struct Patches;

// The polygons of an LWO2 file, which are all of one kind.
#[derive(Clone, Copy, Debug, PartialEq, Eq)]
pub struct Polygons {
    pub kind: u32,
}

// The kind of the polygons of a type: 1 for faces and 2 for patches. It is a number and no enum, as the word that stands in the table of polygons, which the C
// interface hands out.
pub fn polygon_kind(t: u32) -> u32
    ensures { result ≡ polygon_kind t }
{
    if t == FACE { 1 } else { 2 }
}
