// The rules of document 01 as definitions: see specs/. Code and rules share these types.
#![tactic(auto)]

pub mod conversions;
pub mod tags;

// The words of an entry in the tables of points, polygons and records.
pub const POINT_WORDS: usize = 3;

pub const POLYGON_WORDS: usize = 4;

pub const RECORD_WORDS: usize = 10;

// Which words of a polygon's entry, counted from 0, tags give it: its surface number and its part name.
pub const SURFACE_WORD: usize = 2;

pub const PART_WORD: usize = 3;

// The first index that needs four bytes. A smaller one has two.
pub const FIRST_LONG_INDEX: u32 = 65280;

// Each level of the colour of a surface that has none of its own.
pub const MISSING_COLOUR: f32 = 1.0;

// The two kinds of file.
#[derive(Clone, Copy, Debug, PartialEq, Eq)]
pub enum Kind {
    LWOB,
    LWO2,
}

// What sub-chunks stand in: a SURF; a BLOK, whose header has a place; or what holds attributes of a block, which is its header (IMAP, PROC, GRAD or SHDR) or a
// TMAP.
#[derive(Clone, Copy, Debug, PartialEq, Eq)]
pub enum Container {
    Surf(Kind),
    Blok(usize),
    Attributes,
}

// What can be wrong with a file. specs/Refusals.antt gives each its number.
#[derive(Clone, Copy, Debug, PartialEq, Eq)]
pub enum Fault {
    FileTooLong,
    NotForm,
    FormLength,
    BadHeader,
    OutOfOrder,
    WrongLength,
    ItemCut,
    StringOpen,
    LongIndex,
    NotFinite,
    VertexCount,
    VertexNumber,
    SurfaceNumber,
    PolygonNumber,
    PolygonType,
    BadName,
    DetailSurface,
    SurfaceValue,
}
