// One chunk, judged by its tag and by what was there before it. It is lent from its tag up to its body's end.
ghost use Rattle.std.specs.Prelude.{not, true};
ghost use Rattle.format.specs.declared.Kind.TheVariants.{LWOB, LWO2};
ghost use Rattle.format.specs.Bodies.{points_body, names_body, polygons_body, tagging_body, surface_body, layer_body};
ghost use Rattle.format.specs.Rules.{there, count, when◌read◌, judge};
ghost use Rattle.validate_chunk.specs.Promises.{before_of, EarlierIs, OnceIs, CountsOf, lwob_polygons};

use crate::lengths::Lengths;
use format::tags::{LAYR, PCHS, PNTS, POLS, PTAG, SRFS, SURF, TAGS};
use format::{Fault, Kind};
use validate_layers::layer::layer_body;
use validate_lists::names::{NameSizes, names_body};
use validate_lists::points::points_body;
use validate_polygons::entries::Sizes;
use validate_polygons::faces::faces_body;
use validate_polygons::patches::patches_body;
use validate_polygons::polygons::polygons_body;
use validate_surfaces::body::surface_body;
use validate_taggings::tagging::tagging_body;
use wire::Refusal;

// What a chunk adds to the counts. A layer adds nothing to them, and empties the latest lists.
#[derive(Clone, Copy, Debug, PartialEq, Eq)]
pub enum Counted {
    Points(usize),
    Names(NameSizes),
    Polygons(Sizes),
    Layer,
    Nothing,
    Skipped,
}

// Something that must come earlier is missing, or a single chunk comes twice.
const OUT_OF_ORDER: Refusal = Refusal {
    why: Fault::OutOfOrder,
    at: 0,
};

// How long a list is that must come earlier.
fn earlier(list: Option<usize>) -> Result<usize, Refusal>
    ensures { EarlierIs list result }
{
    list.ok_or(OUT_OF_ORDER)
}

// A list that comes once at most.
fn once(list: Option<usize>) -> Result<(), Refusal>
    ensures { OnceIs list result }
{
    match list {
        Some(_) => Err(OUT_OF_ORDER),
        None => Ok(()),
    }
}

// SRFS or TAGS: a file has one name list at most.
fn names_chunk(s: &[u8], lengths: Lengths) -> Result<Counted, Refusal>
    ensures { CountsOf (when not (there (before_of lengths).names) read names_body) s.now result }
{
    once(lengths.names)?;
    Ok(Counted::Names(names_body(s)?))
}

// An LWOB file has one point list at most.
fn lwob_points(s: &[u8], lengths: Lengths) -> Result<Counted, Refusal>
    ensures { CountsOf (when not (there (before_of lengths).points) read points_body LWOB) s.now result }
{
    once(lengths.points)?;
    Ok(Counted::Points(points_body(s, Kind::LWOB)?))
}

// An LWO2 file may have many point lists.
fn lwo2_points(s: &[u8]) -> Result<Counted, Refusal>
    ensures { CountsOf (when true read points_body LWO2) s.now result }
{
    Ok(Counted::Points(points_body(s, Kind::LWO2)?))
}

// POLS or PCHS of an LWOB file: points and names come earlier.
fn lwob_polygons(s: &[u8], tag: u32, lengths: Lengths) -> Result<Counted, Refusal>
    ensures { CountsOf (lwob_polygons (before_of lengths) tag) s.now result }
{
    let points = earlier(lengths.points)?;
    let names = earlier(lengths.names)?;
    if tag == POLS {
        Ok(Counted::Polygons(faces_body(s, points, names)?))
    } else {
        Ok(Counted::Polygons(patches_body(s, points, names)?))
    }
}

// POLS of an LWO2 file: points come earlier.
fn lwo2_polygons(s: &[u8], lengths: Lengths) -> Result<Counted, Refusal>
    ensures { CountsOf (when there (before_of lengths).points read polygons_body (count (before_of lengths).points)) s.now result }
{
    let latest = earlier(lengths.points)?;
    Ok(Counted::Polygons(polygons_body(s, latest)?))
}

// PTAG: polygons come earlier. Its polygons are those of the latest POLS. A list of names that is missing has none.
fn tagging_chunk(s: &[u8], lengths: Lengths) -> Result<Counted, Refusal>
    ensures { CountsOf (when there (before_of lengths).polygons read tagging_body (count (before_of lengths).polygons) (count (before_of lengths).names)) s.now result }
{
    let polygons = earlier(lengths.polygons)?;
    tagging_body(s, polygons, lengths.names.unwrap_or(0))?;
    Ok(Counted::Nothing)
}

// SURF, in either kind of file.
fn surface_chunk(s: &[u8], kind: Kind) -> Result<Counted, Refusal>
    ensures { CountsOf (when true read surface_body kind) s.now result }
{
    surface_body(s, kind)?;
    Ok(Counted::Nothing)
}

// LAYR of an LWO2 file.
fn layer_chunk(s: &[u8]) -> Result<Counted, Refusal>
    ensures { CountsOf (when true read layer_body) s.now result }
{
    layer_body(s)?;
    Ok(Counted::Layer)
}

// LWOB's listed tags. Any other chunk is skipped and counted. Each kind of file has its own list of tags in document 01, and so its own function.
fn lwob_chunk(s: &[u8], tag: u32, lengths: Lengths) -> Result<Counted, Refusal>
    ensures { CountsOf (judge LWOB (before_of lengths) tag) s.now result }
{
    if tag == PNTS {
        return lwob_points(s, lengths);
    }
    if tag == SRFS {
        return names_chunk(s, lengths);
    }
    if tag == POLS {
        return lwob_polygons(s, tag, lengths);
    }
    if tag == PCHS {
        return lwob_polygons(s, tag, lengths);
    }
    if tag == SURF {
        return surface_chunk(s, Kind::LWOB);
    }
    Ok(Counted::Skipped)
}

// LWO2's listed tags. Any other chunk is skipped and counted.
fn lwo2_chunk(s: &[u8], tag: u32, lengths: Lengths) -> Result<Counted, Refusal>
    ensures { CountsOf (judge LWO2 (before_of lengths) tag) s.now result }
{
    if tag == PNTS {
        return lwo2_points(s);
    }
    if tag == TAGS {
        return names_chunk(s, lengths);
    }
    if tag == POLS {
        return lwo2_polygons(s, lengths);
    }
    if tag == PTAG {
        return tagging_chunk(s, lengths);
    }
    if tag == SURF {
        return surface_chunk(s, Kind::LWO2);
    }
    if tag == LAYR {
        return layer_chunk(s);
    }
    Ok(Counted::Skipped)
}

// The listed tags are those of the file's kind.
pub fn judge(s: &[u8], kind: Kind, tag: u32, lengths: Lengths) -> Result<Counted, Refusal>
    ensures { CountsOf (judge kind (before_of lengths) tag) s.now result }
{
    match kind {
        Kind::LWOB => lwob_chunk(s, tag, lengths),
        Kind::LWO2 => lwo2_chunk(s, tag, lengths),
    }
}
