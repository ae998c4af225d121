// SURF chunks put into the output: a name, an empty source, and a sub-chunk for each value, with the envelope 0.
#![tactic(auto)]

ghost use Rattle.std.specs.Prelude.{◌≡◌, ◌+◌, ◌≤◌, length};
ghost use Rattle.format.specs.Mesh.{record_size, surface_from};
ghost use Rattle.format.specs.Canonical.{bytes, chunk_bytes, surface_chunks};
ghost use Rattle.format.specs.Written.{pieces};
ghost use Rattle.mesh.specs.Lent.{mesh_surfaces};
ghost use Rattle.output.specs.Outputs.{Wrote, chunks_bytes};
ghost use Rattle.write_surfaces.specs.Surfaces.{levels_bytes, value_bytes, surface_chunk, SurfacesRoom};

use format::RECORD_WORDS;
use format::tags::{COLR, DIFF, LUMI, REFL, SIDE, SPEC, SURF, TRAN};
use output::heads::{close_chunk, put_sub_head};
use output::items::{put_string, put_u2, put_vx, put_words};

// One level, or the three of a colour, with the envelope. Their length is even, so no pad follows.
fn put_levels(out: &mut [u8], at: usize, tag: u32, levels: &[u32]) -> usize
    requires { at + length (levels_bytes tag levels.now) ≤ length out.old }
    ensures { Wrote out.old at (levels_bytes tag levels.now) out.new result }
{
    let words = put_sub_head(out, at, tag, 4 * levels.len() + 2);
    let envelope = put_words(out, words, levels);
    put_vx(out, envelope, 0)
}

// SIDE, whose body has two bytes.
fn put_sides(out: &mut [u8], at: usize, sides: u32) -> usize
    requires { at + length (chunk_bytes 2 "SIDE" (bytes 2 sides)) ≤ length out.old }
    ensures { Wrote out.old at (chunk_bytes 2 "SIDE" (bytes 2 sides)) out.new result }
{
    let next = put_sub_head(out, at, SIDE, 2);
    put_u2(out, next, sides)
}

// A record is ten words: defined, eight levels and sides.
fn put_values(out: &mut [u8], at: usize, words: &[u32]) -> usize
    requires { (length words.now ≡ record_size) × (at + length (value_bytes (surface_from words.now)) ≤ length out.old) }
    ensures { Wrote out.old at (value_bytes (surface_from words.now)) out.new result }
{
    let diffuse = put_levels(out, at, COLR, &words[1..4]);
    let luminosity = put_levels(out, diffuse, DIFF, &words[4..5]);
    let specular = put_levels(out, luminosity, LUMI, &words[5..6]);
    let reflection = put_levels(out, specular, SPEC, &words[6..7]);
    let transparency = put_levels(out, reflection, REFL, &words[7..8]);
    let sides = put_levels(out, transparency, TRAN, &words[8..9]);
    put_sides(out, sides, words[9])
}

// A name that is not defined has no chunk. The source is empty, so it is two zeros.
fn put_surface(out: &mut [u8], at: usize, name: &[u8], words: &[u32]) -> usize
    requires { (length words.now ≡ record_size) × (at + length (surface_chunk name.now (surface_from words.now)) ≤ length out.old) }
    ensures { Wrote out.old at (surface_chunk name.now (surface_from words.now)) out.new result }
{
    if words[0] != 1 {
        return at;
    }
    let source = put_string(out, at + 8, name);
    let values = put_u2(out, source, 0);
    let end = put_values(out, values, words);
    close_chunk(out, at, SURF, end)
}

// A SURF for each name whose record is defined, in the order of the names.
// The lengths and the joined bytes are two of the caller's tables. A pair of them would be taken apart in each contract, so they stay side by side.
pub fn put_surfaces(
    out: &mut [u8],
    at: usize,
    names: &[u32],
    name_bytes: &[u8],
    records: &[u32],
) -> usize
    requires { SurfacesRoom out.old at names.now name_bytes.now records.now }
    ensures { Wrote out.old at (chunks_bytes (surface_chunks (pieces names.now name_bytes.now) (mesh_surfaces records.now))) out.new result }
{
    let mut next = at;
    let mut from = 0;
    for (length, record) in names.iter().zip(records.chunks_exact(RECORD_WORDS)) {
        let end = from + *length as usize;
        next = put_surface(out, next, &name_bytes[from..end], record);
        from = end;
    }
    next
}
