// The records table: an entry is ten words, which are defined, eight levels and sides.
ghost use Rattle.std.specs.Prelude.{◌≡◌, length};
ghost use Rattle.format.specs.Bytes.{all, same};
ghost use Rattle.format.specs.Mesh.{record_size, surface_from, surface_words, missing};
ghost use Rattle.format.specs.Written.{good_surface};
ghost use Rattle.mesh.specs.Lent.{mesh_surfaces};

use crate::floats::all_finite;
use format::{MISSING_COLOUR, RECORD_WORDS};

// The bits of 1.0.
const ONE: u32 = 0x3F80_0000;

// By bits: not defined, the missing colour, diffuse 1.0, the other levels 0, sides 1.
fn is_missing(words: &[u32]) -> bool
    ensures { result ≡ same words.now (surface_words missing) }
{
    let colour = f32::to_bits(MISSING_COLOUR);
    let missing = [0, colour, colour, colour, ONE, 0, 0, 0, 0, 1];
    words == missing.as_slice()
}

// A record that is not defined is not written, so that it has to be what reading gives a name with no SURF.
fn good_record(words: &[u32]) -> bool
    requires { length words.now ≡ record_size }
    ensures { result ≡ good_surface (surface_from words.now) }
{
    let defined = words[0];
    let sides = words[9];
    (defined <= 1)
        & ((sides == 1) | (sides == 3))
        & all_finite(&words[1..9])
        & ((defined == 1) | is_missing(words))
}

// Each record by itself. That there is one for each name is asked before.
pub fn good_records(records: &[u32]) -> bool
    ensures { result ≡ all good_surface (mesh_surfaces records.now) }
{
    for record in records.chunks_exact(RECORD_WORDS) {
        if !good_record(record) {
            return false;
        }
    }
    true
}
