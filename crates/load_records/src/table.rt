// Records, as bits, into the table of records.
ghost use Rattle.std.specs.Prelude.{◌+◌, ◌*◌, ◌≤◌, map, length, replicate};
ghost use Rattle.format.specs.Bytes.{joined};
ghost use Rattle.format.specs.Mesh.{surface_words, record_size, missing};
ghost use Rattle.format.specs.Promises.{Put};
ghost use Rattle.load_records.specs.Promises.{LevelsHaveBits, surface_of};

use crate::record::Record;
use format::RECORD_WORDS;

// Stores the record, as bits, as the i-th entry of a table.
pub fn store(table: &mut [u32], i: usize, r: Record)
    requires record_size_in_bounds { i * record_size + record_size ≤ length table.old }
    requires levels_have_bits { LevelsHaveBits r }
    ensures { Put table.old (i * record_size) (surface_words (surface_of r)) table.new }
{
    let words = [
        r.defined,
        r.red.to_bits(),
        r.green.to_bits(),
        r.blue.to_bits(),
        r.diffuse.to_bits(),
        r.luminosity.to_bits(),
        r.specular.to_bits(),
        r.reflection.to_bits(),
        r.transparency.to_bits(),
        r.sides,
    ];
    let at = i * RECORD_WORDS;
    let end = at + RECORD_WORDS;
    table[at..end].copy_from_slice(&words);
}

// A SURF may come for any name or for none, so each of the n names first gets the record of a name with no SURF.
pub fn put_missing(table: &mut [u32], n: usize)
    requires { n * record_size ≤ length table.old }
    ensures { Put table.old 0 (joined (map surface_words (replicate n missing))) table.new }
{
    for i in 0..n {
        store(table, i, Record::missing());
    }
}
