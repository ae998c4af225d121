// The SURF chunks, one for each name whose record is defined.
ghost use Rattle.std.specs.Prelude.{◌≡◌, ◌+◌, ◌*◌, ◌≤◌, ◌<◌, ◌^◌, length};
ghost use Rattle.format.specs.Limits.{entry_limit};
ghost use Rattle.format.specs.Mesh.{record_size};
ghost use Rattle.mesh.specs.Lent.{column};
ghost use Rattle.lengths.specs.Sizes.{Counted, surface_size, surfaces_size};

use crate::items::{chunk_length, string_length};
use format::RECORD_WORDS;

// Empty source, COLR, five levels and SIDE take 90 bytes beside the name.
fn surface_length(defined: u32, name: usize) -> usize
    requires { name < 2 ^ 32 }
    ensures { Counted result (surface_size defined name) (2 ^ 32 + 101) }
{
    if defined == 1 {
        chunk_length(string_length(name) + 90)
    } else {
        0
    }
}

// The SURF chunks of all names whose record is defined.
pub fn surfaces_length(lengths: &[u32], records: &[u32]) -> usize
    requires { (length records.now ≡ record_size * length lengths.now) × (length lengths.now ≤ entry_limit) }
    ensures { Counted result (surfaces_size lengths.now (column record_size 0 records.now)) (2 ^ 57) }
{
    let mut bytes = 0;
    for (length, record) in lengths.iter().zip(records.chunks_exact(RECORD_WORDS)) {
        bytes += surface_length(record[0], *length as usize);
    }
    bytes
}
