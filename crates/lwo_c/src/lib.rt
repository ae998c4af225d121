// The static library for C and Rust: each function of `lwo` under its own name, with its clauses. A slice is a pointer and a length in elements. No function has
// a precondition, so that nothing a caller lends can break what is proved.
#![tactic(auto)]

ghost use Rattle.std.specs.Prelude.{◌≡◌};
ghost use Rattle.format.specs.Mesh.{lent};
ghost use Rattle.format.specs.Answer.{Reads};
ghost use Rattle.format.specs.Written.{Writes};
ghost use Rattle.lwo.specs.Exports.{answer_as, written_as, version};

use lwo::{LwoAnswer, LwoWritten};

// The library's version, its three numbers in one: the last two have eight bits each, and the first what is above them. The header has the same.
#[unsafe(no_mangle)]
pub extern "C" fn lwo_version() -> u32
    ensures { result ≡ version 0 2 0 }
{
    lwo::lwo_version()
}

// `read`, with its answer in C's types.
#[unsafe(no_mangle)]
pub extern "C" fn lwo_read(
    file: &[u8],
    points: &mut [u32],
    polygons: &mut [u32],
    vertices: &mut [u32],
    names: &mut [u32],
    name_bytes: &mut [u8],
    records: &mut [u32],
) -> LwoAnswer
    ensures { Reads file.now (lent points.old polygons.old vertices.old names.old name_bytes.old records.old) (answer_as result) (lent points.new polygons.new vertices.new names.new name_bytes.new records.new) }
{
    lwo::lwo_read(file, points, polygons, vertices, names, name_bytes, records)
}

// `write`, with its answer in C's types.
#[unsafe(no_mangle)]
pub extern "C" fn lwo_write(
    points: &[u32],
    polygons: &[u32],
    vertices: &[u32],
    names: &[u32],
    name_bytes: &[u8],
    records: &[u32],
    out: &mut [u8],
) -> LwoWritten
    ensures { Writes (lent points.now polygons.now vertices.now names.now name_bytes.now records.now) out.old (written_as result) out.new }
{
    lwo::lwo_write(points, polygons, vertices, names, name_bytes, records, out)
}
