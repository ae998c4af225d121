// What the static library for C and Rust is made of: thin functions over the proved reader and writer, with answers in C's types. `lwo_c` exports each of them. No
// function has a precondition, so that nothing a caller lends can break what is proved.
#![tactic(auto)]

ghost use Rattle.std.specs.Prelude.{◌≡◌};
ghost use Rattle.format.specs.Mesh.{lent};
ghost use Rattle.format.specs.Answer.{Reads};
ghost use Rattle.format.specs.Written.{Writes};
ghost use Rattle.lwo.specs.Exports.{answer_as, written_as, version};

use mesh::lent::Tables;
use read_answer::ReadError;
use reader::read;
use validate::counts::Totals;
use writer::{WriteError, write};

// The reader's answer: a refusal's number (0 accepted) and its place, the five needs, the skipped chunks and the details.
#[repr(C)]
#[derive(Clone, Copy, Debug, PartialEq, Eq)]
pub struct LwoAnswer {
    pub number: u64,
    pub place: u64,
    pub points: u64,
    pub polygons: u64,
    pub vertices: u64,
    pub names: u64,
    pub name_bytes: u64,
    pub skipped: u64,
    pub details: u64,
}

// The writer's answer: a number, the place 0, and a length: bytes written on 0, bytes needed on 16, else 0.
#[repr(C)]
#[derive(Clone, Copy, Debug, PartialEq, Eq)]
pub struct LwoWritten {
    pub number: u64,
    pub place: u64,
    pub length: u64,
}

// A refusal's number and place, or 0 and 0. Only a file that has a mesh has counts, also where there is no room for it.
impl From<Result<Totals, ReadError>> for LwoAnswer {
    ghost use Rattle.std.specs.Prelude.{◌≡◌};
    ghost use Rattle.lwo.specs.Exports.{answer_as};
    ghost use Rattle.read_answer.specs.Reads.{answer_as as read_as};

    ghost from_gives = { λ answer a. answer_as a ≡ read_as answer };

    fn from(answer: Result<Totals, ReadError>) -> LwoAnswer {
        let (number, place, t) = match answer {
            Ok(t) => (0, 0, t),
            Err(ReadError::NoRoom(t)) => (16, 0, t),
            Err(ReadError::Refused(f)) => (u32::from(f.why), f.at, Totals::default()),
        };
        LwoAnswer {
            number: number as u64,
            place: place as u64,
            points: t.points as u64,
            polygons: t.polygons as u64,
            vertices: t.vertices as u64,
            names: t.names as u64,
            name_bytes: t.name_bytes as u64,
            skipped: t.skipped as u64,
            details: t.details as u64,
        }
    }
}

// A refusal's number, or 0. The place is always 0, since no byte is at fault.
impl From<Result<usize, WriteError>> for LwoWritten {
    ghost use Rattle.std.specs.Prelude.{◌≡◌};
    ghost use Rattle.lwo.specs.Exports.{written_as};
    ghost use Rattle.writer.specs.Writes.{answer_as as write_as};

    ghost from_gives = { λ answer w. written_as w ≡ write_as answer };

    fn from(answer: Result<usize, WriteError>) -> LwoWritten {
        let (number, length) = match answer {
            Ok(length) => (0, length),
            Err(WriteError::NotAMesh) => (17, 0),
            Err(WriteError::OutTooLong) => (18, 0),
            Err(WriteError::NoRoom(needed)) => (16, needed),
        };
        LwoWritten {
            number,
            place: 0,
            length: length as u64,
        }
    }
}

// The library's version, its three numbers in one: the last two have eight bits each, and the first what is above them. The header has the same.
pub fn lwo_version() -> u32
    ensures { result ≡ version 0 2 0 }
{
    512
}

// `read`, with its answer in C's types.
// The tables are lent one by one, as C lends them.
pub fn lwo_read(
    file: &[u8],
    points: &mut [u32],
    polygons: &mut [u32],
    vertices: &mut [u32],
    names: &mut [u32],
    name_bytes: &mut [u8],
    records: &mut [u32],
) -> LwoAnswer
    ensures { Reads file.now (lent points.old polygons.old vertices.old names.old name_bytes.old records.old) (answer_as result) (lent points.new polygons.new vertices.new names.new name_bytes.new records.new) }
{
    LwoAnswer::from(read(file, points, polygons, vertices, names, name_bytes, records))
}

// `write`, with its answer in C's types.
// The tables are lent one by one, as C lends them.
pub fn lwo_write(
    points: &[u32],
    polygons: &[u32],
    vertices: &[u32],
    names: &[u32],
    name_bytes: &[u8],
    records: &[u32],
    out: &mut [u8],
) -> LwoWritten
    ensures { Writes (lent points.now polygons.now vertices.now names.now name_bytes.now records.now) out.old (written_as result) out.new }
{
    let tables = Tables {
        points,
        polygons,
        vertices,
        names,
        name_bytes,
        records,
    };
    LwoWritten::from(write(&tables, out))
}
