// The canonical file of a mesh: what the writer answers, and the file put into a lent output. Nothing is put before its whole length is known to fit.
#![tactic(auto)]

ghost use Rattle.std.specs.Prelude.{◌≡◌};
ghost use Rattle.format.specs.Canonical.{canonical};
ghost use Rattle.format.specs.Written.{mesh_from, written, Writes};
ghost use Rattle.mesh.specs.Tables.{tables_of};
ghost use Rattle.writer.specs.Writes.{answer_as};
ghost use Rattle.output.specs.Outputs.{Wrote};
ghost use Rattle.writer.specs.Promises.{OutputRoom};

use crate::chunks::{put_names_chunk, put_points_chunk};
use format::tags::{FORM, LWO2};
use good_mesh::is_mesh;
use lengths::file_length;
use mesh::lent::Tables;
use output::heads::put_head;
use output::items::put_u4;
use write_runs::put_runs;
use write_surfaces::put_surfaces;

pub mod chunks;

// Why the tables are not written. Where there is no room, the length that is needed is told.
#[derive(Clone, Copy, Debug, PartialEq, Eq)]
pub enum WriteError {
    NotAMesh,
    OutTooLong,
    NoRoom(usize),
}

// The writer's answer for an output of `room` bytes: the length of the file, or the first of the reasons that holds, in their order.
pub fn answer_for(tables: &Tables<'_>, room: usize) -> Result<usize, WriteError>
    ensures { answer_as result ≡ written (tables_of tables.now) room }
{
    if !is_mesh(tables) {
        return Err(WriteError::NotAMesh);
    }
    let length = file_length(tables);
    if 16777216 < length {
        return Err(WriteError::OutTooLong);
    }
    if room < length {
        return Err(WriteError::NoRoom(length));
    }
    Ok(length)
}

// A file of n bytes: FORM with the length of what follows it, the type, and the chunks in their order.
fn put_file(out: &mut [u8], tables: &Tables<'_>, n: usize) -> usize
    requires { OutputRoom (tables_of tables.now) out.old n }
    ensures { Wrote out.old 0 (canonical (mesh_from (tables_of tables.now))) out.new result }
{
    let kind = put_head(out, 0, FORM, n - 8);
    let tags = put_u4(out, kind, LWO2);
    let coordinates = put_names_chunk(out, tags, tables.names, tables.name_bytes);
    let runs = put_points_chunk(out, coordinates, tables.points);
    let surfaces = put_runs(out, runs, tables.polygons, tables.vertices);
    put_surfaces(
        out,
        surfaces,
        tables.names,
        tables.name_bytes,
        tables.records,
    )
}

// The output is written only where nothing is refused, and past the file's length it stays as it was.
pub fn write(tables: &Tables<'_>, out: &mut [u8]) -> Result<usize, WriteError>
    ensures { Writes (tables_of tables.now) out.old (answer_as result) out.new }
{
    let length = answer_for(tables, out.len())?;
    Ok(put_file(out, tables, length))
}
