// Reading a file into lent tables: the first pass, the test of room, the second pass, and the answer. Whatever is lent, the answer and the tables are the
// specification's.
#![tactic(auto)]

ghost use Rattle.format.specs.Mesh.{lent};
ghost use Rattle.format.specs.Answer.{Reads};
ghost use Rattle.read_answer.specs.Reads.{answer_as};

use load::fill_tables;
use mesh::lent::Tables;
use read_answer::ReadError;
use read_answer::room::has_room;
use validate::counts::Totals;
use validate::validate;

// Reads a file into the lent tables. Nothing is put into a table before the whole file is judged and every table has room. The tables are lent one by one: of a
// struct of `&mut` slices each contract would have to say once more which slice is which after the call.
pub fn read(
    file: &[u8],
    points: &mut [u32],
    polygons: &mut [u32],
    vertices: &mut [u32],
    names: &mut [u32],
    name_bytes: &mut [u8],
    records: &mut [u32],
) -> Result<Totals, ReadError>
    ensures { Reads file.now (lent points.old polygons.old vertices.old names.old name_bytes.old records.old) (answer_as result) (lent points.new polygons.new vertices.new names.new name_bytes.new records.new) }
{
    let (kind, totals) = validate(file)?;
    let tables = Tables {
        points,
        polygons,
        vertices,
        names,
        name_bytes,
        records,
    };
    if !has_room(totals, &tables) {
        return Err(ReadError::NoRoom(totals));
    }
    fill_tables(
        file,
        kind,
        totals.names,
        points,
        polygons,
        vertices,
        names,
        name_bytes,
        records,
    );
    Ok(totals)
}
