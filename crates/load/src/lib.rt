// The second pass over a file that was validated: its points, polygons, names and records are put into the six tables, each by a walk over the chunks. The mesh
// stands at the front of each table, and the rest of it is unchanged.
#![tactic(auto)]

ghost use Rattle.format.specs.Mesh.{lent};
ghost use Rattle.load.specs.Promises.{TablesRoom, TablesPut};

use format::Kind;
use load_lists::names::fill_names;
use load_lists::points::fill_points;
use load_polygon_chunks::polygons::fill_polygons;
use load_surfaces::records::fill_records;

// The records come last: a SURF is stored for its name, which is looked up in the tables of names.
// The tables are lent one by one: of a struct of `&mut` slices the contract would have to say once more which slice is which after the call.
pub fn fill_tables(
    file: &[u8],
    kind: Kind,
    name_count: usize,
    points: &mut [u32],
    polygons: &mut [u32],
    vertices: &mut [u32],
    names: &mut [u32],
    name_bytes: &mut [u8],
    records: &mut [u32],
)
    requires { TablesRoom kind file.now name_count (lent points.old polygons.old vertices.old names.old name_bytes.old records.old) }
    ensures { TablesPut kind file.now (lent points.old polygons.old vertices.old names.old name_bytes.old records.old) (lent points.new polygons.new vertices.new names.new name_bytes.new records.new) }
{
    fill_points(file, kind, points);
    fill_polygons(file, kind, name_count, polygons, vertices);
    fill_names(file, kind, names, name_bytes);
    fill_records(file, kind, name_count, names, name_bytes, records);
}
