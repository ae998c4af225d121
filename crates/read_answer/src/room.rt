// Whether the lent tables have room for what a file needs.
ghost use Rattle.std.specs.Prelude.{◌≡◌};
ghost use Rattle.format.specs.Answer.{fits};
ghost use Rattle.mesh.specs.Tables.{tables_of};
ghost use Rattle.validate.specs.Promises.{needs_in};

use format::{POINT_WORDS, POLYGON_WORDS, RECORD_WORDS};
use mesh::lent::Tables;
use validate::counts::Totals;

// A table of entries of several words is as long as its whole entries. The records need one entry a name.
pub fn has_room(t: Totals, tables: &Tables<'_>) -> bool
    ensures { result ≡ fits (needs_in t) (tables_of tables.now) }
{
    (t.points <= tables.points.len() / POINT_WORDS)
        & (t.polygons <= tables.polygons.len() / POLYGON_WORDS)
        & (t.vertices <= tables.vertices.len())
        & (t.names <= tables.names.len())
        & (t.name_bytes <= tables.name_bytes.len())
        & (t.names <= tables.records.len() / RECORD_WORDS)
}
