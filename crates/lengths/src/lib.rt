// How long the canonical file of a mesh is, without writing it: its items, its runs of polygons and its surfaces, in numbers that cannot wrap.
#![tactic(auto)]

ghost use Rattle.std.specs.Prelude.{◌≡◌, true, length};
ghost use Rattle.format.specs.Canonical.{canonical};
ghost use Rattle.format.specs.Written.{mesh_from, is_mesh};
ghost use Rattle.mesh.specs.Tables.{tables_of};

use crate::items::{strings_length, unless_empty};
use crate::runs::runs_length;
use crate::surfaces::surfaces_length;
use format::POINT_WORDS;
use mesh::lent::Tables;

pub mod items;
pub mod runs;
pub mod surfaces;

// TAGS, PNTS, the runs of polygons and the surfaces, after the FORM header. Nothing is written, so a file over the limit is counted too.
pub fn file_length(tables: &Tables<'_>) -> usize
    requires { is_mesh (tables_of tables.now) ≡ true }
    ensures { result ≡ length (canonical (mesh_from (tables_of tables.now))) }
{
    let count = tables.points.len() / POINT_WORDS;
    12 + unless_empty(tables.names.len(), strings_length(tables.names))
        + unless_empty(count, 12 * count)
        + runs_length(tables.polygons, tables.vertices)
        + surfaces_length(tables.names, tables.records)
}
