// Whether six lent tables are a mesh: refusal 17 of document 01. Every writer, comparison and cut asks this first.
#![tactic(auto)]

ghost use Rattle.std.specs.Prelude.{◌≡◌, ◌*◌, ◌≤◌, ◌<◌, length};
ghost use Rattle.format.specs.Limits.{entry_limit};
ghost use Rattle.format.specs.Mesh.{polygon_size};
ghost use Rattle.format.specs.Written.{is_mesh};
ghost use Rattle.mesh.specs.Tables.{tables_of};
ghost use Rattle.good_mesh.specs.Tests.{whole_length, whole_tables, counts_agree};

use format::{POINT_WORDS, POLYGON_WORDS, RECORD_WORDS};
use good_entries::floats::all_finite;
use good_entries::names::good_names;
use good_entries::polygons::good_polygons;
use good_entries::records::good_records;
use mesh::columns::sum_of;
use mesh::lent::Tables;
use mesh::polygons::vertex_count;

// A table of this length has whole entries of `size` words, and not too many of them.
fn whole_entries(length: usize, size: usize) -> bool
    requires { 0 < size }
    ensures { result ≡ whole_length size length }
{
    (length % size == 0) & (length / size <= 16777216)
}

// No table has part of an entry or too many entries.
fn whole_tables(tables: &Tables<'_>) -> bool
    ensures { result ≡ whole_tables (tables_of tables.now) }
{
    whole_entries(tables.points.len(), POINT_WORDS)
        & whole_entries(tables.polygons.len(), POLYGON_WORDS)
        & whole_entries(tables.vertices.len(), 1)
        & whole_entries(tables.names.len(), 1)
        & whole_entries(tables.name_bytes.len(), 1)
        & whole_entries(tables.records.len(), RECORD_WORDS)
}

// The summed vertex counts and name lengths are what the joined tables hold, and there is a record for each name.
fn counts_agree(tables: &Tables<'_>) -> bool
    requires { (length tables.now.polygons.now ≤ polygon_size * entry_limit) × (length tables.now.names.now ≤ entry_limit) }
    ensures { result ≡ counts_agree tables.now.polygons.now tables.now.vertices.now tables.now.names.now tables.now.name_bytes.now tables.now.records.now }
{
    (vertex_count(tables.polygons) == tables.vertices.len())
        & (sum_of(tables.names, 1, 0) == tables.name_bytes.len())
        & (tables.records.len() / RECORD_WORDS == tables.names.len())
}

// The limits come first, since they keep the sums from wrapping, and the sums before the walks, which go by them. The names are last: they cost the most.
// Each test gives the later ones what they ask: in one chain of `&&` that fact would have to be taken out of the chain before it, link by link.
pub fn is_mesh(tables: &Tables<'_>) -> bool
    ensures { result ≡ is_mesh (tables_of tables.now) }
{
    if !whole_tables(tables) {
        return false;
    }
    if !counts_agree(tables) {
        return false;
    }
    if !all_finite(tables.points) {
        return false;
    }
    let points = tables.points.len() / POINT_WORDS;
    if !good_polygons(tables.polygons, tables.vertices, points, tables.names.len()) {
        return false;
    }
    if !good_records(tables.records) {
        return false;
    }
    good_names(tables.names, tables.name_bytes)
}
