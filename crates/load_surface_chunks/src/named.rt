// One record into the table, at the listed names that are equal to its name.
ghost use Rattle.std.specs.Prelude.{◌≡◌, ◌*◌, ◌≤◌, length};
ghost use Rattle.format.specs.Mesh.{record_size};
ghost use Rattle.format.specs.Written.{pieces};
ghost use Rattle.name_index.specs.Index.{Different};
ghost use Rattle.name_index.specs.NameIndex.{IsIndex, names_in};
ghost use Rattle.load_records.specs.Promises.{LevelsHaveBits, surface_of};
ghost use Rattle.load_surface_chunks.specs.Promises.{with_record, ListedRoom, MayBeIndexed};

use load_records::record::Record;
use load_records::table::store;
use name_index::NameIndex;
use words::same_bytes;

// Stores the record at each listed name that is equal to `name`. The lengths cut the listed names from the bytes.
fn put_at_each(name: &[u8], r: Record, lengths: &[u32], bytes: &[u8], records: &mut [u32])
    requires listed_room { ListedRoom lengths.now bytes.now records.old }
    requires levels_have_bits { LevelsHaveBits r }
    ensures { records.new ≡ with_record name.now (surface_of r) (pieces lengths.now bytes.now) records.old }
{
    let mut at = 0;
    for (i, n) in lengths.iter().enumerate() {
        let end = at + *n as usize;
        if same_bytes(&bytes[at..end], name) {
            store(records, i, r);
        }
        at = end;
    }
}

// Stores the record at the name, where it is at hand. The names at hand are all different, so that there is one such entry at most.
fn put_found(name: &[u8], r: Record, index: &NameIndex, records: &mut [u32])
    requires index { IsIndex index.now }
    requires different { Different (names_in index.now) × (length (names_in index.now) * record_size ≤ length records.old) }
    requires levels_have_bits { LevelsHaveBits r }
    ensures { records.new ≡ with_record name.now (surface_of r) (names_in index.now) records.old }
{
    if let Some(k) = index.find(name) {
        store(records, k, r);
    }
}

// Where the listed names have an index it is used; without one, they are few, and each is looked at.
pub fn put_record(
    name: &[u8],
    r: Record,
    lengths: &[u32],
    bytes: &[u8],
    index: Option<&NameIndex>,
    records: &mut [u32],
)
    requires listed_room { ListedRoom lengths.now bytes.now records.old }
    requires may_be_indexed { MayBeIndexed lengths.now bytes.now index }
    requires levels_have_bits { LevelsHaveBits r }
    ensures { records.new ≡ with_record name.now (surface_of r) (pieces lengths.now bytes.now) records.old }
{
    match index {
        Some(index) => put_found(name, r, index, records),
        None => put_at_each(name, r, lengths, bytes, records),
    }
}
