// The SURF chunks of a file that was judged fine, one after another.
ghost use Rattle.format.specs.Promises.{Succeeds, file_parts};
ghost use Rattle.load_surface_chunks.specs.Promises.{ListedRoom, MayBeIndexed, ChunkSound, SurfacesPut, AllPut};

use crate::named::put_record;
use format::Kind;
use format::tags::SURF;
use headers::{Header, chunk_at};
use load_records::record::record_of;
use name_index::NameIndex;
use wire::cursor::Cursor;

// Stores a chunk's record at its name, where the chunk is a SURF. The name is the string that its body starts with.
// The lengths and the joined bytes are two of the caller's tables. A pair of them would be taken apart in each contract, so they stay side by side.
fn put_chunk(
    s: &[u8],
    kind: Kind,
    tag: u32,
    lengths: &[u32],
    bytes: &[u8],
    index: Option<&NameIndex>,
    records: &mut [u32],
)
    requires chunk_sound { ChunkSound kind tag s.now }
    requires listed_room { ListedRoom lengths.now bytes.now records.old }
    requires may_be_indexed { MayBeIndexed lengths.now bytes.now index }
    ensures { SurfacesPut kind tag s.now lengths.now bytes.now records.old records.new }
{
    if tag != SURF {
        return;
    }
    let c = Cursor { at: 8 };
    let Ok((n, _)) = c.string(s) else {
        return;
    };
    let r = record_of(s, kind);
    put_record(&s[8..8 + n], r, lengths, bytes, index, records);
}

// The SURFs are stored in file order, so the last one of a name stands.
pub fn put_surfaces(
    file: &[u8],
    kind: Kind,
    lengths: &[u32],
    bytes: &[u8],
    index: Option<&NameIndex>,
    records: &mut [u32],
)
    requires succeeds { Succeeds (file_parts kind file.now) }
    requires listed_room { ListedRoom lengths.now bytes.now records.old }
    requires may_be_indexed { MayBeIndexed lengths.now bytes.now index }
    ensures { AllPut kind file.now lengths.now bytes.now records.old records.new }
{
    let mut at = 12;
    // A chunk's length is its own, so the place is moved on by hand.
    while at < file.len() {
        let Ok(Header { tag, end, next }) = chunk_at(file, Cursor { at }) else {
            return;
        };
        put_chunk(&file[at..end], kind, tag, lengths, bytes, index, records);
        at = next.at;
    }
}
