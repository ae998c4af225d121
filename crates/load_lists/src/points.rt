// The points of a PNTS body, and of all of them in a file, into the table of points.
ghost use Rattle.format.specs.Promises.{FileRoom, FilePut};
ghost use Rattle.load_lists.specs.Promises.{PointsRoom, PointsPut, ChunkRoom, ChunkPut, file_points};

use format::tags::PNTS;
use format::{Kind, POINT_WORDS};
use headers::{Header, chunk_at};
use wire::cursor::{Cursor, left, word};

// Three words a point, in file order, from the index m on. A float is put as it stands, so that its bits stay what they are. The body was judged to hold
// whole points, so that each turn puts one of them: three words a turn, since a word a turn takes three times as long.
pub fn put_points(s: &[u8], table: &mut [u32], m: usize)
    requires { PointsRoom s.now table.old m }
    ensures { PointsPut s.now table.old m table.new }
{
    let n = left(s, 8) / 12;
    for i in 0..n {
        let from = 8 + i * 12;
        let to = m + i * POINT_WORDS;
        table[to] = word(s, from);
        table[to + 1] = word(s, from + 4);
        table[to + 2] = word(s, from + 8);
    }
}

// The points of a chunk from the index m on, where it is a PNTS. The answer is the index after them.
fn put_chunk(s: &[u8], kind: Kind, tag: u32, table: &mut [u32], m: usize) -> usize
    requires { ChunkRoom kind tag s.now table.old m }
    ensures { ChunkPut kind tag s.now table.old m table.new result }
{
    if tag != PNTS {
        return m;
    }
    put_points(s, table, m);
    m + left(s, 8) / 4
}

// The points of all PNTS chunks, in file order.
pub fn fill_points(file: &[u8], kind: Kind, table: &mut [u32])
    requires { FileRoom file_points kind file.now table.old }
    ensures { FilePut file_points kind file.now table.old table.new }
{
    let mut at = 12;
    let mut m = 0;
    // A chunk's length is its own, so the place is moved on by hand.
    while at < file.len() {
        let Ok(Header { tag, end, next }) = chunk_at(file, Cursor { at }) else {
            return;
        };
        m = put_chunk(&file[at..end], kind, tag, table, m);
        at = next.at;
    }
}
