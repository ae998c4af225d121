// The vertices of a polygon into the table of vertices.
ghost use Rattle.std.specs.Prelude.{length};
ghost use Rattle.load_vertices.specs.Promises.{VerticesRoom, VerticesPut};

use crate::Lists;
use wire::cursor::Cursor;
use wire::index::Index;

// The vertices at a cursor, an index each, into words of the table that are as many, each counted from the file's first point. They were judged to be fine,
// so that none is cut. The answer is the cursor after them.
pub fn put_vertices<I: Index>(s: &[u8], from: Cursor, lists: Lists, words: &mut [u32]) -> Cursor
    requires { VerticesRoom I.reader (length words.old) lists.points lists.base s.now from.at words.old 0 }
    ensures { VerticesPut I.reader (length words.old) lists.points lists.base s.now from.at words.old 0 words.new result.at }
{
    let mut c = from;
    for word in words {
        let (v, next) = I::read(c, s).unwrap();
        *word = lists.base + v;
        c = next;
    }
    c
}
