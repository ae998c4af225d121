// The polygons of a file into their two tables: each POLS by the points and names before it, and with the tags of the PTAGs after it.
ghost use Rattle.std.specs.Prelude.{◌≡◌, ◌+◌, ◌<◌, ◌^◌};
ghost use Rattle.format.specs.declared.Kind.TheVariants.{LWOB, LWO2};
ghost use Rattle.format.specs.Promises.{FilePut};
ghost use Rattle.load_polygon_chunks.specs.Promises.{file_polygons, file_vertices, FilePolygonsRoom};
ghost use Rattle.load_polygon_chunks.specs.Held.{with_points, with_names, with_polygons, with_layer, PartRoom, PartPut};

use format::tags::{LAYR, PCHS, PNTS, POLS, PTAG, SRFS, TAGS};
use format::{Kind, POLYGON_WORDS};
use headers::{Header, chunk_at};
use load_polygons::faces::put_faces;
use load_polygons::patches::put_patches;
use load_polygons::polygons::put_polygons;
use load_taggings::tagging::put_taggings;
use load_vertices::{Ends, Lists};
use wire::cursor::{Cursor, left};

// The latest lists, where the polygons so far end in the tables, and the index where the words of the latest POLS start. Before the first chunk all is 0.
#[derive(Clone, Copy, Debug, Default, PartialEq, Eq)]
pub struct Latest {
    pub lists: Lists,
    pub ends: Ends,
    pub start: usize,
}

impl Latest {
    // A list of n points starts after the points of the list before it.
    fn with_points(mut self, n: usize) -> Self
        requires { self.lists.base + self.lists.points < 2 ^ 32 }
        ensures { result ≡ with_points self n }
    {
        self.lists.base += self.lists.points as u32;
        self.lists.points = n;
        self
    }

    // The list of names was met. A file has one at most.
    fn with_names(mut self, n: usize) -> Self
        ensures { result ≡ with_names self n }
    {
        self.lists.names = n;
        self
    }

    // The polygons of a POLS or PCHS start after those of the one before it.
    fn with_polygons(mut self, ends: Ends) -> Self
        ensures { result ≡ with_polygons self ends }
    {
        self.start = self.ends.polygons;
        self.ends = ends;
        self
    }

    // A layer has neither points nor polygons yet. Its own come after all of those before it.
    fn with_layer(mut self) -> Self
        requires { self.lists.base + self.lists.points < 2 ^ 32 }
        ensures { result ≡ with_layer self }
    {
        self.start = self.ends.polygons;
        self.with_points(0)
    }
}

// A chunk of an LWOB file. A point takes twelve bytes. Names are listed once at most, so that a list holds all names of the file.
// The two tables are lent one by one: of a struct of `&mut` slices the contract would have to say once more which slice is which after the call.
fn put_lwob(
    s: &[u8],
    tag: u32,
    names: usize,
    l: Latest,
    words: &mut [u32],
    vertices: &mut [u32],
) -> Latest
    requires { PartRoom LWOB tag s.now names l words.old vertices.old }
    ensures { PartPut LWOB tag s.now names l words.old words.new vertices.old vertices.new result }
{
    match tag {
        PNTS => l.with_points(left(s, 8) / 12),
        SRFS => l.with_names(names),
        POLS => l.with_polygons(put_faces(s, l.lists, l.ends, words, vertices)),
        PCHS => l.with_polygons(put_patches(s, l.lists, l.ends, words, vertices)),
        _ => l,
    }
}

// A chunk of an LWO2 file. A PTAG is for the polygons of the latest POLS. A layer empties the latest lists.
fn put_lwo2(
    s: &[u8],
    tag: u32,
    names: usize,
    l: Latest,
    words: &mut [u32],
    vertices: &mut [u32],
) -> Latest
    requires { PartRoom LWO2 tag s.now names l words.old vertices.old }
    ensures { PartPut LWO2 tag s.now names l words.old words.new vertices.old vertices.new result }
{
    match tag {
        PNTS => l.with_points(left(s, 8) / 12),
        TAGS => l.with_names(names),
        POLS => l.with_polygons(put_polygons(s, l.lists, l.ends, words, vertices)),
        PTAG => {
            let many = (l.ends.polygons - l.start) / POLYGON_WORDS;
            put_taggings(s, many, l.lists.names, words, l.start);
            l
        }
        LAYR => l.with_layer(),
        _ => l,
    }
}

// What a chunk holds of the polygons. The answer is what the next chunk is put by. Each kind of file has a function of its own: the two share the points and the
// list of names, and one match over kind and tag asks for six proofs of its last arm.
fn put_chunk(
    s: &[u8],
    kind: Kind,
    tag: u32,
    names: usize,
    l: Latest,
    words: &mut [u32],
    vertices: &mut [u32],
) -> Latest
    requires { PartRoom kind tag s.now names l words.old vertices.old }
    ensures { PartPut kind tag s.now names l words.old words.new vertices.old vertices.new result }
{
    match kind {
        Kind::LWOB => put_lwob(s, tag, names, l, words, vertices),
        Kind::LWO2 => put_lwo2(s, tag, names, l, words, vertices),
    }
}

// The polygons of all POLS and PCHS chunks, in file order. The file has so many names.
pub fn fill_polygons(
    file: &[u8],
    kind: Kind,
    names: usize,
    polygons: &mut [u32],
    vertices: &mut [u32],
)
    requires { FilePolygonsRoom kind file.now names polygons.old vertices.old }
    ensures { FilePut file_polygons kind file.now polygons.old polygons.new × FilePut file_vertices kind file.now vertices.old vertices.new }
{
    let mut at = 12;
    let mut latest = Latest::default();
    // A chunk's length is its own, so the place is moved on by hand.
    while at < file.len() {
        let Header { tag, end, next } = chunk_at(file, Cursor { at }).unwrap();
        latest = put_chunk(&file[at..end], kind, tag, names, latest, polygons, vertices);
        at = next.at;
    }
}
