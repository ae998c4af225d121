// The tags of a PTAG body into the table of polygons.
ghost use Rattle.std.specs.Prelude.{drop, ◌<◌};
ghost use Rattle.format.specs.Items.{many, whole};
ghost use Rattle.format.specs.Mesh.{polygon_size};
ghost use Rattle.format.specs.Bodies.{pair, tagging_body};
ghost use Rattle.load_taggings.specs.Promises.{TagsRoom, TagsPut, PairsPut};

use format::tags::{PART, SURF};
use format::{PART_WORD, POLYGON_WORDS, SURFACE_WORD};
use wire::cursor::Cursor;

// The pairs from a place up to the body's end, into one word of the entries. A polygon's surface number and its part name count the names from 1, where a tag
// counts them from 0. A later tag of the same polygon is put over an earlier one, so that the last stands. The pairs were judged to be fine.
fn put_pairs(
    s: &[u8],
    from: Cursor,
    polygons: usize,
    names: usize,
    table: &mut [u32],
    i: usize,
    index: usize,
)
    requires { TagsRoom (whole 0 (many (pair polygons names)) from.at (drop from.at s.now)) polygons table.old i × (index < polygon_size) }
    ensures { PairsPut (whole 0 (many (pair polygons names)) from.at (drop from.at s.now)) polygons index table.old i table.new }
{
    let mut at = from.at;
    // A pair's length is its own, so the place is moved on by hand.
    while at < s.len() {
        let c = Cursor { at };
        let Ok((p, after)) = c.vx(s) else {
            return;
        };
        let Ok((tag, next)) = after.u2(s) else {
            return;
        };
        table[i + (p as usize * POLYGON_WORDS + index)] = tag + 1;
        at = next.at;
    }
}

// The polygons of the latest POLS stand in the table from the index i on. Only tags of surfaces and of parts are kept: a body of another type changes nothing.
pub fn put_taggings(s: &[u8], polygons: usize, names: usize, table: &mut [u32], i: usize)
    requires { TagsRoom (whole 0 (tagging_body polygons names) 8 (drop 8 s.now)) polygons table.old i }
    ensures { TagsPut (whole 0 (tagging_body polygons names) 8 (drop 8 s.now)) polygons table.old i table.new }
{
    let start = Cursor { at: 8 };
    let Ok((t, first)) = start.u4(s) else {
        return;
    };
    if t == SURF {
        put_pairs(s, first, polygons, names, table, i, SURFACE_WORD);
    } else if t == PART {
        put_pairs(s, first, polygons, names, table, i, PART_WORD);
    }
}
