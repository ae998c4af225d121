// What the listing program prints for an input: its tables, its limits, and the text put into a lent output. Nothing but the tables and that output is touched.
#![tactic(auto)]

ghost use Rattle.std.specs.Prelude.{◌<◌};
ghost use Rattle.io.specs.Counts.{IsPrefixLen};
ghost use Rattle.listing_output.specs.Program.{input_limit, PrintsInput};

use format::{POINT_WORDS, POLYGON_WORDS, RECORD_WORDS};
use listing_answer::put_listing;
use output::items::put_bytes;
use reader::read;

// 5,461 points, 4,096 polygons, 16,384 vertices, 256 names with their records, and 8,192 name bytes.
pub const POINTS: usize = 5461 * POINT_WORDS;

pub const POLYGONS: usize = 4096 * POLYGON_WORDS;

pub const VERTICES: usize = 16384;

pub const NAMES: usize = 256;

pub const NAME_BYTES: usize = 8192;

pub const RECORDS: usize = 256 * RECORD_WORDS;

// 214 bytes for the counts, 119 for each polygon and 21 for each vertex: no listing is longer.
pub const OUTPUT: usize = 831702;

// What the program prints for its input, of which as much was read as there was room for. The tables are lent for the reading.
// The tables are lent one by one: of a struct of `&mut` slices the contract would have to say once more which slice is which after the call.
pub fn put_output(
    out: &mut [u8; OUTPUT],
    input: &[u8],
    room: usize,
    points: &mut [u32; POINTS],
    polygons: &mut [u32; POLYGONS],
    vertices: &mut [u32; VERTICES],
    names: &mut [u32; NAMES],
    name_bytes: &mut [u8; NAME_BYTES],
    records: &mut [u32; RECORDS],
) -> usize
    requires { input_limit < room }
    ensures prints_input { PrintsInput input.now room out.old out.new result }
    ensures prefix_len { IsPrefixLen result out.new }
{
    if 65536 < input.len() {
        return put_bytes(out, 0, b"not read\n");
    }
    let answer = read(
        input, points, polygons, vertices, names, name_bytes, records,
    );
    put_listing(out, answer, polygons, vertices)
}
