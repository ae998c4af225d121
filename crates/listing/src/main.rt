// Reads an object file from standard input and prints its listing. Nothing but the three standard streams and the program's own buffers is touched.
#![tactic(auto)]

use listing_input::read_input;
use listing_output::{NAME_BYTES, NAMES, OUTPUT, POINTS, POLYGONS, RECORDS, VERTICES, put_output};
use std::io::Write;

// One byte more than an input may have, so that a longer one is seen.
const INPUT: usize = 65537;

// What could not be read or written is told on standard error alone: the program's exit status is 0 always.
fn main(rt: HostRuntime) {
    let mut buffer = [0u8; INPUT];
    let Ok(length) = read_input(&mut rt.stdin(), &mut buffer) else {
        let _ = eprintln!(rt; "listing: standard input cannot be read");
        return;
    };
    let mut points = [0u32; POINTS];
    let mut polygons = [0u32; POLYGONS];
    let mut vertices = [0u32; VERTICES];
    let mut names = [0u32; NAMES];
    let mut name_bytes = [0u8; NAME_BYTES];
    let mut records = [0u32; RECORDS];
    let mut out = [0u8; OUTPUT];
    let end = put_output(
        &mut out,
        &buffer[..length],
        buffer.len(),
        &mut points,
        &mut polygons,
        &mut vertices,
        &mut names,
        &mut name_bytes,
        &mut records,
    );
    if rt.stdout().write_all(&out[..end]).is_err() {
        let _ = eprintln!(rt; "listing: standard output cannot be written");
    }
}
