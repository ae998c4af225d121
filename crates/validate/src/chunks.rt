// The chunks of a file, one after the other: the first fault, or the counts.
ghost use Rattle.std.specs.Prelude.{◌≡◌, ◌+◌, ◌<◌, ◌≤◌, ◌^◌, length};
ghost use Rattle.format.specs.Refusals.{place_of};
ghost use Rattle.validate.specs.Promises.{all_of, OneMoreSeen, ChunksJudged};

use crate::counts::{Seen, Totals};
use format::Kind;
use headers::{Header, chunk_at};
use validate_chunk::chunk::judge;
use wire::Refusal;
use wire::cursor::Cursor;

// What was seen with one chunk more, or that chunk's fault. A chunk adds no more than it has bytes, so that no sum of the file's counts passes the file's length.
fn step(s: &[u8], kind: Kind, tag: u32, seen: Seen) -> Result<Seen, Refusal>
    requires { (8 ≤ length s.now) × (all_of seen.totals + length s.now < 2 ^ 64) }
    ensures { OneMoreSeen kind tag seen s.now result }
{
    let part = judge(s, kind, tag, seen.lengths)?;
    Ok(seen.with(part))
}

// The place in the file of a fault that lies so many bytes after its chunk's tag.
fn place(chunk: usize, at: usize) -> usize
    requires { chunk + at < 2 ^ 64 }
    ensures { result ≡ place_of chunk at }
{
    at + chunk
}

// Chunks in file order, so that the first fault is the one told, with its place in the file.
pub fn validate_chunks(file: &[u8], kind: Kind) -> Result<Totals, Refusal>
    ensures { ChunksJudged kind file.now result }
{
    let mut at = 12;
    let mut seen = Seen::default();
    // A chunk's length is its own, so the place is moved on by hand.
    while at < file.len() {
        let Header { tag, end, next } = chunk_at(file, Cursor { at })?;
        match step(&file[at..end], kind, tag, seen) {
            Err(f) => {
                return Err(Refusal {
                    why: f.why,
                    at: place(at, f.at),
                });
            }
            Ok(later) => {
                seen = later;
                at = next.at;
            }
        }
    }
    Ok(seen.totals)
}
