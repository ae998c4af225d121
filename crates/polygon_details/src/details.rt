// The details of a face of an LWOB file.
ghost use Rattle.std.specs.Prelude.{length};
ghost use Rattle.format.specs.Items.{times};
ghost use Rattle.format.specs.Bodies.{detail, details};
ghost use Rattle.format.specs.Promises.{Keeps, ReadsAt, each};
ghost use Rattle.wire.specs.Promises.{StepAt, read_as};
ghost use Rattle.polygon_details.specs.Promises.{details_if};

use format::Fault;
use polygon_vertices::lwob_entry::{in_name_list, lwob_entry_at};
use wire::cursor::Cursor;
use wire::{Read, Refusal};

// A detail has no details of its own, so that a negative surface number is a fault, and another one than a number that names nothing.
// How many points there are and how many names stay two numbers: a vertex is judged by the one alone, a surface number by the other.
fn one_detail(s: &[u8], c: Cursor, points: usize, names: usize) -> Result<Cursor, Refusal>
    ensures { StepAt (detail points names) 2 s.now c.at result }
{
    let entry = lwob_entry_at(s, c, points)?;
    let at = entry.at;
    if entry.sign.negative {
        return Err(Refusal {
            why: Fault::DetailSurface,
            at,
        });
    }
    if in_name_list(entry.sign.number, names) {
        Ok(entry.next)
    } else {
        Err(Refusal {
            why: Fault::SurfaceNumber,
            at,
        })
    }
}

// So many details, which were announced by a count.
fn detail_run(s: &[u8], from: Cursor, n: usize, points: usize, names: usize) -> Read<usize>
    ensures { Keeps (times n (detail points names)) length (each 2) s.now from.at (read_as s.now result) }
{
    let mut c = from;
    for _ in 0..n {
        c = one_detail(s, c, points, names)?;
    }
    Ok((n, c))
}

// The details of a face are checked and counted, and not kept.
fn details(s: &[u8], c: Cursor, points: usize, names: usize) -> Read<usize>
    ensures { ReadsAt (details points names) (each 2) s.now c.at (read_as s.now result) }
{
    let (n, next) = c.u2(s)?;
    detail_run(s, next, n as usize, points, names)
}

// The details that follow a surface number: none unless it is negative.
pub fn details_after(
    s: &[u8],
    c: Cursor,
    negative: bool,
    points: usize,
    names: usize,
) -> Read<usize>
    ensures { ReadsAt (details_if negative points names) (each 2) s.now c.at (read_as s.now result) }
{
    if negative {
        details(s, c, points, names)
    } else {
        Ok((0, c))
    }
}
