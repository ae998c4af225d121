// The pairs of a PTAG chunk put into the output.
ghost use Rattle.std.specs.Prelude.{◌≡◌, ◌+◌, ◌*◌, ◌≤◌, ◌<◌, ◌^◌, eqb, length};
ghost use Rattle.format.specs.Bytes.{all};
ghost use Rattle.format.specs.Limits.{entry_limit};
ghost use Rattle.format.specs.Mesh.{polygon_size};
ghost use Rattle.mesh.specs.Lent.{column};
ghost use Rattle.output.specs.Outputs.{Wrote};
ghost use Rattle.mesh.specs.Polygons.{pair_of, pairs_from};

use format::POLYGON_WORDS;
use output::items::{put_u2, put_vx};

// The pair of polygon i, or nothing where its surface number, or its part name, is 0. Tags count from 0.
fn put_pair(out: &mut [u8], at: usize, i: u32, number: u32) -> usize
    requires { (i < 2 ^ 24) × (at + length (pair_of i number) ≤ length out.old) }
    ensures { Wrote out.old at (pair_of i number) out.new result }
{
    if number == 0 {
        return at;
    }
    let next = put_vx(out, at, i);
    put_u2(out, next, number - 1)
}

// Whether a word of an entry, the surface number or the part name, is 0 in every polygon of a run.
pub fn no_pairs(run: &[u32], index: usize) -> bool
    requires { index < polygon_size }
    ensures { result ≡ all (λ n. eqb n 0) (column polygon_size index run.now) }
{
    for entry in run.chunks_exact(POLYGON_WORDS) {
        if entry[index] != 0 {
            return false;
        }
    }
    true
}

// The polygons are walked in order, so that the pairs ascend.
pub fn put_pairs(out: &mut [u8], at: usize, run: &[u32], index: usize) -> usize
    requires { (length run.now ≤ polygon_size * entry_limit) × (index < polygon_size) × (at + length (pairs_from 0 (column polygon_size index run.now)) ≤ length out.old) }
    ensures { Wrote out.old at (pairs_from 0 (column polygon_size index run.now)) out.new result }
{
    let mut next = at;
    for (i, entry) in run.chunks_exact(POLYGON_WORDS).enumerate() {
        next = put_pair(out, next, i as u32, entry[index]);
    }
    next
}
