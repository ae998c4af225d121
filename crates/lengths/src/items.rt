// The lengths of items and chunks.
ghost use Rattle.std.specs.Prelude.{map, ◌+◌, ◌*◌, ◌≤◌, ◌<◌, ◌^◌, length};
ghost use Rattle.format.specs.Bytes.{sum};
ghost use Rattle.format.specs.Limits.{entry_limit};
ghost use Rattle.format.specs.Items.{string_size};
ghost use Rattle.format.specs.Chunks.{size_of};
ghost use Rattle.format.specs.Canonical.{vx_bytes};
ghost use Rattle.format.specs.Promises.{total};
ghost use Rattle.lengths.specs.Sizes.{Counted, unless_none};

use format::FIRST_LONG_INDEX;

// The shortest VX.
pub fn vx_length(n: usize) -> usize
    ensures { Counted result (length (vx_bytes n)) 4 }
{
    if n < FIRST_LONG_INDEX as usize { 2 } else { 4 }
}

// A name of n bytes with its one or two zeros.
pub fn string_length(n: usize) -> usize
    requires { n < 2 ^ 32 }
    ensures { Counted result (string_size n) (2 ^ 32 + 2) }
{
    n + 2 - n % 2
}

// A chunk of the file with n bytes in its body, with its header and its pad.
pub fn chunk_length(n: usize) -> usize
    requires { n < 2 ^ 60 }
    ensures { Counted result (size_of 4 n) (n + 9) }
{
    8 + n + n % 2
}

// A chunk that is left out where it would hold none of its entries.
pub fn unless_empty(count: usize, n: usize) -> usize
    requires { n < 2 ^ 60 }
    ensures { Counted result (unless_none count n) (n + 9) }
{
    if count == 0 { 0 } else { chunk_length(n) }
}

// Vertices, a VX each.
pub fn vertices_length(vertices: &[u32]) -> usize
    ensures { Counted result (total vx_bytes vertices.now) (4 * length vertices.now) }
{
    let mut bytes = 0;
    for vertex in vertices {
        bytes += vx_length(*vertex as usize);
    }
    bytes
}

// The names of a TAGS chunk, of which only their lengths count.
pub fn strings_length(lengths: &[u32]) -> usize
    requires { length lengths.now ≤ entry_limit }
    ensures { Counted result (sum (map string_size lengths.now)) (2 ^ 57) }
{
    let mut bytes = 0;
    for length in lengths {
        bytes += string_length(*length as usize);
    }
    bytes
}
