// One word of each entry of a table.
ghost use Rattle.std.specs.Prelude.{◌≡◌, ◌*◌, ◌≤◌, ◌<◌, length};
ghost use Rattle.format.specs.Bytes.{sum};
ghost use Rattle.format.specs.Limits.{entry_limit};
ghost use Rattle.format.specs.Mesh.{polygon_size};
ghost use Rattle.mesh.specs.Lent.{column};

// The sum of one word of each entry. It cannot wrap: there are at most 2 ^ 26 words, each below 2 ^ 32.
pub fn sum_of(words: &[u32], size: usize, index: usize) -> usize
    requires { (index < size) × (length words.now ≤ polygon_size * entry_limit) }
    ensures { result ≡ sum (column size index words.now) }
{
    let mut total = 0;
    for entry in words.chunks_exact(size) {
        total += entry[index] as usize;
    }
    total
}
