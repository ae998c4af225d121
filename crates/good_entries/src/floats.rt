// Floats, which are the coordinates of points and the levels of records.
ghost use Rattle.std.specs.Prelude.{◌≡◌};
ghost use Rattle.format.specs.Bytes.{finite, all};

use words::is_finite;

// No word has the bits of an infinity or a NaN.
pub fn all_finite(words: &[u32]) -> bool
    ensures { result ≡ all finite words.now }
{
    words.iter().all(|word| is_finite(*word))
}
