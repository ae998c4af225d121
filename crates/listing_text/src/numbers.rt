// Numbers put into the output, each behind its label.
ghost use Rattle.std.specs.Prelude.{◌+◌, ◌≤◌, length};
ghost use Rattle.listing_text.specs.Text.{decimal, labelled, count_line};
ghost use Rattle.listing_text.specs.Prints.{Prints, number_size, count_size};

use output::items::put_bytes;

// The library puts the digits into an array of their own, from where they are copied.
fn put_decimal(out: &mut [u8], at: usize, n: usize) -> usize
    requires { at + number_size ≤ length out.old }
    ensures { Prints out.old at (decimal n) out.new result number_size }
{
    let mut digits = [0u8; 20];
    let count = io::decimal(n as u64, &mut digits);
    put_bytes(out, at, &digits[..count])
}

// A number behind a label, which has its own blanks.
pub fn put_labelled(out: &mut [u8], at: usize, label: &[u8], n: usize) -> usize
    requires { at + (length label.now + number_size) ≤ length out.old }
    ensures { Prints out.old at (labelled label.now n) out.new result (length label.now + number_size) }
{
    let next = put_bytes(out, at, label);
    put_decimal(out, next, n)
}

// A line with a label and a count.
pub fn put_count(out: &mut [u8], at: usize, label: &[u8], n: usize) -> usize
    requires { at + count_size label.now ≤ length out.old }
    ensures { Prints out.old at (count_line label.now n) out.new result (count_size label.now) }
{
    let next = put_labelled(out, at, label, n);
    put_bytes(out, next, b"\n")
}
