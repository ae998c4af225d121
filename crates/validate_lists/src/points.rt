// The body of a PNTS chunk.
ghost use Rattle.std.specs.Prelude.{◌≡◌, ◌+◌, ◌*◌, ◌≤◌, length, take, drop};
ghost use Rattle.format.specs.Bytes.{number, finite};
ghost use Rattle.format.specs.Items.{float};
ghost use Rattle.format.specs.Bodies.{point, whole_points, points_body};
ghost use Rattle.format.specs.Promises.{nothing, Says, Judged};
ghost use Rattle.wire.specs.Promises.{verdict_as};
ghost use Rattle.validate_lists.specs.Promises.{point_count, fine_to};

use format::{Fault, Kind};
use wire::Refusal;
use wire::cursor::left;

// PNTS's own length rule: whole points of 12 bytes each, and in an LWOB file not too many.
fn whole_points(n: usize, kind: Kind) -> bool
    ensures { result ≡ whole_points kind n }
{
    match kind {
        Kind::LWOB => (n % 12 == 0) & (n / 12 <= 65536),
        Kind::LWO2 => n % 12 == 0,
    }
}

// The bits of a float's exponent: seven are the low ones of its first byte, and the eighth is the high one of its second. Here the low byte is the first, as the
// processor takes two bytes: turned round, each float takes an instruction more.
const EXPONENT: u16 = 127 + 128 * 256;

// Whether the float at a place is finite. Two of its four bytes are looked at.
fn is_finite_at(s: &[u8], at: usize) -> bool
    requires { at + 4 ≤ length s.now }
    ensures { result ≡ finite (number (take 4 (drop at s.now))) }
{
    (s[at] as u16 + s[at + 1] as u16 * 256) & EXPONENT != EXPONENT
}

// The float at a place is finite. None is cut, since the body's length is judged first.
fn finite_at(s: &[u8], at: usize) -> Result<(), Refusal>
    requires { at + 4 ≤ length s.now }
    ensures { Says float nothing s.now at (fine_to s.now (at + 4) result) }
{
    if is_finite_at(s, at) {
        Ok(())
    } else {
        Err(Refusal {
            why: Fault::NotFinite,
            at,
        })
    }
}

// The floats of the point at a place are finite. The first that is not is told.
fn finite_point(s: &[u8], at: usize) -> Result<(), Refusal>
    requires { at + 12 ≤ length s.now }
    ensures { Says point nothing s.now at (fine_to s.now (at + 12) result) }
{
    finite_at(s, at)?;
    finite_at(s, at + 4)?;
    finite_at(s, at + 8)
}

// The length comes before the floats, so that each point costs three tests and no test of what is left. The answer is how many points there are.
pub fn points_body(s: &[u8], kind: Kind) -> Result<usize, Refusal>
    ensures { Judged (points_body kind) point_count s.now (verdict_as result) }
{
    let n = left(s, 8);
    if !whole_points(n, kind) {
        return Err(Refusal {
            why: Fault::WrongLength,
            at: 0,
        });
    }
    for i in 0..n / 12 {
        finite_point(s, 8 + i * 12)?;
    }
    Ok(n / 12)
}
