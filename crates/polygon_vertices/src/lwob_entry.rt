// What every polygon of an LWOB file starts with.
ghost use Rattle.std.specs.Prelude.{◌≡◌};
ghost use Rattle.format.specs.Bytes.{between};
ghost use Rattle.polygon_vertices.specs.Promises.{LwobEntryAt};

use crate::vertices::lwob_vertices;
use wire::Refusal;
use wire::cursor::{Cursor, SignedSurface};

// How many vertices a polygon has, and its surface number, which stands at `at`: faces, details and patches judge it each in another way.
#[derive(Clone, Copy, Debug, PartialEq, Eq)]
pub struct LwobEntry {
    pub vertices: usize,
    pub at: usize,
    pub sign: SignedSurface,
    pub next: Cursor,
}

// The vertices and the surface number behind them.
pub fn lwob_entry_at(s: &[u8], c: Cursor, points: usize) -> Result<LwobEntry, Refusal>
    ensures { LwobEntryAt points s.now c.at result }
{
    let (vertices, after) = lwob_vertices(s, c, points)?;
    let at = after.at;
    let (sign, next) = after.surface_number(s)?;
    Ok(LwobEntry {
        vertices,
        at,
        sign,
        next,
    })
}

// Whether a surface number names one of the names: they are numbered from 1, so that 0 names nothing.
pub fn in_name_list(number: u32, names: usize) -> bool
    ensures { result ≡ between 1 names number }
{
    let n = number as usize;
    (1 <= n) & (n <= names)
}
