// An index, in either of the forms that polygons have their vertices in: a U2 in an LWOB file, and a VX in an LWO2 file.
ghost use Rattle.std.specs.Prelude.{ℕ};
ghost use Rattle.format.specs.Items.{Reader, u2, vx};
ghost use Rattle.wire.specs.Promises.{ItemAt};

use crate::Read;
use crate::cursor::Cursor;

// What reads an index. Either form takes two bytes at least.
pub trait Index {
    ghost reader: { Reader ℕ };

    fn read(c: Cursor, s: &[u8]) -> Read<u32>
        ensures { ItemAt reader 2 s.now c.at result };
}

// Two bytes.
#[derive(Clone, Copy, Debug, PartialEq, Eq)]
pub struct U2;

// Two bytes, or four where the first is 255.
#[derive(Clone, Copy, Debug, PartialEq, Eq)]
pub struct Vx;

impl Index for U2 {
    ghost reader = { u2 };

    fn read(c: Cursor, s: &[u8]) -> Read<u32> {
        c.u2(s)
    }
}

impl Index for Vx {
    ghost reader = { vx };

    fn read(c: Cursor, s: &[u8]) -> Read<u32> {
        c.vx(s)
    }
}
