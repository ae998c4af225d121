// The strings that the body of a SURF starts with.
ghost use Rattle.surface_values.specs.Promises.{StringsAt};

use format::Kind;
use wire::Refusal;
use wire::cursor::Cursor;

// The strings before the sub-chunks: the name and, in LWO2, the source. The cursor after them is kept.
pub fn strings(s: &[u8], kind: Kind) -> Result<Cursor, Refusal>
    ensures { StringsAt kind s.now result }
{
    let first = Cursor { at: 8 };
    let (_, after) = first.string(s)?;
    match kind {
        Kind::LWOB => Ok(after),
        Kind::LWO2 => {
            let (_, last) = after.string(s)?;
            Ok(last)
        }
    }
}
