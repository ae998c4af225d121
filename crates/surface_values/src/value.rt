// The value of a sub-chunk, by kind of file.
ghost use Rattle.format.specs.Surfaces.{value_of};
ghost use Rattle.surface_levels.specs.Promises.{ValueResultAt};

use format::Kind;
use lwo2_values::lwo2_value;
use lwob_values::lwob_value;
use surface_levels::sub_chunk::SubChunk;
use surface_levels::value::Value;
use wire::Refusal;

// The two kinds of file share tags and lay the bodies out differently. A sub-chunk that is not listed gives no value.
pub fn value_of(sub: SubChunk, tag: u32, kind: Kind) -> Result<Option<Value>, Refusal>
    ensures { ValueResultAt (value_of kind tag) sub.entry.head sub.entry.bytes.now result }
{
    match kind {
        Kind::LWOB => lwob_value(sub, tag),
        Kind::LWO2 => lwo2_value(sub, tag),
    }
}
