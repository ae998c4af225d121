// The nesting of sub-chunks, checked level by level.
ghost use Rattle.std.specs.Prelude.{◌≡◌, ◌+◌, eqb};
ghost use Rattle.format.specs.declared.Container.TheVariants.{Surf, Blok};
ghost use Rattle.format.specs.Surfaces.{value_of, attribute, block_type, block_header, block, held};
ghost use Rattle.validate_surfaces.specs.Promises.{BodyAt, SubChunkAt, NestedAt};

use format::tags::{BLOK, GRAD, IMAP, PROC, SHDR, TMAP};
use format::{Container, Fault, Kind};
use headers::{Header, sub_at};
use surface_levels::sub_chunk::SubChunk;
use surface_values::value::value_of;
use wire::Refusal;
use wire::cursor::{Cursor, left};

// The sub-chunks that a body holds from a place on, which are left to check.
#[derive(Clone, Copy, Debug, PartialEq, Eq)]
pub struct Below {
    pub from: Cursor,
    pub inner: Container,
}

// A sub-chunk that was judged: what its body holds, the place where the body ends, and the cursor after it.
#[derive(Clone, Copy, Debug, PartialEq, Eq)]
pub struct JudgedSubChunk {
    pub below: Option<Below>,
    pub end: usize,
    pub next: Cursor,
}

// Whether a sub-chunk's header follows that of its BLOK.
fn is_first(head: usize, blok: usize) -> bool
    ensures { result ≡ eqb head (blok + 6) }
{
    6 <= head && head - 6 == blok
}

// The tags of a block's header.
fn is_block_type(tag: u32) -> bool
    ensures { result ≡ block_type tag }
{
    matches!(tag, IMAP | PROC | GRAD | SHDR)
}

// A sub-chunk below a SURF that is no block header: a TMAP holds sub-chunks, and another is not looked at.
fn attribute(sub: SubChunk, tag: u32) -> Result<Option<Below>, Refusal>
    ensures { BodyAt (λ inner. attribute inner tag) sub.entry.head sub.entry.bytes.now result }
{
    if tag == TMAP {
        return Ok(Some(Below {
            from: sub.body(),
            inner: Container::Attributes,
        }));
    }
    Ok(None)
}

// The first sub-chunk of a BLOK: a string, and then sub-chunks.
fn block_header(sub: SubChunk, blok: usize, tag: u32) -> Result<Option<Below>, Refusal>
    ensures { BodyAt (λ inner. block_header inner blok tag) sub.entry.head sub.entry.bytes.now result }
{
    if !is_block_type(tag) {
        return Err(Refusal {
            why: Fault::SurfaceValue,
            at: blok,
        });
    }
    let c = sub.body();
    let (_, next) = c.string(sub.bytes)?;
    Ok(Some(Below {
        from: next,
        inner: Container::Attributes,
    }))
}

// A BLOK, which holds a sub-chunk at least.
fn block(sub: SubChunk) -> Result<Option<Below>, Refusal>
    ensures { BodyAt block sub.entry.head sub.entry.bytes.now result }
{
    let from = sub.body();
    if left(sub.bytes, from.at) == 0 {
        return Err(Refusal {
            why: Fault::SurfaceValue,
            at: sub.head,
        });
    }
    Ok(Some(Below {
        from,
        inner: Container::Blok(sub.head),
    }))
}

// A sub-chunk of SURF's own that is no container.
fn value(sub: SubChunk, tag: u32, kind: Kind) -> Result<Option<Below>, Refusal>
    ensures { BodyAt (λ inner. value_of kind tag) sub.entry.head sub.entry.bytes.now result }
{
    value_of(sub, tag, kind)?;
    Ok(None)
}

// A sub-chunk of SURF's own. Only LWO2 has blocks.
fn in_surface(sub: SubChunk, tag: u32, kind: Kind) -> Result<Option<Below>, Refusal>
    ensures { BodyAt (λ inner. held inner (Surf kind) tag) sub.entry.head sub.entry.bytes.now result }
{
    match kind {
        Kind::LWOB => value(sub, tag, Kind::LWOB),
        Kind::LWO2 => {
            if tag == BLOK {
                return block(sub);
            }
            value(sub, tag, Kind::LWO2)
        }
    }
}

// A sub-chunk of a BLOK. The first is its header.
fn in_block(sub: SubChunk, blok: usize, tag: u32) -> Result<Option<Below>, Refusal>
    ensures { BodyAt (λ inner. held inner (Blok blok) tag) sub.entry.head sub.entry.bytes.now result }
{
    if is_first(sub.head, blok) {
        block_header(sub, blok, tag)
    } else {
        attribute(sub, tag)
    }
}

// What is left to check of a body, by what the sub-chunk stands in.
fn held(sub: SubChunk, tag: u32, container: Container) -> Result<Option<Below>, Refusal>
    ensures { BodyAt (λ inner. held inner container tag) sub.entry.head sub.entry.bytes.now result }
{
    match container {
        Container::Surf(kind) => in_surface(sub, tag, kind),
        Container::Blok(blok) => in_block(sub, blok, tag),
        Container::Attributes => attribute(sub, tag),
    }
}

// The header is judged before the body.
fn sub_chunk(s: &[u8], c: Cursor, container: Container) -> Result<JudgedSubChunk, Refusal>
    ensures { SubChunkAt container s.now c.at result }
{
    let Header { tag, end, next } = sub_at(s, c)?;
    let sub = SubChunk {
        bytes: &s[..end],
        head: c.at,
    };
    let below = held(sub, tag, container)?;
    Ok(JudgedSubChunk { below, end, next })
}

// The sub-chunks of a container from a place to the slice's end, and those of the containers among them, as many levels as the depth allows.
pub(crate) fn sub_chunks(
    s: &[u8],
    from: Cursor,
    container: Container,
    depth: u32,
) -> Result<(), Refusal>
    ensures { NestedAt depth container s.now from.at result }
{
    if depth == 0 {
        return Ok(());
    }
    let mut at = from.at;
    // A sub-chunk's length is its own, so the place is moved on by hand.
    while at < s.len() {
        let sub = sub_chunk(s, Cursor { at }, container)?;
        if let Some(Below { from, inner }) = sub.below {
            sub_chunks(&s[..sub.end], from, inner, depth - 1)?;
        }
        at = sub.next.at;
    }
    Ok(())
}
