// The headers of chunks and sub-chunks: tag, length within the parent, and pad, judged together.
#![tactic(auto)]

ghost use Rattle.std.specs.Prelude.{◌≡◌, ◌≤◌, ◌<◌, ◌==◌};
ghost use Rattle.std.specs.List.{list_all};
ghost use Rattle.format.specs.Bytes.{between};
ghost use Rattle.headers.specs.Promises.{HeaderAt};

use format::Fault;
use wire::Refusal;
use wire::cursor::{Cursor, left, number_at, word};

// A well-formed chunk: its tag, the place where its body ends, and the cursor after its pad.
#[derive(Clone, Copy, Debug, PartialEq, Eq)]
pub struct Header {
    pub tag: u32,
    pub end: usize,
    pub next: Cursor,
}

// A character that is printed.
fn tag_byte(b: u8) -> bool
    ensures { result ≡ between 32 126 b }
{
    (32 <= b) & (b <= 126)
}

// The four bytes of a tag.
fn tag_ok(tag: &[u8]) -> bool
    ensures { result ≡ list_all (between 32 126) tag.now }
{
    tag.iter().all(|b| tag_byte(*b))
}

// The pad, which is a zero byte where the length is odd, and else nothing.
fn pad_ok(pad: &[u8]) -> bool
    ensures { result ≡ list_all (λ b. b == 0) pad.now }
{
    pad.iter().all(|b| *b == 0)
}

// A chunk whose length has WIDTH bytes. Whatever is wrong with its header is one fault.
fn header_at<const WIDTH: usize>(s: &[u8], c: Cursor) -> Result<Header, Refusal>
    requires { (0 < WIDTH) × (WIDTH ≤ 4) }
    ensures { HeaderAt WIDTH s.now c.at result }
{
    let at = c.at;
    let bad = Refusal {
        why: Fault::BadHeader,
        at,
    };
    let head = 4 + WIDTH;
    if left(s, at) < head {
        return Err(bad);
    }
    if !tag_ok(&s[at..at + 4]) {
        return Err(bad);
    }
    let n = number_at::<WIDTH>(s, at + 4) as usize;
    let odd = n % 2;
    if left(s, at) < head + n + odd {
        return Err(bad);
    }
    let end = at + head + n;
    let next = end + odd;
    if !pad_ok(&s[end..next]) {
        return Err(bad);
    }
    Ok(Header {
        tag: word(s, at),
        end,
        next: Cursor { at: next },
    })
}

// A chunk of a file.
pub fn chunk_at(s: &[u8], c: Cursor) -> Result<Header, Refusal>
    ensures { HeaderAt 4 s.now c.at result }
{
    header_at::<4>(s, c)
}

// A sub-chunk of a chunk.
pub fn sub_at(s: &[u8], c: Cursor) -> Result<Header, Refusal>
    ensures { HeaderAt 2 s.now c.at result }
{
    header_at::<2>(s, c)
}
