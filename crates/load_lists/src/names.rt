// The names of a SRFS or TAGS body, and of a file, into the tables of lengths and of bytes.
ghost use Rattle.std.specs.Prelude.{◌≡◌, length};
ghost use Rattle.format.specs.Promises.{FileRoom, FilePut, names_tag};
ghost use Rattle.load_lists.specs.Promises.{NamesRoom, NamesPut, file_name_lengths, file_name_bytes};

use format::Kind;
use format::tags::{SRFS, TAGS};
use headers::{Header, chunk_at};
use wire::cursor::Cursor;

// The bytes of a name. One by one, so that the C library is asked for no more than memset.
fn copy_name(from: &[u8], to: &mut [u8])
    requires { length from.now ≡ length to.old }
    ensures { to.new ≡ from.now }
{
    for (i, byte) in from.iter().enumerate() {
        to[i] = *byte;
    }
}

// A length each from the index k on, and their bytes joined, without terminators, from the index b on.
// The two tables are lent one by one: of a struct of `&mut` slices the contract would have to say once more which slice is which after the call.
pub fn put_names(s: &[u8], lengths: &mut [u32], k: usize, bytes: &mut [u8], b: usize)
    requires { NamesRoom s.now lengths.old k bytes.old b }
    ensures { NamesPut s.now lengths.old k lengths.new bytes.old b bytes.new }
{
    let mut at = 8;
    let mut i = k;
    let mut m = b;
    // A name's length is its own, so the place is moved on by hand.
    while at < s.len() {
        let c = Cursor { at };
        let Ok((n, next)) = c.string(s) else {
            return;
        };
        lengths[i] = n as u32;
        copy_name(&s[at..at + n], &mut bytes[m..m + n]);
        i += 1;
        m += n;
        at = next.at;
    }
}

// Whether a chunk holds the names, by its tag.
fn holds_names(kind: Kind, tag: u32) -> bool
    ensures { result ≡ names_tag kind tag }
{
    match kind {
        Kind::LWOB => tag == SRFS,
        Kind::LWO2 => tag == TAGS,
    }
}

// A file has one list of names at most, so the chunks after it are not looked at.
pub fn fill_names(file: &[u8], kind: Kind, lengths: &mut [u32], bytes: &mut [u8])
    requires { FileRoom file_name_lengths kind file.now lengths.old × FileRoom file_name_bytes kind file.now bytes.old }
    ensures { FilePut file_name_lengths kind file.now lengths.old lengths.new × FilePut file_name_bytes kind file.now bytes.old bytes.new }
{
    let mut at = 12;
    // A chunk's length is its own, so the place is moved on by hand.
    while at < file.len() {
        let Ok(Header { tag, end, next }) = chunk_at(file, Cursor { at }) else {
            return;
        };
        if holds_names(kind, tag) {
            put_names(&file[at..end], lengths, 0, bytes, 0);
            return;
        }
        at = next.at;
    }
}
