// The body of a SRFS or TAGS chunk.
ghost use Rattle.format.specs.Bodies.{names_body};
ghost use Rattle.format.specs.Promises.{Judged};
ghost use Rattle.validate_lists.specs.Promises.{NameAt, Amongst, NewName, name_sizes, names_as};

use format::Fault;
use wire::Refusal;
use wire::cursor::Cursor;
use words::same_bytes;

// How many names there are, and how many bytes they have.
#[derive(Clone, Copy, Debug, PartialEq, Eq)]
pub struct NameSizes {
    pub count: usize,
    pub bytes: usize,
}

// Whether the name of n bytes at a place is one of those before it. No list of names is kept, so each is read again.
fn earlier(s: &[u8], at: usize, n: usize) -> bool
    requires { NameAt s.now at n }
    ensures { Amongst s.now at n result }
{
    let name = &s[at..at + n];
    let mut p = 8;
    // A name's length is its own, so the place is moved on by hand.
    while p < at {
        let c = Cursor { at: p };
        let Ok((m, next)) = c.string(s) else {
            return false;
        };
        let last = p + m;
        if same_bytes(name, &s[p..last]) {
            return true;
        }
        p = next.at;
    }
    false
}

// Whether the name may stand after those before it. A name that is too long need not be compared.
fn new_name(s: &[u8], at: usize, n: usize) -> bool
    requires { NameAt s.now at n }
    ensures { NewName s.now at n result }
{
    if 255 < n {
        return false;
    }
    !earlier(s, at, n)
}

// A string that is not ended is one fault, and a name that is too long or not new is another, both at the name.
pub fn names_body(s: &[u8]) -> Result<NameSizes, Refusal>
    ensures { Judged names_body name_sizes s.now (names_as result) }
{
    let mut at = 8;
    let mut count = 0;
    let mut bytes = 0;
    // A name's length is its own, so the place is moved on by hand.
    while at < s.len() {
        let c = Cursor { at };
        let (n, next) = c.string(s)?;
        if !new_name(s, at, n) {
            return Err(Refusal {
                why: Fault::BadName,
                at,
            });
        }
        count += 1;
        bytes += n;
        at = next.at;
    }
    Ok(NameSizes { count, bytes })
}
