// Names at hand: up to 8,192 names of one slice of bytes, each as a word of its place and length, and an index of them by a hash of their bytes. A list of any
// length is compared with itself by blocks: a block of its names is at hand, and every later name is looked up there.
//
// `heads` has for each bucket the number of its last name, and `links` for each name the number of the one before it in its bucket; numbers count from 1, and 0
// is none. Names of one bucket are compared byte by byte, so that any multiplier gives the same answers; it is taken from the whole list and changes with each
// block, so that no list is slow for every multiplier.
#![tactic(auto)]

pub mod listed;

ghost use Rattle.std.specs.Prelude.{◌≡◌, ◌+◌, ◌-◌, ◌*◌, ◌<◌, ◌≤◌, leb};
ghost use Rattle.format.specs.Bytes.{same, amongst};
ghost use Rattle.format.specs.Limits.{name_limit};
ghost use Rattle.name_index.specs.Index.{first_multiplier, mixed, hash_of, multiplier_of, bucket_of, name_of, names_of, Inside, AllInside, Found};
ghost use Rattle.name_index.specs.NameIndex.{IsIndex, IsEmptyIndex, RoomForName, with_word, with_name, words_in};

use words::same_bytes;

// The most names at hand.
pub const ROOM: usize = 8192;

// The buckets of an index.
const BUCKETS: usize = 16384;

// So few names are compared one by one: an index of them would cost more than it saves.
pub const FEW: usize = 64;

// The multiplier by which a list's own is found: near 2^32 divided by the golden ratio, so that bytes next to each other come far apart.
const FIRST: u32 = 2654435761;

// One byte more in a hash.
fn mix(h: u32, b: u8, multiplier: u32) -> u32
    ensures { result ≡ mixed multiplier h b }
{
    let p = (h as u64 + b as u64) % 4294967296 * multiplier as u64;
    ((p / 4294967296 + p % 4294967296) % 4294967296) as u32
}

// The hash of some bytes.
fn hash(bytes: &[u8], multiplier: u32) -> u32
    ensures { result ≡ hash_of multiplier bytes.now }
{
    let mut h = 0;
    for b in bytes {
        h = mix(h, *b, multiplier);
    }
    h
}

// The multiplier that a list's bytes give. They are hashed a second time, from the first hash on and with a multiplier for each step that comes from the hash so
// far: whoever changes bytes to come to a wanted multiplier changes the way of all of them.
pub fn multiplier_of(list: &[u8]) -> u32
    ensures { result ≡ multiplier_of list.now }
{
    let mut h = hash(list, FIRST);
    for b in list {
        h = mix(h, *b, FIRST + h % 16777216);
    }
    h
}

// The multiplier of the next block.
pub fn next_multiplier(multiplier: u32) -> u32
    ensures { result ≡ mixed first_multiplier multiplier 1 }
{
    mix(multiplier, 1, FIRST)
}

// The bucket of a name.
fn bucket(name: &[u8], multiplier: u32) -> usize
    ensures { (result ≡ bucket_of multiplier name.now) × (result < 16384) }
{
    hash(name, multiplier) as usize % BUCKETS
}

// The word of the name of n bytes at a place.
pub fn word_of(base: usize, at: usize, n: usize) -> u32
    requires { (base ≤ at) × (at < base + 16777216) × (n ≤ name_limit) }
    ensures { result ≡ (at - base) * 256 + n }
{
    ((at - base) * 256 + n) as u32
}

// Whether the name of a word is this one.
fn is_name(name: &[u8], bytes: &[u8], base: usize, word: u32) -> bool
    requires { Inside bytes.now base word }
    ensures { result ≡ same name.now (name_of bytes.now base word) }
{
    let at = base + (word / 256) as usize;
    let end = at + (word % 256) as usize;
    same_bytes(name, &bytes[at..end])
}

// Whether a name is one of those at hand, which are compared one by one.
pub fn among(name: &[u8], bytes: &[u8], base: usize, places: &[u32]) -> bool
    requires { AllInside bytes.now base places.now }
    ensures { result ≡ amongst name.now (names_of bytes.now base places.now) }
{
    for word in places {
        if is_name(name, bytes, base, *word) {
            return true;
        }
    }
    false
}

// Some names of a slice of bytes, whose places count from the place `base`, and their index.
// Its memory is fixed, so that `count` says how many of the places and links are filled. These are two arrays, since a place has four bytes and a link two:
// joined, each entry would be filled up to eight. In links and heads 0 is none, which takes two bytes where an Option would take four.
#[derive(Drop)]
pub struct NameIndex<'a> {
    bytes: &'a [u8],
    base: usize,
    multiplier: u32,
    count: usize,
    places: [u32; ROOM],
    heads: [u16; BUCKETS],
    links: [u16; ROOM],
}

impl<'a> NameIndex<'a> {
    // No name is at hand yet.
    pub fn new(bytes: &'a [u8], base: usize, multiplier: u32) -> Self
        ensures { IsEmptyIndex bytes.now base multiplier result }
    {
        NameIndex {
            bytes,
            base,
            multiplier,
            count: 0,
            places: [0; ROOM],
            heads: [0; BUCKETS],
            links: [0; ROOM],
        }
    }

    // Whether as many names are at hand as may be.
    pub fn is_full(&self) -> bool
        ensures { result ≡ leb 8192 self.now.count }
    {
        ROOM <= self.count
    }

    // Where the name is among those at hand.
    pub fn find(&self, name: &[u8]) -> Option<usize>
        requires { IsIndex self.now }
        ensures { Found name.now self.now.bytes.now self.now.base (words_in self.now) result }
    {
        let words = &self.places[..self.count];
        let mut k = self.heads[bucket(name, self.multiplier)] as usize;
        // Each link leads to the next name of the bucket, and no range holds these steps.
        while k != 0 {
            if is_name(name, self.bytes, self.base, words[k - 1]) {
                return Some(k - 1);
            }
            k = self.links[k - 1] as usize;
        }
        None
    }

    // A name as one more, by its word. It says what each field is then, whatever the index was.
    pub fn add_word(&mut self, word: u32, name: &[u8])
        requires { self.old.count < 8192 }
        ensures { self.new ≡ with_word self.old word name.now }
    {
        let m = self.count;
        let b = bucket(name, self.multiplier);
        self.places[m] = word;
        self.links[m] = self.heads[b];
        self.heads[b] = (m + 1) as u16;
        self.count = m + 1;
    }

    // One name more, of n bytes at a place. That an index stays one is a law (`one_name_more`).
    pub fn add(&mut self, at: usize, n: usize)
        requires { RoomForName self.old at n }
        ensures { self.new ≡ with_name self.old at n }
    {
        let bytes = self.bytes;
        let end = at + n;
        let word = word_of(self.base, at, n);
        self.add_word(word, &bytes[at..end]);
    }
}
