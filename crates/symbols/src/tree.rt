// The names that stand at places of a text, in a tree. A name has a first link by its hash; from a name that is another one's it goes on by one of two links,
// by a bit of the hash, then of its own bytes. So it passes no more names than it and a hash have bits, whatever the names are.
#![tactic(auto)]

ghost use Rattle.std.specs.Prelude.{List, ℕ, true, ◌≡◌, ◌+◌, ◌<◌, ◌≤◌, length, replicate};
ghost use Rattle.names.specs.Name.{same};
ghost use Rattle.tokens.specs.Unread.{bytes_between};
ghost use Rattle.symbols.specs.Links.{mix, hash, tag, first_link, side};
ghost use Rattle.symbols.specs.Entry.{place_in, tag_in, length_in, named};
ghost use Rattle.symbols.specs.Tree.{names_of, Roomy, IsTree, FindsSlot, Vacant, HasRoom, Grows};

use tokens::Span;
use words::list::at_or;

// the first links
const ROOTS: usize = 8192;

// a hash is below HASHES; MULTIPLIER is that over the golden ratio
const HASHES: u64 = 4294967296;

const MULTIPLIER: u64 = 2654435769;

// an entry has a place below PLACES, of a hash a tag below TAGS, and a length below LENGTHS; UNIT is the entry of place 1
const PLACES: usize = 1099511627776;

const TAGS: usize = 262144;

const LENGTHS: usize = 64;

const UNIT: usize = 16777216;

#[derive(Drop)]
pub struct Tree<'a> {
    // how many names it has
    pub count: usize,
    // the place and the length of each, in a lent list of as many as there is room for
    pub entries: &'a mut [u64],
    // of the first links and then of two for each name: 1 more than the number of the name that a link leads to, 0 where it leads nowhere
    pub links: &'a mut [u16],
}

// Where a name stands: its number, or the link that leads nowhere and is to lead to it.
#[derive(Clone, Copy, Debug, PartialEq, Eq)]
pub enum Slot {
    Taken(usize),
    Free(usize),
}

// A hash and one byte more.
#[tactic(auto, unfolding(crate::specs::Links::mix))]
#[inline(always)]
fn mixed(h: u32, b: u8) -> u32
    ensures { result ≡ mix h b }
{
    ((u64::from(h) * 257 + u64::from(b)) % HASHES) as u32
}

// The hash of a name.
#[tactic(auto, unfolding(crate::specs::Links::hash))]
#[inline(always)]
fn hash_of(name: &[u8]) -> u32
    ensures { result ≡ hash name.now }
{
    let h = name.iter().fold(0, |h, &b| mixed(h, b));
    (u64::from(h) * MULTIPLIER % HASHES) as u32
}

// The first link of a hash.
#[inline(always)]
fn first_link(h: u32) -> usize
    ensures { (result ≡ first_link h) × (result < 8192) }
{
    (h >> 19) as usize
}

// The side of a name at a depth: a bit of its hash, then of its bytes.
#[tactic(auto, unfolding(crate::specs::Links::side))]
#[inline(always)]
fn side(name: &[u8], h: u32, depth: usize) -> usize
    ensures { (result ≡ side h name.now depth) × (result < 2) }
{
    if depth < 19 {
        return (h >> (18 - depth)) as usize % 2;
    }
    let bit = depth - 19;
    (at_or(name, bit / 8, 0) >> (bit % 8)) as usize % 2
}

// What the entry of a name has of its hash.
#[tactic(auto, unfolding(crate::specs::Links::tag))]
#[inline(always)]
fn tag_of(h: u32) -> usize
    ensures { (result ≡ tag h) × (result < 262144) }
{
    h as usize % TAGS
}

// The tag of an entry.
#[tactic(auto, unfolding(crate::specs::Entry::tag_in))]
#[inline(always)]
fn tag_in(e: u64) -> usize
    ensures { result ≡ tag_in e }
{
    e as usize / LENGTHS % TAGS
}

// Whether an entry has a name. The text is read where the tags agree.
#[tactic(auto, unfolding(crate::specs::Entry::place_in, crate::specs::Entry::length_in))]
#[inline(always)]
fn is_named(text: &[u8], e: u64, name: &[u8], h: u32) -> bool
    requires inside { place_in e + length_in e ≤ length text.now }
    requires tagged { tag_in e ≡ tag (hash (named text.now e)) }
    requires hashed { h ≡ hash name.now }
    ensures { result ≡ same name.now (named text.now e) }
{
    if tag_in(e) != tag_of(h) {
        return false;
    }
    let from = e as usize / UNIT;
    let to = from + e as usize % LENGTHS;
    name == &text[from..to]
}

// The entry of a name.
#[tactic(auto, unfolding(crate::specs::Entry::place_in, crate::specs::Entry::tag_in, crate::specs::Entry::length_in))]
fn entry_of(place: usize, tag: usize, bytes: usize) -> u64
    requires { (place < 1099511627776) × (tag < 262144) × (bytes < 64) }
    ensures { (place_in result ≡ place) × (tag_in result ≡ tag) × (length_in result ≡ bytes) }
{
    (place * UNIT + tag * LENGTHS + bytes) as u64
}

// Makes every number of a list 0.
fn clear(list: &mut [u16])
    ensures { list.new ≡ replicate (length list.old) 0 }
{
    list.fill(0);
}

impl<'a> Tree<'a> {
    // Forgets all names.
    pub fn clear(&mut self)
        requires { Roomy (names_of self.old) }
        ensures room { length self.new.entries.now ≡ length self.old.entries.now }
        ensures tree { (bs : List ℕ) → IsTree bs (names_of self.new) }
    {
        self.count = 0;
        clear(self.links);
    }

    // Whether there is room for the name that a token is.
    pub fn has_room(&self, token: Span) -> bool
        ensures { result ≡ true → HasRoom (names_of self.now) token }
    {
        if self.entries.len() <= self.count || PLACES <= token.place {
            return false;
        }
        token.stop < token.place + LENGTHS
    }

    // Where a name stands. A `while`, since a link leads to a later name and the names before it are not counted.
    #[inline(always)]
    pub fn slot_of(&self, text: &[u8], name: &[u8]) -> Slot
        requires { IsTree text.now (names_of self.now) }
        ensures { FindsSlot text.now (names_of self.now) name.now result }
    {
        let h = hash_of(name);
        let mut link = first_link(h);
        let mut depth = 0;
        let mut v = self.links[link] as usize;
        while v != 0 {
            if is_named(text, self.entries[v - 1], name, h) {
                return Slot::Taken(v - 1);
            }
            link = ROOTS + 2 * (v - 1) + side(name, h, depth);
            depth += 1;
            v = self.links[link] as usize;
        }
        Slot::Free(link)
    }

    // Puts the name that a token is where it stands.
    pub fn put(&mut self, text: &[u8], link: usize, token: Span)
        requires stands { (token.place ≤ token.stop) × (token.stop ≤ length text.now) }
        requires tree { IsTree text.now (names_of self.old) }
        requires free { Vacant text.now (names_of self.old) (bytes_between text.now token.place token.stop) link }
        requires room { HasRoom (names_of self.old) token }
        ensures { Grows text.now (names_of self.old) (names_of self.new) (bytes_between text.now token.place token.stop) }
    {
        let tag = tag_of(hash_of(token.bytes(text)));
        self.entries[self.count] = entry_of(token.place, tag, token.stop - token.place);
        self.links[link] = self.count as u16 + 1;
        self.count += 1;
    }

    // Puts the name that a token is, if it is none of its names.
    pub fn take_in(&mut self, text: &[u8], token: Span)
        requires stands { (token.place ≤ token.stop) × (token.stop ≤ length text.now) }
        requires tree { IsTree text.now (names_of self.old) }
        requires room { HasRoom (names_of self.old) token }
        ensures room { length self.new.entries.now ≡ length self.old.entries.now }
        ensures tree { IsTree text.now (names_of self.new) }
    {
        match self.slot_of(text, token.bytes(text)) {
            Slot::Taken(_) => {}
            Slot::Free(link) => self.put(text, link, token),
        }
    }
}
