// Writing the parts of a block over a lent list of words, and counting them.
#![tactic(auto)]

ghost use Rattle.std.specs.Prelude.{◌≡◌, [], ◌∷◌, ◌+◌, ◌<◌, ◌&&◌, length};
ghost use Rattle.integers.specs.Choice.{◌if◌else◌};
ghost use Rattle.words.specs.Kinds.{kind_number};
ghost use Rattle.words.specs.Overlay.{overlay};
ghost use Rattle.words.specs.Word.{in_range};
ghost use Rattle.laying.specs.Part.{bound, head, term, constant, times};
ghost use Rattle.laying.specs.Appends.{Over, CountsMore, nothing};
ghost use Rattle.laying.specs.Writes.{Writes};
ghost use Rattle.laying.specs.Room.{Room};

use words::in_range;
use words::kind::Kind;
use words::list::put;
use words::word::Word;

pub mod term;
pub mod terms;

// What was laid so far: words, auxiliaries, rows; and 1 where some number was outside the range, else 0. It is a number and no bool: where a `Laid` went by value, a bool, which leaves a gap, made translate of 1,024 words take some 3 in 100 longer.
#[derive(Clone, Copy, Debug, PartialEq, Eq)]
pub struct Laid {
    pub words: usize,
    pub auxiliaries: usize,
    pub rows: usize,
    pub outside: usize,
}

// A lent list that the words of a block go over from its front on, as far as they fit, and what was laid so far. The list is lent and no Vec: the calls for C take no heap.
#[derive(Drop)]
pub struct Writer<'a> {
    pub out: &'a mut [u32],
    pub laid: Laid,
}

// Nothing. By name and no Default: the clause says that it is `nothing`.
pub fn none_yet() -> Laid
    ensures { result ≡ nothing }
{
    Laid {
        words: 0,
        auxiliaries: 0,
        rows: 0,
        outside: 0,
    }
}

// Puts a few words over a list from a place on, those that fit. Where there is no room, that is seen once and not at each word. They are put one by one: where the part that fits is copied as one, translate takes up to 1.6 times as long.
fn put_words(out: &mut [u32], at: usize, words: &[u32])
    ensures { at + length words.now < 18446744073709551616 → out.new ≡ overlay out.old at words.now }
{
    if out.len() <= at {
        return;
    }
    for (k, &word) in words.iter().enumerate() {
        put(out, at.wrapping_add(k), word);
    }
}

// 1 after numbers that do not fit, else what it was.
fn outside_after(outside: usize, fit: bool) -> usize
    ensures { result ≡ (outside if fit else 1) }
{
    if fit { outside } else { 1 }
}

// Whether two numbers are in the range.
fn are_in_range(a: i64, b: i64) -> bool
    ensures { result ≡ (in_range a && in_range b) }
{
    in_range(a) && in_range(b)
}

impl<'a> Writer<'a> {
    // So many words, auxiliaries and rows more, whose numbers fit or not; the list stays as it is.
    // Four numbers and no `Laid`, here and below: each call would be the six lines of a literal.
    pub fn count(&mut self, words: usize, auxiliaries: usize, rows: usize, fit: bool)
        ensures counts { Room (words + auxiliaries + rows) self.old.laid → CountsMore self.old.laid self.new.laid words auxiliaries rows fit }
        ensures same { self.new.out ≡ self.old.out }
    {
        self.laid = Laid {
            words: self.laid.words.wrapping_add(words),
            auxiliaries: self.laid.auxiliaries.wrapping_add(auxiliaries),
            rows: self.laid.rows.wrapping_add(rows),
            outside: outside_after(self.laid.outside, fit),
        };
    }

    // The words of one part, whose numbers fit or not, with so many auxiliaries and rows more.
    fn part(&mut self, words: &[u32], auxiliaries: usize, rows: usize, fit: bool)
        ensures went { Room (length words.now + auxiliaries + rows) self.old.laid → Over self.old.laid self.new.laid self.old.out.now self.new.out.now words.now auxiliaries rows fit }
        ensures list { self.new.out.ghost_name ≡ self.old.out.ghost_name }
    {
        put_words(self.out, self.laid.words, words);
        self.count(words.len(), auxiliaries, rows, fit);
    }

    // The bounds of an auxiliary.
    pub fn bound(&mut self, lower: i64, upper: i64)
        ensures { Writes self.old self.new (bound lower upper ∷ []) }
    {
        let words = [
            Word::of_number(Kind::AuxiliaryLower, lower).bits(),
            Word::of_number(Kind::AuxiliaryUpper, upper).bits(),
        ];
        self.part(&words, 1, 0, are_in_range(lower, upper));
    }

    // The head of a row of a kind, with n terms.
    pub fn head(&mut self, kind: Kind, n: usize)
        ensures { Writes self.old self.new (head (kind_number kind) n ∷ []) }
    {
        self.part(&[Word::new(kind, n).bits()], 0, 0, true);
    }

    // A term of a row. Two numbers and no `Term`: only `row` has one.
    pub fn term(&mut self, coefficient: i64, v: usize)
        ensures { Writes self.old self.new (term coefficient v ∷ []) }
    {
        let words = [
            Word::new(Kind::Variable, v).bits(),
            Word::of_number(Kind::Number, coefficient).bits(),
        ];
        self.part(&words, 0, 0, in_range(coefficient));
    }

    // The constant of a row, its last word.
    pub fn constant(&mut self, c: i64)
        ensures { Writes self.old self.new (constant c ∷ []) }
    {
        self.part(
            &[Word::of_number(Kind::Number, c).bits()],
            0,
            1,
            in_range(c),
        );
    }

    // A product, r := f × g.
    pub fn times(&mut self, r: usize, f: usize, g: usize)
        ensures { Writes self.old self.new (times r f g ∷ []) }
    {
        let words = [
            Word::new(Kind::Product, 0).bits(),
            Word::new(Kind::Variable, r).bits(),
            Word::new(Kind::Variable, f).bits(),
            Word::new(Kind::Variable, g).bits(),
        ];
        self.part(&words, 0, 1, true);
    }
}
