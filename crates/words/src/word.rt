// A word, which clauses see as its number.
ghost use Rattle.std.specs.Prelude.{◌≡◌, eqb};
ghost use Rattle.words.specs.Kinds.{kind_number, Decodes};
ghost use Rattle.words.specs.Limit as Limit;
ghost use Rattle.words.specs.Word.{kind, payload, signed, too_low, word, number_word, word_at};

use crate::kind::{Kind, UnknownKind};
use crate::limit::{HALF, PAYLOADS};
use crate::list::at_or;
use std::marker::Model;

// A kind and a payload, in 32 bits.
#[derive(Clone, Copy, Debug, PartialEq, Eq)]
pub struct Word {
    bits: u32,
}

impl Model for Word {
    ghost use Rattle.std.specs.Prelude.{ℕ};

    ghost Value = { ℕ };

    ghost view = { λ w. w.bits };

    ghost inverse = { λ n. record { bits = n } };
}

impl From<u32> for Word {
    ghost use Rattle.std.specs.Prelude.{◌≡◌};

    ghost from_gives = { λ n w. w ≡ n };

    fn from(bits: u32) -> Word {
        Word { bits }
    }
}

impl Word {
    // The word of a kind and a payload.
    #[tactic(auto, unfolding(crate::specs::Word::word))]
    pub fn new(kind: Kind, payload: usize) -> Word
        ensures { result ≡ word (kind_number kind) payload }
    {
        Word {
            bits: (kind.number() as usize * PAYLOADS + payload % PAYLOADS) as u32,
        }
    }

    // The word of a kind and a number, whose payload is what 2^28 leaves of it.
    #[tactic(auto, unfolding(crate::specs::Word::number_word), using(crate::proofs::Machine::euclid_complement))]
    pub fn of_number(kind: Kind, v: i64) -> Word
        ensures { result ≡ number_word (kind_number kind) v }
    {
        Word::new(kind, v.rem_euclid(PAYLOADS as i64) as usize)
    }

    // The word at a place, 0 past the last one.
    #[tactic(auto, unfolding(crate::specs::Word::word_at))]
    pub fn at(words: &[u32], i: usize) -> Word
        ensures { result ≡ word_at words.now i }
    {
        Word {
            bits: at_or(words, i, 0),
        }
    }

    // Its 32 bits.
    pub fn bits(self) -> u32
        ensures { result ≡ self }
    {
        self.bits
    }

    // Its kind, or the number of its top 4 bits where no kind has it. It states the whole of what `is`, by which callers choose, states of one kind.
    #[tactic(auto, unfolding(crate::specs::Word::kind))]
    pub fn kind(self) -> Result<Kind, UnknownKind>
        ensures { Decodes (kind self) result }
    {
        Kind::try_from(self.bits >> 28)
    }

    // Whether it is of a kind.
    // Chains of this test choose as the definitions do, by one number after the other: a match over `kind` would prove each case from Decodes and be no plainer.
    #[tactic(auto, unfolding(crate::specs::Word::kind))]
    pub fn is(self, k: Kind) -> bool
        ensures { result ≡ eqb (kind self) (kind_number k) }
    {
        self.bits >> 28 == k.number()
    }

    // Its payload.
    #[tactic(auto, unfolding(crate::specs::Word::payload))]
    pub fn payload(self) -> usize
        ensures { result ≡ payload self }
    {
        self.bits as usize % PAYLOADS
    }

    // Its payload as a signed number.
    #[tactic(auto, unfolding(crate::specs::Word::signed, crate::specs::Word::payload))]
    pub fn signed(self) -> i64
        ensures { result ≡ signed self }
    {
        let p = self.payload();
        if p < HALF {
            p as i64
        } else {
            p as i64 - PAYLOADS as i64
        }
    }

    // Whether its payload is the lowest 28-bit number, which is not in the range.
    pub fn is_lowest(self) -> bool
        ensures { result ≡ too_low Limit.range self }
    {
        self.payload() == HALF
    }
}
