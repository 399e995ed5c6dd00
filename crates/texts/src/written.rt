// The words that a text writes.
ghost use Rattle.std.specs.Prelude.{◌∷◌, [], ◌<◌};
ghost use Rattle.texts.specs.TextReading.{one_or_none, Adds};

use words::list::put;
use words::word::Word;

// The words in their order, in a lent list, and how many there are. Those that do not fit are counted alone.
#[derive(Drop)]
pub struct Written<'a> {
    pub list: &'a mut [u32],
    pub count: usize,
}

impl Written<'_> {
    // Writes a word after the others.
    #[inline(always)]
    pub fn put(&mut self, word: Word)
        requires { self.old.count < 18446744073709551615 }
        ensures { Adds self.old self.new (word ∷ []) }
    {
        put(self.list, self.count, word.bits());
        self.count += 1;
    }

    // Writes the word that a token writes, if it writes one.
    #[inline(always)]
    pub fn append(&mut self, word: Option<Word>)
        requires { self.old.count < 18446744073709551615 }
        ensures { Adds self.old self.new (one_or_none word) }
    {
        match word {
            None => {}
            Some(word) => self.put(word),
        }
    }
}
