// The head words of rows and products.
// A word is a u32 here: the callers of starts_row have it so from the list and would wrap it for a Word, which would be no plainer.
#![tactic(auto, unfolding(rowsystems::specs::OneWord::starts_sum, rowsystems::specs::OneWord::starts_row, rowsystems::specs::RowSystem::term_count))]

ghost use Rattle.std.specs.Prelude.{◌≡◌};
ghost use Rattle.rowsystems.specs.OneWord.{starts_sum, starts_row};
ghost use Rattle.rowsystems.specs.RowSystem.{term_count};

use words::kind::Kind;
use words::limit;
use words::word::Word;

// Whether a row starts at a word.
pub fn starts_sum(w: u32) -> bool
    ensures { result ≡ starts_sum w }
{
    let w = Word::from(w);
    w.is(Kind::AtMost) || w.is(Kind::Equal)
}

// Whether a row or a product starts at a word.
pub fn starts_row(w: u32) -> bool
    ensures { result ≡ starts_row w }
{
    starts_sum(w) || Word::from(w).is(Kind::Product)
}

// The number of terms that a row's head word says.
pub fn term_count(head: u32) -> usize
    ensures { result ≡ term_count head }
{
    Word::from(head).payload().min(limit::TERMS)
}
