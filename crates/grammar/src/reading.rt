// What a step of the grammar reads.
ghost use Rattle.tokens.specs.Unread.{Stands};
ghost use Rattle.symbols.specs.Symbol.{table_of, Indexed};

use symbols::Symbols;
use tokens::Span;

// A token, or the end, where it stands in a text, and the symbols declared before it.
#[derive(Clone, Copy)]
pub(crate) struct Reading<'a> {
    pub(crate) text: &'a [u8],
    pub(crate) symbols: &'a Symbols<'a>,
    pub(crate) token: Span,
    ghost stands: { Stands text.now token },
    ghost indexed: { Indexed text.now token.place (table_of symbols.now) },
}
