// The items of a row system: variables, auxiliaries, rows, products, the end. Each function reads some words of an item.
// What is asked of a place stands at each function: it moves on with each word, and no type carries it.
// ws, n and at go to each function: n and at change with each item, so that a struct of them, as grammar's Reading, would be made anew each time and be no plainer.
#![tactic(auto, unfolding(words::specs::Check::step_over, rowsystems::specs::Reading::fault_upper))]

ghost use Rattle.std.specs.Prelude.{◌≡◌, ℕ, suc, ◌+◌, ◌≤◌, IfOk};
ghost use Rattle.words.specs.Kinds.{kind_number};
ghost use Rattle.words.specs.Limit as Limit;
ghost use Rattle.words.specs.Word.{word_at};
ghost use Rattle.words.specs.Check.{fault_number_in, step_of, step_over};
ghost use Rattle.rowsystems.specs.Reading.{fault_upper, fault_variable, fault_result};
ghost use Rattle.rowreading.specs.Item.{item_terms, due_with, more_sources, start_due, Declared};
ghost use Rattle.rowreading.specs.Onward.{Placed, StepsTo};

use rowfaults::{check_result, check_variable};
use rowsystems::Due;
use words::check::{check_number, check_upper, over};
use words::fault::{Fault, Refusal};
use words::kind::Kind;
use words::word::Word;

// What a head word starts.
#[derive(Clone, Copy, Debug, PartialEq, Eq)]
pub enum Item {
    // an integer variable, whose lower bound this word is
    Variable(Word),
    // a Boolean variable
    Boolean,
    // an auxiliary, whose lower bound this word is
    Auxiliary(Word),
    // a row of so many terms
    Row(usize),
    Product,
    End,
}

#[tactic(auto, unfolding(crate::specs::Item::due_after, crate::specs::Item::due_with, crate::specs::Item::item_terms, rowsystems::specs::Reading::after_due, rowsystems::specs::Reading::after_item))]
impl From<Word> for Item {
    ghost use Rattle.std.specs.Prelude.{◌≡◌};
    ghost use Rattle.rowsystems.specs.Reading.{after_due};
    ghost use Rattle.rowsystems.specs.declared.Due.TheVariants as due;
    ghost use Rattle.rowreading.specs.Item.{due_after};

    ghost from_gives = { λ head item. due_after item ≡ after_due due.Source head };

    fn from(head: Word) -> Item {
        if head.is(Kind::Lower) {
            return Item::Variable(head);
        }
        if head.is(Kind::Boolean) {
            return Item::Boolean;
        }
        if head.is(Kind::AuxiliaryLower) {
            return Item::Auxiliary(head);
        }
        if head.is(Kind::Product) {
            return Item::Product;
        }
        if head.is(Kind::RowsEnd) {
            return Item::End;
        }
        Item::Row(head.payload())
    }
}

// The variable at a place, after n variables.
fn variable_at(ws: &[u32], n: usize, at: usize) -> Result<usize, Refusal>
    requires { at ≤ Limit.row_words }
    ensures { step_of result ≡ step_over (fault_variable n (word_at ws.now at)) at }
{
    over(at, check_variable(n, Word::at(ws, at)))
}

// The coefficient or constant at a place.
pub fn number_at(ws: &[u32], at: usize) -> Result<usize, Refusal>
    requires { at ≤ Limit.row_words }
    ensures { step_of result ≡ step_over (fault_number_in Limit.range (word_at ws.now at)) at }
{
    over(at, check_number(Word::at(ws, at)))
}

// The upper bound of a kind at a place, after the word of its lower one. `rowitems` reads it by this function and judges it.
pub fn upper_at(ws: &[u32], kind: Kind, lower: Word, at: usize) -> Result<usize, Refusal>
    requires { at ≤ Limit.row_words }
    ensures { step_of result ≡ step_over (fault_upper (kind_number kind) lower (word_at ws.now at)) at }
{
    over(at, check_upper(kind, lower, Word::at(ws, at)))
}

// A term: its variable and its coefficient.
pub fn read_term(ws: &[u32], n: usize, at: usize) -> Result<usize, Refusal>
    requires { Placed ws.now at }
    ensures steps { (left : ℕ) → StepsTo ws.now n (Due.Terms (suc left)) at (Due.Terms left) (step_of result) }
    ensures end { IfOk result (λ end. end ≡ at + 2) }
{
    let next = variable_at(ws, n, at)?;
    number_at(ws, next)
}

// A product's result at a place, before its two factors, after n variables.
fn result_at(ws: &[u32], n: usize, at: usize) -> Result<usize, Refusal>
    requires { at ≤ Limit.row_words }
    ensures { step_of result ≡ step_over (fault_result n (word_at ws.now at) (word_at ws.now (at + 1)) (word_at ws.now (at + 2))) at }
{
    let f = Word::at(ws, at + 1);
    let g = Word::at(ws, at + 2);
    over(at, check_result(n, Word::at(ws, at), f, g))
}

// A product's result and its two factors, which are declared.
pub fn read_product(ws: &[u32], n: usize, at: usize) -> Result<usize, Refusal>
    requires { Placed ws.now at }
    ensures step { StepsTo ws.now n Due.Result at Due.Item (step_of result) }
    ensures end { IfOk result (λ end. (end ≡ at + 3) × Declared ws.now n at) }
{
    let first = result_at(ws, n, at)?;
    let second = variable_at(ws, n, first)?;
    variable_at(ws, n, second)
}

impl Item {
    // The number of its terms.
    #[tactic(auto, unfolding(crate::specs::Item::item_terms))]
    pub fn terms(&self) -> usize
        ensures { result ≡ item_terms self.now }
    {
        match *self {
            Item::Row(terms) => terms,
            _ => 0,
        }
    }

    // What it has after its head and its terms.
    pub fn read_rest(&self, ws: &[u32], n: usize, at: usize) -> Result<usize, Refusal>
        requires { Placed ws.now at }
        ensures { StepsTo ws.now n (due_with self.now 0) at (start_due (more_sources self.now)) (step_of result) }
    {
        match *self {
            Item::Variable(lower) => upper_at(ws, Kind::Upper, lower, at),
            Item::Boolean => Ok(at),
            Item::Auxiliary(lower) => upper_at(ws, Kind::AuxiliaryUpper, lower, at),
            Item::Row(_) => number_at(ws, at),
            Item::Product => read_product(ws, n, at),
            Item::End => over(at, Err(Fault::WordAfterEnd)),
        }
    }

    // Whether a source variable may follow it.
    #[tactic(auto, unfolding(crate::specs::Item::more_sources))]
    pub fn sources_after(&self) -> bool
        ensures { result ≡ more_sources self.now }
    {
        matches!(*self, Item::Variable(_) | Item::Boolean)
    }
}
