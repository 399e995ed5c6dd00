// The symbol table of a FlatZinc text: its names in a tree, and the number of each one's variable.
// The text, the place and a name stay parameters, and what the table says of a text a clause: the table outlives the place, which moves on at each token.
#![tactic(auto)]

ghost use Rattle.std.specs.Prelude.{List, ℕ, true, ◌≡◌, ◌+◌, ◌<◌, ◌≤◌, length, get_or, replicate};
ghost use Rattle.integers.specs.Choice.{◌if◌else◌};
ghost use Rattle.names.specs.Name.{look_up};
ghost use Rattle.names.specs.Found.{found_number};
ghost use Rattle.symbols.specs.Tree.{Roomy};
ghost use Rattle.symbols.specs.Symbol.{table_of, declared_before, Sized, Indexed, Cleared, Latest, Enterable};

pub mod tree;

use names::variable_of;
use tokens::sort::Sort;
use tokens::{Span, next_token};
use tree::{Slot, Tree};

// The names declared up to a place of a text, in lent lists: a map of the library takes memory from the heap.
// Where a text has more names than there is room for, the table goes on with the names that the text goes on with, as many as there is room for, and the
// text up to there is read again to find which of them are declared.
#[derive(Drop)]
pub struct Symbols<'a> {
    pub tree: Tree<'a>,
    // 1 more than the number of each name's variable, 0 where it is not declared
    pub numbers: &'a mut [usize],
    // whether it has all names that are declared; else the text is walked for a name that it has not
    pub whole: bool,
    // the place up to which it has the names that the text goes on with
    pub until: usize,
    // the place after the last name that is declared
    pub declared: usize,
}

// Whether a name is looked up that follows a token of a sort. What is not looked up here costs time alone.
fn is_looked_up(before: Sort, sort: Sort) -> bool {
    sort == Sort::Name
        && matches!(
            before,
            Sort::Colon | Sort::Opening | Sort::Comma | Sort::OpenList
        )
}

// The place after the last name that is declared, with a token that follows a colon or not.
fn last_declared(last: usize, colon: bool, token: Span) -> usize
    ensures { result ≡ (token.stop if colon else last) }
{
    if colon { token.stop } else { last }
}

// Makes every number of a list 0.
fn clear(list: &mut [usize])
    ensures { list.new ≡ replicate (length list.old) 0 }
{
    list.fill(0);
}

impl<'a> Symbols<'a> {
    // The table of no names, over lists with room for some and for their links, which lead nowhere.
    pub fn over(
        entries: &'a mut [u64],
        links: &'a mut [u16],
        numbers: &'a mut [usize],
    ) -> Symbols<'a>
        requires room { Roomy (record { count = 0; entries = entries.old; links = links.old }) }
        requires size { length numbers.old ≡ length entries.old }
        requires clear { (i : ℕ) → get_or links.old i 0 ≡ 0 }
        ensures index { (bs : List ℕ) → Indexed bs 0 (table_of result) }
        ensures none { result.declared ≡ 0 }
    {
        Symbols {
            tree: Tree {
                count: 0,
                entries,
                links,
            },
            numbers,
            whole: true,
            until: usize::MAX,
            declared: 0,
        }
    }

    // The number of the variable of a name, if it is declared before a place.
    #[inline(always)]
    pub fn variable(&self, text: &[u8], place: usize, name: &[u8]) -> Option<usize>
        requires { Indexed text.now place (table_of self.now) }
        ensures { found_number result ≡ look_up name.now 0 (declared_before text.now place) }
    {
        match self.tree.slot_of(text, name) {
            Slot::Taken(i) => {
                let number = self.numbers[i];
                if number == 0 {
                    return None;
                }
                Some(number - 1)
            }
            Slot::Free(_) => {
                if self.whole {
                    return None;
                }
                variable_of(text, place, name)
            }
        }
    }

    // Enters the name that a token is as variable k, where the table has the name or room for it.
    fn enter(&mut self, text: &[u8], k: usize, token: Span)
        requires { Enterable text.now token.place token.stop k true (table_of self.old) }
        ensures { Indexed text.now token.stop (table_of self.new) }
    {
        match self.tree.slot_of(text, token.bytes(text)) {
            Slot::Taken(i) => {
                if self.numbers[i] != 0 {
                    return;
                }
                self.numbers[i] = k + 1;
            }
            Slot::Free(link) => {
                if !self.whole {
                    return;
                }
                if !self.tree.has_room(token) {
                    self.whole = false;
                    self.until = 0;
                    return;
                }
                self.numbers[self.tree.count] = k + 1;
                self.tree.put(text, link, token);
            }
        }
    }

    // Enters the name that a token is as variable k, if it follows a colon, and answers the next number. `colon` stays a parameter: that the
    // table is right after the token is promised of every token, and the loop over tokens has no case for it.
    fn note(&mut self, text: &[u8], k: usize, colon: bool, token: Span) -> usize
        requires { Enterable text.now token.place token.stop k colon (table_of self.old) }
        ensures next { result ≡ (k + 1 if colon else k) }
        ensures index { Indexed text.now token.stop (table_of self.new) }
    {
        if !colon {
            return k;
        }
        self.enter(text, k, token);
        k + 1
    }

    // Takes the name that a token after one of a sort is, if it is looked up there; answers whether there was room.
    fn take_token(&mut self, text: &[u8], before: Sort, token: Span) -> bool
        requires stands { (token.place ≤ token.stop) × (token.stop ≤ length text.now) }
        requires clear { Cleared text.now (table_of self.old) }
        ensures { Cleared text.now (table_of self.new) }
    {
        if !is_looked_up(before, token.sort) {
            return true;
        }
        if !self.tree.has_room(token) {
            return false;
        }
        self.tree.take_in(text, token);
        true
    }

    // Forgets all names and numbers.
    fn clear(&mut self)
        requires { Sized (table_of self.old) }
        ensures { (bs : List ℕ) → Cleared bs (table_of self.new) }
    {
        self.tree.clear();
        clear(self.numbers);
        self.whole = false;
    }

    // Takes the names that the text goes on with in place of those that it has.
    fn take_names(&mut self, text: &[u8], at: usize)
        requires inside { at ≤ length text.now }
        requires size { Sized (table_of self.old) }
        ensures { Cleared text.now (table_of self.new) }
    {
        self.clear();
        self.until = usize::MAX;
        let mut at = at;
        let mut before = Sort::Comma;
        while let Some(token) = next_token(text, at) {
            if !self.take_token(text, before, token) {
                self.until = at;
                return;
            }
            before = token.sort;
            at = token.stop;
        }
    }

    // Numbers the names that are declared up to a place.
    fn number_names(&mut self, text: &[u8], place: usize)
        requires inside { place ≤ length text.now }
        requires clear { Cleared text.now (table_of self.old) }
        ensures { Indexed text.now place (table_of self.new) }
    {
        if place == 0 {
            return;
        }
        let mut at = 0;
        let mut k = 0;
        let mut after_colon = false;
        while let Some(token) = next_token(text, at) {
            if place <= token.place {
                return;
            }
            k = self.note(text, k, after_colon, token);
            if place <= token.stop {
                return;
            }
            after_colon = token.sort == Sort::Colon;
            at = token.stop;
        }
    }

    // Takes the names that the text goes on with and numbers those that are declared up to here.
    #[cold]
    fn go_on(&mut self, text: &[u8], stop: usize)
        requires inside { stop ≤ length text.now }
        requires size { Sized (table_of self.old) }
        requires latest { Latest text.now stop self.old.declared }
        ensures index { Indexed text.now stop (table_of self.new) }
        ensures latest { Latest text.now stop self.new.declared }
    {
        let declared = self.declared;
        self.take_names(text, stop);
        self.number_names(text, declared);
        self.declared = declared;
    }

    // Enters a token as `note` does, and goes on where the table has no more of the names that the text goes on with.
    fn declare_or_take(&mut self, text: &[u8], k: usize, colon: bool, token: Span) -> usize
        requires { Enterable text.now token.place token.stop k colon (table_of self.old) × Latest text.now token.place self.old.declared }
        ensures next { result ≡ (k + 1 if colon else k) }
        ensures index { Indexed text.now token.stop (table_of self.new) }
        ensures latest { Latest text.now token.stop self.new.declared }
    {
        let declared = last_declared(self.declared, colon, token);
        let next = self.note(text, k, colon, token);
        self.declared = declared;
        if token.stop < self.until {
            return next;
        }
        self.go_on(text, token.stop);
        next
    }

    // The same, inlined: most tokens follow no colon, and the table has the names that come next.
    #[inline(always)]
    pub fn declare(&mut self, text: &[u8], k: usize, colon: bool, token: Span) -> usize
        requires { Enterable text.now token.place token.stop k colon (table_of self.old) × Latest text.now token.place self.old.declared }
        ensures next { result ≡ (k + 1 if colon else k) }
        ensures index { Indexed text.now token.stop (table_of self.new) }
        ensures latest { Latest text.now token.stop self.new.declared }
    {
        if colon || self.until <= token.stop {
            return self.declare_or_take(text, k, colon, token);
        }
        k
    }

    // The same of a token that follows no colon, and so declares no name.
    #[inline(always)]
    pub fn pass(&mut self, text: &[u8], token: Span)
        requires inside { token.stop ≤ length text.now }
        requires none { Latest text.now token.stop self.old.declared }
        requires index { Indexed text.now token.stop (table_of self.old) }
        ensures index { Indexed text.now token.stop (table_of self.new) }
        ensures latest { Latest text.now token.stop self.new.declared }
    {
        if self.until <= token.stop {
            self.go_on(text, token.stop);
        }
    }
}
