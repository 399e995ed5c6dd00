// Decimal numbers, blanks and single bytes, laid over a page of bytes one after another; what does not fit the page is left out.
// No Display: the bytes go to a lent page, fixed memory, and each is promised; `write!` ensures its bytes to a `String` alone, which takes the heap.
#![tactic(auto)]

ghost use Rattle.std.specs.Prelude.{◌≡◌, [], ◌∷◌, ◌+◌, ◌<◌, ◌≤◌, length};
ghost use Rattle.decimals.specs.Ahead.{byte_of, minus_after, ahead};
ghost use Rattle.decimals.specs.Column.{blanks, right, left};
ghost use Rattle.decimals.specs.Decimal.{decimal, numeral};
ghost use Rattle.decimals.specs.Marked.{marked};
ghost use Rattle.decimals.specs.Printed.{Prints};

use words::list::{lay, put};

// The byte in a column, with the digits of `rest` and perhaps a hyphen still to come from the right.
#[tactic(auto, unfolding(crate::specs::Ahead::byte_of))]
fn byte_of(minus: bool, rest: usize) -> u8
    ensures { result ≡ byte_of minus rest }
{
    if 0 < rest {
        return b'0' + (rest % 10) as u8;
    }
    if minus { b'-' } else { b' ' }
}

// Whether the hyphen is still to come after that column.
#[tactic(auto, unfolding(crate::specs::Ahead::minus_after))]
fn minus_after(minus: bool, rest: usize) -> bool
    ensures { result ≡ minus_after minus rest }
{
    0 < rest && minus
}

// How many digits a number has.
fn digit_count(n: usize) -> usize
    ensures { result ≡ length (decimal n) }
{
    let mut count: usize = 1;
    let mut rest = n;
    // a `for` is no plainer: there is no list or count to go over, the loop ends by the number that is left
    while 9 < rest {
        rest = rest / 10;
        count += 1;
    }
    count
}

// A page of bytes, and the place where the next byte goes.
// That the place stays below 2^40 is asked of each printer by what it prints: no type carries it, as the place moves on.
#[derive(Drop)]
pub struct Page<'a> {
    pub bytes: &'a mut [u8],
    pub at: usize,
}

impl<'a> Page<'a> {
    // A byte.
    #[tactic(auto, unfolding(words::specs::Overlay::overlay))]
    pub fn byte(&mut self, byte: u8)
        requires { self.old.at + 1 < 1099511627776 }
        ensures text { Prints self.old (byte ∷ []) self.new }
        ensures end { self.new.at ≡ self.old.at + 1 }
    {
        put(self.bytes, self.at, byte);
        self.at += 1;
    }

    // Bytes.
    pub fn text(&mut self, text: &[u8])
        requires { self.old.at + length text.now < 1099511627776 }
        ensures text { Prints self.old text.now self.new }
        ensures end { self.new.at ≡ self.old.at + length text.now }
    {
        lay(self.bytes, self.at, text);
        self.at += text.len();
    }

    // The digits of `rest`, the hyphen and blanks, right in so many columns.
    fn ahead(&mut self, columns: usize, minus: bool, rest: usize)
        requires { self.old.at + columns < 1099511627776 }
        ensures text { Prints self.old (ahead columns minus rest) self.new }
        ensures end { self.new.at ≡ self.old.at + columns }
    {
        let mut hyphen = minus;
        let mut digits = rest;
        for left in (0..columns).rev() {
            put(self.bytes, self.at + left, byte_of(hyphen, digits));
            hyphen = minus_after(hyphen, digits);
            digits = digits / 10;
        }
        self.at += columns;
    }

    // Blanks.
    pub fn blanks(&mut self, columns: usize)
        requires { self.old.at + columns < 1099511627776 }
        ensures text { Prints self.old (blanks columns) self.new }
        ensures end { self.new.at ≡ self.old.at + columns }
    {
        self.ahead(columns, false, 0)
    }

    // A number, perhaps after a hyphen, right in so many columns. Two functions would be no plainer: the text is `marked` by the flag.
    pub fn right(&mut self, columns: usize, minus: bool, n: usize)
        requires { (self.old.at + columns < 1099511627776) × (length (marked minus n) ≤ columns) }
        ensures text { Prints self.old (right columns (marked minus n)) self.new }
        ensures end { self.new.at ≡ self.old.at + columns }
    {
        self.ahead(columns - 1, minus, n / 10);
        self.byte(b'0' + (n % 10) as u8)
    }

    // A signed number right in so many columns.
    pub fn number(&mut self, columns: usize, v: i64)
        requires { (self.old.at + columns < 1099511627776) × (length (numeral v) ≤ columns) }
        ensures text { Prints self.old (right columns (numeral v)) self.new }
        ensures end { self.new.at ≡ self.old.at + columns }
    {
        self.right(columns, v < 0, v.unsigned_abs() as usize)
    }

    // A number.
    pub fn decimal(&mut self, n: usize)
        requires { self.old.at + length (decimal n) < 1099511627776 }
        ensures text { Prints self.old (decimal n) self.new }
        ensures end { self.new.at ≡ self.old.at + length (decimal n) }
    {
        self.right(digit_count(n), false, n)
    }

    // A number left in so many columns.
    pub fn left(&mut self, columns: usize, n: usize)
        requires { (self.old.at + columns < 1099511627776) × (length (decimal n) ≤ columns) }
        ensures text { Prints self.old (left columns (decimal n)) self.new }
        ensures end { self.new.at ≡ self.old.at + columns }
    {
        let end = self.at + columns;
        self.decimal(n);
        self.blanks(end - self.at)
    }
}
