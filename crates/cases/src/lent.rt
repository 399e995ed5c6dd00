// The lists that are read, or lent to calls that write: their elements, their fronts, and whether what a call may not write still stands after it.
ghost use Rattle.std.specs.Prelude.{◌≡◌, ◌≤◌, drop, length, min, take, negsuc};
ghost use Rattle.std.specs.Fn.{FnOnceReturnsAtMut};
ghost use Rattle.std.specs.List.{list_all};

use std::fmt;

// An element of such a list: a word, a value or a byte.
pub trait Element: Copy + PartialEq {
    // What it holds before the call.
    const MARK: Self;

    ghost MARK: { Self };

    // The element that a number of a case stands for.
    fn of_number(number: u32) -> Self;

    // Prints it in a list of its type.
    fn print<W: fmt::Write>(self, f: &mut fmt::Formatter<W>) -> fmt::Result;
}

// A word: eight hexadecimal digits, a blank before them.
impl Element for u32 {
    const MARK: u32 = 3735928559;

    ghost MARK = { 3735928559 };

    fn of_number(number: u32) -> u32 {
        number
    }

    fn print<W: fmt::Write>(self, f: &mut fmt::Formatter<W>) -> fmt::Result {
        write!(f, " {self:08X}")
    }
}

// A value: the number as a signed one; a blank before it.
impl Element for i32 {
    const MARK: i32 = -559038737;

    ghost MARK = { negsuc 559038736 };

    fn of_number(number: u32) -> i32 {
        number.cast_signed()
    }

    fn print<W: fmt::Write>(self, f: &mut fmt::Formatter<W>) -> fmt::Result {
        write!(f, " {self}")
    }
}

// A byte: the lowest one of the number; two hexadecimal digits.
impl Element for u8 {
    const MARK: u8 = 165;

    ghost MARK = { 165 };

    fn of_number(number: u32) -> u8 {
        (number % 256) as u8
    }

    fn print<W: fmt::Write>(self, f: &mut fmt::Formatter<W>) -> fmt::Result {
        write!(f, "{self:02X}")
    }
}

// The elements of a list, one after the other.
#[derive(Drop)]
pub struct Elements<'a, T>(pub &'a [T]);

impl<T: Element> fmt::Display for Elements<'_, T> {
    fn fmt<W: fmt::Write>(&self, f: &mut fmt::Formatter<W>) -> fmt::Result {
        for &x in self.0 {
            x.print(f)?;
        }
        Ok(())
    }
}

// How many of the first n elements a list has.
pub fn within<T>(list: &[T], n: usize) -> usize
    ensures value { result ≡ min n (length list.now) }
    ensures fits { result ≤ length list.now }
    ensures count { result ≡ length (take result list.now) }
{
    n.min(list.len())
}

// Its first n elements, as far as it has them.
#[tactic(auto, using(std::proofs::lemmas::List::take_min))]
pub fn front<T>(list: &[T], n: usize) -> &[T]
    ensures { result.now ≡ take n list.now }
{
    &list[..within(list, n)]
}

// Lends its first n elements to a call.
pub fn lend<T, A, F: FnOnce(&mut [T]) -> A>(list: &mut [T], n: usize, call: F) -> A
    requires { F.IsAlwaysCallable call }
    ensures called { FnOnceReturnsAtMut F.FnOnce call (take n list.old) result (take n list.new) }
    ensures rest { drop n list.new ≡ drop n list.old }
{
    let k = within(list, n);
    call(&mut list[..k])
}

// Whether every element of a list is as it was before the call.
fn all_marked<T: Element>(list: &[T]) -> bool
    ensures { result ≡ list_all (λ x. T.eq x T.MARK) list.now }
{
    list.iter().all(|&x| x == T::MARK)
}

// Whether every element from a place on is.
#[tactic(auto, using(std::proofs::lemmas::List::drop_min))]
pub fn is_marked<T: Element>(list: &[T], from: usize) -> bool
    ensures { result ≡ list_all (λ x. T.eq x T.MARK) (drop from list.now) }
{
    all_marked(&list[within(list, from)..])
}

// The place of the first element that is as it was before the call.
pub fn first_marked<T: Element>(list: &[T]) -> Option<usize> {
    list.iter().position(|&x| x == T::MARK)
}
