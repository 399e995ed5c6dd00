// The bits of values that satisfy a row system.
// `out` and `at` stay two parameters: no plainer as a page, since the next place is all that a caller goes on with. Limits of `at` stay clauses: no plainer
// in a type, since each caller's place is a sum of its own. A head and the words after it stay parameters: no plainer as a struct, which the walk would make
// anew at each row. Kinds are tested one by one, as the definition of a row (row_of) does: of a head of another kind the words are those of a product.
#![tactic(auto)]

ghost use Rattle.std.specs.Prelude.{◌≡◌, map, ◌+◌, ◌*◌, ◌-◌, ◌<◌, ◌≤◌, leb, length, set, take};
ghost use Rattle.integers.specs.Bounds.{bounds_in};
ghost use Rattle.integers.specs.Choice.{◌if◌else◌};
ghost use Rattle.integers.specs.Number.{◌⊕◌, ◌⊖◌, neg, count};
ghost use Rattle.integers.specs.Terms.{sum, value};
ghost use Rattle.words.specs.Answer.{holds};
ghost use Rattle.words.specs.LaidAt.{LaidAt};
ghost use Rattle.words.specs.Limit as Limit;
ghost use Rattle.words.specs.Overlay.{overlay};
ghost use Rattle.rowsystems.specs.JudgeRows.{judge_rows};
ghost use Rattle.rowsystems.specs.OneWord.{row_of};
ghost use Rattle.rowsystems.specs.Row.{product};
ghost use Rattle.rowsystems.specs.RowSystem.{rows, variable_at, terms_in, constant_in};
ghost use Rattle.bitforms.specs.Chosen.{chosen};
ghost use Rattle.bitforms.specs.ValueBits.{bits_of_value, bit_products, own_bits, rows_bits, value_bits, variable_bits};
ghost use Rattle.bitforms.specs.Weights.{weights};
ghost use Rattle.bitlines.specs.Sizes as Size;
ghost use Rattle.bitanswers.specs.BitsAnswer.{value_bits_answer, value_bits_written, BitsRead};
ghost use Rattle.bitreading.specs.FineBits.{FineBits};
ghost use Rattle.valuebits.specs.Encoded.{encoded, IfEncoded};
ghost use Rattle.valuebits.specs.Answered.{Answered};

pub mod values;

use crate::values::Values;
use arguments::count_of;
use bitreading::list_bits;
use bitrows::{slack_of, sum_terms, terms_sum};
use bittables::table::BitVariable;
use bittables::{row_variable, span_at};
use integers::{minus, opposite};
use rowjudge::judge_rows;
use rowreading::rows::starts_row;
use words::answer::Verdict;
use words::domain::{Domain, domain_of};
use words::fault::{Fault, Refusal};
use words::kind::Kind;
use words::limit;
use words::list::put;
use words::word::Word;

// What the call answers where it does not refuse.
// It is no `Verdict`: where that holds, the call answers how many bits it wrote. The other two cases are turned over in one place, so that a `From` would be no plainer.
#[derive(Clone, Copy, Debug, PartialEq, Eq)]
pub enum Encoded {
    // how many bits it wrote
    Bits(usize),
    // the first variable out of bounds, counted from 0
    OutOfBounds(usize),
    // the first false row or product, counted from 0
    False(usize),
}

// Puts the weights of a width to the front of a list; how many there are.
// Its walk over the weights is apart from `add_weights`: a function of both, which takes a closure and its clauses, is no plainer than the four lines.
fn list_weights(list: &mut [usize], width: usize) -> usize
    requires { width < 4 * Size.sums }
    ensures { LaidAt list.old 0 (weights width) list.new result }
{
    let mut at = 0;
    let mut weight = 1;
    let mut left = width;
    // no count to go over: the loop ends by the width that is left
    while 0 < left {
        let w = weight.min(left);
        put(list, at, w);
        left -= w;
        weight += weight;
        at += 1;
    }
    at
}

// Puts a 1 where the weight fits into a number, else a 0; what is left of the number.
fn put_taken(out: &mut [u8], at: usize, w: usize, left: usize) -> usize
    ensures { (result ≡ (left - w if leb w left else left)) × (out.new ≡ set out.old at (1 if leb w left else 0)) }
{
    if w <= left {
        put(out, at, 1);
        return left - w;
    }
    put(out, at, 0);
    left
}

// Puts the bits of a number by weights into a list from a place on, from the last weight on.
fn put_chosen(out: &mut [u8], at: usize, list: &[usize], x: usize)
    requires { at + length list.now < 2 * Size.farthest }
    ensures { out.new ≡ overlay out.old at (chosen list.now x) }
{
    let mut left = x;
    let mut i = list.len();
    // no plainer as a `for` over the indices from the last one on: the index is one of the places that the invariant counts
    while 0 < i {
        i -= 1;
        left = put_taken(out, at + i, list[i], left);
    }
}

// Puts the bits of a number of a width; the next place.
fn put_number(out: &mut [u8], at: usize, width: usize, x: usize) -> usize
    requires { (at < Size.farthest) × (width < 4 * Size.sums) }
    ensures laid { LaidAt out.old at (chosen (weights width) x) out.new result }
    ensures few { result ≤ at + Size.most_weights }
{
    let mut list = [0usize; 64];
    let n = list_weights(&mut list, width);
    put_chosen(out, at, &list[..n], x);
    at + n
}

// How far the value of variable v is above its lower bound, 0 for one below.
fn above_lower(values: &Values, domains: &[Domain], v: usize) -> usize
    ensures { result ≡ count (value values.now.list.now v ⊖ (bounds_in domains.now v).lower) }
{
    count_of(minus(values.at(v), domain_of(domains, v).lower()))
}

// Puts the bits of a variable; the next place.
#[tactic(auto, using(crate::proofs::Variables::bits_by))]
fn put_variable(out: &mut [u8], at: usize, values: &Values, domains: &[Domain], v: usize) -> usize
    requires { at < Size.farthest }
    ensures laid { LaidAt out.old at (bits_of_value (bounds_in domains.now v) (value values.now.list.now v)) out.new result }
    ensures few { result ≤ at + Size.most_weights }
{
    put_number(
        out,
        at,
        span_at(domains, v),
        above_lower(values, domains, v),
    )
}

// Puts the bits of n variables to the front of a list; how many there are.
fn put_variables(out: &mut [u8], values: &Values, domains: &[Domain], n: usize) -> usize
    requires { n ≤ Limit.in_all }
    ensures laid { LaidAt out.old 0 (variable_bits (bounds_in domains.now) (value values.now.list.now) n) out.new result }
    ensures few { result ≤ Size.all_variable_bits }
{
    let mut at = 0;
    for v in 0..n {
        at = put_variable(out, at, values, domains, v);
    }
    at
}

// Puts a bit times each of some bits; the next place.
fn put_times(out: &mut [u8], at: usize, f: u8, gs: &[u8]) -> usize
    requires { (f < 2) × (at + length gs.now < 2 * Size.farthest) }
    ensures { LaidAt out.old at (map (λ g. f * g) gs.now) out.new result }
{
    for (b, &g) in gs.iter().enumerate() {
        put(out, at + b, f * g);
    }
    at + gs.len()
}

// Puts the products of bits, those of the first list outermost; the next place.
fn put_products(out: &mut [u8], at: usize, fs: &[u8], gs: &[u8]) -> usize
    requires { FineBits fs.now × (length fs.now ≤ Size.most_weights) × (length gs.now ≤ Size.most_weights) × (at < Size.farthest) }
    ensures laid { LaidAt out.old at (bit_products fs.now gs.now) out.new result }
    ensures few { result ≤ at + Size.own_bits }
{
    let mut to = at;
    for &f in fs {
        to = put_times(out, to, f, gs);
    }
    to
}

// Puts the own bits of a product; the next place.
fn put_product(
    out: &mut [u8],
    at: usize,
    args: &[u32],
    values: &Values,
    domains: &[Domain],
) -> usize
    requires { at < Size.farthest }
    ensures laid { LaidAt out.old at (own_bits (bounds_in domains.now) (value values.now.list.now) (product (variable_at args.now 0) (variable_at args.now 1) (variable_at args.now 2))) out.new result }
    ensures few { result ≤ at + Size.own_bits }
{
    let mut fs = [0u8; 64];
    let m = put_variable(&mut fs, 0, values, domains, row_variable(args, 1));
    let mut gs = [0u8; 64];
    let k = put_variable(&mut gs, 0, values, domains, row_variable(args, 2));
    put_products(out, at, &fs[..m], &gs[..k])
}

// What a row of n terms lacks to 0 at the values, 0 for one above.
fn slack_at(args: &[u32], n: usize, values: &Values) -> usize
    requires { n ≤ Limit.terms }
    ensures { result ≡ count (neg (sum (value values.now.list.now) (terms_in args.now n) ⊕ constant_in args.now n)) }
{
    count_of(opposite(terms_sum(args, n, |v| values.at(v))))
}

// Puts the own bits of the row or product with this head; the next place.
fn put_row(
    out: &mut [u8],
    at: usize,
    head: Word,
    args: &[u32],
    values: &Values,
    domains: &[Domain],
) -> usize
    requires { at < Size.farthest }
    ensures laid { LaidAt out.old at (own_bits (bounds_in domains.now) (value values.now.list.now) (row_of head args.now)) out.new result }
    ensures few { result ≤ at + Size.own_bits }
{
    if head.is(Kind::AtMost) {
        let n = sum_terms(head);
        return put_number(
            out,
            at,
            slack_of(args, n, domains),
            slack_at(args, n, values),
        );
    }
    if head.is(Kind::Equal) {
        return at;
    }
    put_product(out, at, args, values, domains)
}

// Puts the own bits of all rows and products from a place on.
// Its walk over the rows is a `for` of its own: the bodies of the walks differ.
fn put_rows(out: &mut [u8], start: usize, ws: &[u32], values: &Values, domains: &[Domain])
    requires { (length ws.now ≤ Limit.row_words) × (start ≤ Size.all_variable_bits) }
    ensures { out.new ≡ overlay out.old start (rows_bits (bounds_in domains.now) (value values.now.list.now) (rows ws.now)) }
{
    let mut to = start;
    for (at, &head) in ws.iter().enumerate() {
        if starts_row(head) {
            to = put_row(out, to, Word::from(head), &ws[at + 1..], values, domains);
        }
    }
}

// Of values that satisfy the row system: 23, 16, or the bits. The lists have the most elements: fixed memory.
fn bits_held(ws: &[u32], list: &[i32], out: &mut [u8]) -> Result<Encoded, Refusal>
    requires { judge_rows ws.now list.now ≡ holds }
    ensures { Answered ws.now list.now out.old out.new (encoded result) }
{
    let mut domains = [Domain::new(0, 0); limit::IN_ALL];
    let mut bits = [BitVariable { first: 0, count: 0 }; limit::IN_ALL];
    let listed = list_bits(ws, &mut domains, &mut bits);
    if limit::BITS < listed.all {
        return Err(Refusal {
            fault: Fault::TooManyBits,
            place: 0,
        });
    }
    if out.len() < listed.all {
        return Err(Refusal {
            fault: Fault::OutputTooShort,
            place: 0,
        });
    }
    let values = Values { list };
    let start = put_variables(out, &values, &domains, listed.variables);
    put_rows(out, start, ws, &values, &domains);
    Ok(Encoded::Bits(listed.all))
}

// Where judge-rows says "holds", the bits of the values go to the front of the output; else nothing changes.
pub fn value_bits(ws: &[u32], values: &[i32], out: &mut [u8]) -> Result<Encoded, Refusal>
    ensures answer { encoded result ≡ value_bits_answer ws.now values.now (length out.old) }
    ensures output { out.new ≡ value_bits_written ws.now values.now out.old }
    ensures room { IfEncoded result (λ n. n ≤ length out.new) }
    ensures front { IfEncoded result (λ n. take n out.new ≡ value_bits ws.now values.now) }
    ensures read { BitsRead ws.now values.now (encoded result) out.new }
{
    match judge_rows(ws, values)? {
        Verdict::Holds => bits_held(ws, values, out),
        Verdict::OutOfBounds(i) => Ok(Encoded::OutOfBounds(i)),
        Verdict::False(i) => Ok(Encoded::False(i)),
    }
}
