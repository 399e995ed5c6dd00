// The energy at some bits: the value there of the form over bits, from the row system row by row.
// Limits of `first` stay clauses: no plainer in a type, since each caller's number is a sum of its own. A head, the words after it and the first bit stay
// parameters: no plainer as a struct, which the walk would make anew at each row. That the counts of a table are right stays a clause: what reads a variable
// asks only the first bits. Kinds are tested one by one, as the definition of a row (row_of) does: of a head of another kind the words are those of a product.
#![tactic(auto)]

ghost use Rattle.std.specs.Prelude.{◌≡◌, ◌+◌, ◌*◌, ◌<◌, ◌≤◌, length, min, pos, nat_abs};
ghost use Rattle.integers.specs.Number.{◌⊕◌, ◌⊖◌, ◌⊗◌, neg, count, +2};
ghost use Rattle.integers.specs.Terms.{sum};
ghost use Rattle.words.specs.Limit as Limit;
ghost use Rattle.words.specs.Refusal.{accepted};
ghost use Rattle.words.specs.Small.{Near};
ghost use Rattle.rowsystems.specs.Reading.{read_rows};
ghost use Rattle.rowsystems.specs.RowSystem.{terms_in, constant_in, variable_at};
ghost use Rattle.bitforms.specs.OverBits.{evaluate};
ghost use Rattle.bitforms.specs.Energy.{row_energy, energy};
ghost use Rattle.bitforms.specs.Weights.{weights};
ghost use Rattle.bitlines.specs.Sizes as Size;
ghost use Rattle.bittables.specs.BitTables.{counts, BitCounts};
ghost use Rattle.bittables.specs.Systems.{rows_of_system};
ghost use Rattle.bitrows.specs.Terms.{cross};
ghost use Rattle.bitrows.specs.Values.{largest_value};
ghost use Rattle.bitanswers.specs.BitEnergy.{energy_limit, energy_of, bit_energy, AnswersForm};
ghost use Rattle.bitsharing.specs.ReadShares.{EnergyShares};
ghost use Rattle.bitreading.specs.BitsGiven.{bits_in};
ghost use Rattle.bitenergy.specs.Pairs.{pairs_energy, grid_energy, grid_by};
ghost use Rattle.bitenergy.specs.Reads.{row_at, factors_less, product_over, slacked_sum, value_of, ValuesListed};

use bitreading::bits::Bits;
use bitreading::{SHORT, check_bits, list_bits, read_variable, weigh};
use bitrows::{own_bits, slack_of, sum_terms, terms_sum};
use bittables::table::{BitSystem, BitTable, BitVariable, bits_at, count_at, system_of};
use bittables::{row_variable, span_at, weight_count};
use integers::{minus, plus, times};
use rowreading::read_rows;
use rowreading::rows::{starts_row, starts_sum};
use words::domain::{Domain, domain_of};
use words::fault::{Fault, Refusal};
use words::kind::Kind;
use words::limit::IN_ALL;
use words::list::at_or;
use words::word::Word;

// 2^62, from which on an energy is refused.
const ENERGY_LIMIT: usize = 4611686018427387904;

// The sum of weight × weight × bit, for each weight of one width and each of another, the bits numbered from `first` on.
// Its walk over the weights is apart from `weigh`: a function of both, which takes a closure and its clauses, is no plainer than the four lines.
fn weigh_products(bits: &Bits, first: usize, a: usize, b: usize) -> usize
    requires { (first < Size.farthest) × (a ≤ Size.widest) × (b ≤ Size.widest) }
    ensures value { pos result ≡ neg (sum (bits_in bits.now.bytes.now) (cross first (weights a) (weights b))) }
    ensures size { result ≤ 72057594037927936 }
{
    let n = weight_count(b);
    let mut total = 0;
    let mut at = first;
    let mut weight = 1;
    let mut left = a;
    // no count to go over: the loop ends by the width that is left
    while 0 < left {
        let w = weight.min(left);
        total += w * weigh(bits, at, b);
        left -= w;
        weight += weight;
        at += n;
    }
    total
}

// lf × vg + lg × (vf − lf)
fn factors_less(lf: i64, vf: i64, lg: i64, vg: i64) -> i64
    requires { Near lf × Near lg × (nat_abs vf ≤ largest_value) × (nat_abs vg ≤ largest_value) }
    ensures value { result ≡ lf ⊗ vg ⊕ lg ⊗ (vf ⊖ lf) }
    ensures size { nat_abs result ≤ 288230376151711744 }
{
    plus(times(lf, vg), times(lg, minus(vf, lf)))
}

// Of two factors: lo f × value g + lo g × (value f − lo f), at the values that the bits read as.
fn factors_at(bits: &Bits, table: &BitTable, f: usize, g: usize) -> i64
    ensures value { result ≡ factors_less bits.now table.now f g }
    ensures size { nat_abs result ≤ 288230376151711744 }
{
    factors_less(
        domain_of(table.domains, f).lower(),
        read_variable(bits, table, f),
        domain_of(table.domains, g).lower(),
        read_variable(bits, table, g),
    )
}

// The sum over bits of a product, whose own bits are numbered from `first` on.
fn product_sum(bits: &Bits, args: &[u32], table: &BitTable, first: usize) -> i64
    requires { first < Size.farthest }
    ensures value { result ≡ evaluate (bits_in bits.now.bytes.now) (product_over table.now first (variable_at args.now 0) (variable_at args.now 1) (variable_at args.now 2)) }
    ensures size { nat_abs result ≤ Size.sums }
{
    let f = row_variable(args, 1);
    let g = row_variable(args, 2);
    let less = factors_at(bits, table, f, g);
    let products = weigh_products(
        bits,
        first,
        span_at(table.domains, f),
        span_at(table.domains, g),
    );
    minus(
        read_variable(bits, table, row_variable(args, 0)),
        plus(less, products as i64),
    )
}

// Makes a list the values that the bits of the first variables read as.
fn keep_values(bits: &Bits, table: &BitTable, values: &mut [i64])
    ensures { ValuesListed bits.now table.now values.new }
{
    for v in 0..values.len() {
        values[v] = read_variable(bits, table, v);
    }
}

// The value that the bits of variable v read as, from the list where it has it.
fn value_at(bits: &Bits, table: &BitTable, values: &[i64], v: usize) -> i64
    ensures { ValuesListed bits.now table.now values.now → (result ≡ value_of bits.now table.now v) × (nat_abs result ≤ largest_value) }
{
    if v < values.len() {
        return at_or(values, v, 0);
    }
    read_variable(bits, table, v)
}

// The sum of a row's n terms and its constant, at the values that the bits read as.
fn sum_at(bits: &Bits, args: &[u32], n: usize, table: &BitTable, values: &[i64]) -> i64
    requires { (n ≤ Limit.terms) × ValuesListed bits.now table.now values.now }
    ensures value { result ≡ sum (value_of bits.now table.now) (terms_in args.now n) ⊕ constant_in args.now n }
    ensures size { nat_abs result ≤ 4 * Size.sums }
{
    terms_sum(args, n, |v| value_at(bits, table, values, v))
}

// The sum over bits of a row ≤ with its slack, whose bits are numbered from `first` on.
fn slacked_sum(
    bits: &Bits,
    args: &[u32],
    n: usize,
    table: &BitTable,
    values: &[i64],
    first: usize,
) -> i64
    requires { (first < Size.farthest) × (n ≤ Limit.terms) × ValuesListed bits.now table.now values.now }
    ensures value { result ≡ slacked_sum bits.now table.now first (terms_in args.now n) (constant_in args.now n) }
    ensures size { nat_abs result ≤ 6 * Size.sums }
{
    plus(
        sum_at(bits, args, n, table, values),
        weigh(bits, first, slack_of(args, n, table.domains)) as i64,
    )
}

// The sum over bits of the row or product with this head.
fn row_sum(
    bits: &Bits,
    head: Word,
    args: &[u32],
    table: &BitTable,
    values: &[i64],
    first: usize,
) -> i64
    requires { (first < Size.farthest) × ValuesListed bits.now table.now values.now }
    ensures value { result ≡ evaluate (bits_in bits.now.bytes.now) (row_at table.now first head args.now).whole }
    ensures size { nat_abs result ≤ 6 * Size.sums }
{
    if head.is(Kind::AtMost) {
        return slacked_sum(bits, args, sum_terms(head), table, values, first);
    }
    if head.is(Kind::Equal) {
        return sum_at(bits, args, sum_terms(head), table, values);
    }
    product_sum(bits, args, table, first)
}

// 3×t+u×v−2×u×t−2×v×t
fn pair_energy(u: usize, v: usize, t: usize) -> usize
    requires { (u < 2) × (v < 2) × (t < 2) }
    ensures value { pos result ≡ pos 3 ⊗ pos t ⊕ pos u ⊗ pos v ⊖ +2 ⊗ pos u ⊗ pos t ⊖ +2 ⊗ pos v ⊗ pos t }
    ensures size { result ≤ 3 }
{
    if t == 0 {
        return u * v;
    }
    3 + u * v - 2 * u - 2 * v
}

// What bit u and each of the n bits from v on add, their products' bits numbered from t on.
fn pairs_with(bits: &Bits, u: usize, v: usize, n: usize, t: usize) -> usize
    requires { (v < Size.farthest) × (t < 2 * Size.farthest) × (n ≤ Size.most_weights) }
    ensures value { pos result ≡ pairs_energy (bits_in bits.now.bytes.now) u v t n }
    ensures size { result ≤ 3 * n }
{
    let mut total = 0;
    for b in 0..n {
        total += pair_energy(bits.at(u), bits.at(v + b), bits.at(t + b));
    }
    total
}

// What each of the m bits from u on and each of the n bits from v on add.
fn pairs_energy(bits: &Bits, u: usize, m: usize, v: usize, n: usize, first: usize) -> usize
    requires { (u < Size.farthest) × (v < Size.farthest) × (first < Size.farthest) × (m ≤ Size.most_weights) × (n ≤ Size.most_weights) }
    ensures value { pos result ≡ grid_energy (bits_in bits.now.bytes.now) u v first m n }
    ensures size { result ≤ 3 * Size.own_bits }
{
    let mut total = 0;
    let mut t = first;
    for a in 0..m {
        total += pairs_with(bits, u + a, v, n, t);
        t += n;
    }
    total
}

// What the product with these words adds beside its square.
fn product_pairs(bits: &Bits, args: &[u32], table: &BitTable, first: usize) -> usize
    requires { BitCounts table.now.domains.now (counts table.now.bits.now) × (first < Size.farthest) }
    ensures value { pos result ≡ grid_by (bits_in bits.now.bytes.now) table.now first (variable_at args.now 1) (variable_at args.now 2) }
    ensures size { result ≤ 3 * Size.own_bits }
{
    let f = row_variable(args, 1);
    let g = row_variable(args, 2);
    pairs_energy(
        bits,
        bits_at(table.bits, f).first,
        count_at(table.domains, table.bits, f),
        bits_at(table.bits, g).first,
        count_at(table.domains, table.bits, g),
        first,
    )
}

// A square, 2^62 if it reaches that.
fn square_capped(s: i64) -> usize
    requires { nat_abs s ≤ 6 * Size.sums }
    ensures { result ≡ min (nat_abs s * nat_abs s) energy_limit }
{
    let a = s.unsigned_abs() as usize;
    if a < 2147483648 {
        return a * a;
    }
    ENERGY_LIMIT
}

// A sum, 2^62 if it reaches that.
fn add_capped(a: usize, b: usize) -> usize
    requires { (a ≤ energy_limit) × (b ≤ energy_limit) }
    ensures { result ≡ min (a + b) energy_limit }
{
    (a + b).min(ENERGY_LIMIT)
}

// What the row or product with this head counts, 2^62 if it reaches that.
fn row_energy(
    bits: &Bits,
    head: Word,
    args: &[u32],
    table: &BitTable,
    values: &[i64],
    first: usize,
) -> usize
    requires { BitCounts table.now.domains.now (counts table.now.bits.now) × (first < Size.farthest) × ValuesListed bits.now table.now values.now }
    ensures { result ≡ min (count (row_energy (bits_in bits.now.bytes.now) (row_at table.now first head args.now))) energy_limit }
{
    let square = square_capped(row_sum(bits, head, args, table, values, first));
    if starts_sum(head.bits()) {
        return square;
    }
    add_capped(square, product_pairs(bits, args, table, first))
}

// What all rows and products count, 2^62 if it reaches that.
// Its walk over the rows is a `for` of its own: the bodies of the walks differ.
fn rows_energy(bits: &Bits, system: &BitSystem, values: &[i64]) -> usize
    requires { ValuesListed bits.now system.now.table values.now }
    ensures { result ≡ min (count (energy (bits_in bits.now.bytes.now) (rows_of_system system.now))) energy_limit }
{
    let ws = system.words;
    let table = &system.table;
    let mut total = 0;
    let mut first = system.start;
    for (at, &head) in ws.iter().enumerate() {
        if starts_row(head) {
            let item = Word::from(head);
            let one = row_energy(bits, item, &ws[at + 1..], table, values, first);
            total = add_capped(total, one);
            first += own_bits(item, &ws[at + 1..], table.domains, table.bits);
        }
    }
    total
}

// Of accepted words, with lists of N elements: fixed memory.
#[inline(never)]
fn energy_within<const N: usize>(ws: &[u32], bytes: &[u8]) -> Result<i64, Refusal>
    requires reads { read_rows ws.now ≡ accepted }
    requires room { (min (length ws.now) Limit.in_all ≤ N) × (N ≤ Limit.in_all) }
    ensures { energy_of result ≡ bit_energy ws.now bytes.now }
{
    let mut domains = [Domain::new(0, 0); N];
    let mut places = [BitVariable { first: 0, count: 0 }; N];
    let listed = list_bits(ws, &mut domains, &mut places);
    check_bits(bytes, listed.all)?;
    let bits = Bits { bytes };
    let table = BitTable {
        domains: &domains,
        bits: &places,
    };
    let system = system_of(ws, table, listed.start);
    let mut values = [0i64; N];
    let known = listed.variables.min(N);
    keep_values(&bits, &system.table, &mut values[..known]);
    let total = rows_energy(&bits, &system, &values[..known]);
    if ENERGY_LIMIT <= total {
        return Err(Refusal {
            fault: Fault::FormTooLarge,
            place: 0,
        });
    }
    Ok(total as i64)
}

// Of accepted words: short ones have short lists.
fn energy_accepted(ws: &[u32], bytes: &[u8]) -> Result<i64, Refusal>
    requires { read_rows ws.now ≡ accepted }
    ensures { energy_of result ≡ bit_energy ws.now bytes.now }
{
    if ws.len() <= SHORT {
        return energy_within::<SHORT>(ws, bytes);
    }
    energy_within::<IN_ALL>(ws, bytes)
}

// The energy at the bits.
pub fn bit_energy(ws: &[u32], bits: &[u8]) -> Result<i64, Refusal>
    ensures answer { energy_of result ≡ bit_energy ws.now bits.now }
    ensures form { AnswersForm ws.now bits.now (energy_of result) }
    ensures shared { EnergyShares ws.now bits.now (energy_of result) }
{
    read_rows(ws)?;
    energy_accepted(ws, bits)
}
