// The ten rows of int_div and int_mod as a table of numbers.
ghost use Rattle.std.specs.Prelude.{◌≡◌, ◌<◌, ◌≤◌, nat_abs};
ghost use Rattle.integers.specs.Number.{◌⊖◌, neg, max_z};
ghost use Rattle.words.specs.Small.{Near};
ghost use Rattle.rules.specs.Division.{M, division_table};
ghost use Rattle.laying.specs.Lists.{many};
ghost use Rattle.laying.specs.Writes.{Writes};
ghost use Rattle.divisionblocks.specs.Rows.{table_at};

use integers::{Bounds, largest, minus, opposite, plus};
use laying::Writer;
use laying::term::Term;
use words::domain::Domain;
use words::kind::Kind;

// The larger of p−n and n−p, over the bounds.
// `largest` and no `.max`: the laws of M are over the definitions' larger number, and the proofs here and in `m_of` did not close over the library's; `either_way` goes with them.
fn apart(n: Domain, p: Bounds) -> i64
    requires { (nat_abs p.lower ≤ 18014398509481984) × (nat_abs p.upper ≤ 18014398509481984) }
    ensures value { result ≡ max_z (p.upper ⊖ n.lower) (n.upper ⊖ p.lower) }
    ensures size { nat_abs result ≤ 18014398643699712 }
{
    largest(minus(p.upper, n.lower()), minus(n.upper(), p.lower))
}

// The larger of −d and d.
#[tactic(auto, unfolding(integers::specs::Number::max_z))]
fn either_way(d: Domain) -> i64
    ensures value { result ≡ max_z (neg d.lower) d.upper }
    ensures near { Near result }
{
    largest(opposite(d.lower()), d.upper())
}

// M: the larger of p−n and n−p, with the larger of −d and d, and 1, added where that is more; by `largest`, as in `apart`.
pub fn m_of(n: Domain, d: Domain, p: Bounds) -> i64
    requires { (nat_abs p.lower ≤ 18014398509481984) × (nat_abs p.upper ≤ 18014398509481984) }
    ensures value { result ≡ M n d p }
    ensures size { nat_abs result < 36028797018963968 }
{
    let a = apart(n, p);
    let way = either_way(d);
    largest(a, plus(plus(a, way), 1))
}

// The coefficients of n, d, p, α, β, γ and the constant of each row.
pub fn numbers(n: Domain, d: Domain, m: i64) -> [[i64; 7]; 10]
    requires { nat_abs m < 36028797018963968 }
    ensures { result ≡ division_table n d m }
{
    let nl = n.lower();
    let nu = n.upper();
    let dl = d.lower();
    let du = d.upper();
    let minus_m = opposite(m);
    let one_less = minus(1, m);
    [
        [-1, 0, 0, opposite(nl), 0, 0, nl],
        [1, 0, 0, opposite(plus(nu, 1)), 0, 0, 1],
        [0, -1, 0, 0, minus(1, dl), 0, dl],
        [0, 1, 0, 0, opposite(plus(du, 1)), 0, 1],
        [-1, 0, 1, m, 0, 0, minus_m],
        [1, 0, -1, minus_m, 0, 0, 0],
        [1, -1, -1, 0, 0, m, one_less],
        [-1, 1, 1, minus_m, minus_m, m, 1],
        [1, 1, -1, m, 0, minus_m, one_less],
        [-1, -1, 1, 0, m, minus_m, one_less],
    ]
}

// The rows of a table over six variables.
// The six are written out as the definition `six_terms` lists them, and the constant is the seventh number of a row: the rows are the definition's table (`division_table`), so a struct for a row would need a map to it and be no plainer.
pub fn write_table(writer: &mut Writer, xs: &[usize; 6], table: &[[i64; 7]; 10])
    ensures { Writes writer.old writer.new (many (table_at xs.now table.now) 10) }
{
    for row in table {
        let terms = [
            Term::new(row[0], xs[0]),
            Term::new(row[1], xs[1]),
            Term::new(row[2], xs[2]),
            Term::new(row[3], xs[3]),
            Term::new(row[4], xs[4]),
            Term::new(row[5], xs[5]),
        ];
        writer.row(Kind::AtMost, &terms, row[6]);
    }
}
