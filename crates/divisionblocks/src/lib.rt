// The blocks of int_div and int_mod: two products and the ten rows of a table.
#![tactic(auto)]

ghost use Rattle.std.specs.Prelude.{◌≡◌, ◌+◌, ◌<◌};
ghost use Rattle.models.specs.Builtin.{int_div, int_mod};
ghost use Rattle.rules.specs.Division.{quotient_bounds};
ghost use Rattle.rules.specs.Rule.{rule};
ghost use Rattle.laying.specs.Part.{block_parts};
ghost use Rattle.laying.specs.Writes.{Writes};
ghost use Rattle.laying.specs.Sizes.{first_numbers};
ghost use Rattle.integers.specs.Bounds.{bounds_in};
ghost use Rattle.divisionblocks.specs.Rows.{auxiliary_parts, table_parts, division_parts};

use extremes::{end_products, larger_absolute};
use integers::{Bounds, opposite};
use laying::Writer;
use laying::term::Term;
use table::{m_of, numbers, write_table};
use words::domain::{Domain, domain_of};
use words::kind::Kind;

mod table;

// The variables of a division: n, d and the quotient q.
#[derive(Clone, Copy, Debug, PartialEq, Eq)]
struct Division {
    n: usize,
    d: usize,
    q: usize,
}

// α, β, p within its bounds, γ.
fn write_auxiliaries(writer: &mut Writer, p: Bounds)
    ensures { Writes writer.old writer.new (auxiliary_parts p) }
{
    writer.bits(2);
    writer.bound(p.lower, p.upper);
    writer.bound(0, 1);
}

// p := d×q, γ := α×β and the rows of the table, α, β, p and γ numbered from v on.
fn write_rows(writer: &mut Writer, variables: Division, v: usize, table: &[[i64; 7]; 10])
    requires { v < 20000 }
    ensures { Writes writer.old writer.new (table_parts table.now variables.n variables.d variables.q v (v + 1) (v + 2) (v + 3)) }
{
    let Division { n, d, q } = variables;
    writer.times(v + 2, d, q);
    writer.times(v + 3, v, v + 1);
    write_table(writer, &[n, d, v + 2, v, v + 1, v + 3], table);
}

// The auxiliaries, products and rows of a division with a quotient within bounds.
fn write_division(
    writer: &mut Writer,
    variables: Division,
    v: usize,
    domains: &[Domain],
    quotient: Domain,
)
    requires { v < 20000 }
    ensures { let β = bounds_in domains.now in let w = variables in Writes writer.old writer.new (division_parts (β w.n) (β w.d) quotient w.n w.d w.q v) }
{
    let numerator = domain_of(domains, variables.n);
    let divisor = domain_of(domains, variables.d);
    let p = end_products(divisor, quotient);
    let table = numbers(numerator, divisor, m_of(numerator, divisor, p));
    write_auxiliaries(writer, p);
    write_rows(writer, variables, v, &table);
}

// 37 int_div: d×q is n cut to a multiple of d.
pub fn int_div(writer: &mut Writer, n: usize, d: usize, q: usize, domains: &[Domain], first: usize)
    requires { first < first_numbers }
    ensures { Writes writer.old writer.new (block_parts first (rule (bounds_in domains.now) (int_div n d q))) }
{
    write_division(
        writer,
        Division { n, d, q },
        first,
        domains,
        domain_of(domains, q),
    );
}

// The bounds of a quotient of n: as far from 0 as n, both ways.
#[tactic(auto, unfolding(rules::specs::Division::quotient_bounds))]
fn quotient_bounds(n: Domain) -> Domain
    ensures { result ≡ quotient_bounds n }
{
    let most = larger_absolute(n.lower(), n.upper());
    Domain::new(opposite(most), most)
}

// 38 int_mod: n is d times a quotient and r, with the rows of int_div for the quotient.
pub fn int_mod(writer: &mut Writer, n: usize, d: usize, r: usize, domains: &[Domain], first: usize)
    requires { first < first_numbers }
    ensures { Writes writer.old writer.new (block_parts first (rule (bounds_in domains.now) (int_mod n d r))) }
{
    let quotient = quotient_bounds(domain_of(domains, n));
    writer.bound(quotient.lower(), quotient.upper());
    write_division(
        writer,
        Division { n, d, q: first },
        first + 1,
        domains,
        quotient,
    );
    writer.row(
        Kind::Equal,
        &[Term::new(1, first + 3), Term::new(1, r), Term::new(-1, n)],
        0,
    );
}
