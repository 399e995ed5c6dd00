// Rows of few terms, and rows that hold where a bit says so.
ghost use Rattle.std.specs.Prelude.{[], ◌∷◌, ◌≤◌, nat_abs};
ghost use Rattle.integers.specs.Number.{◌⊕◌, ◌⊖◌, +1};
ghost use Rattle.words.specs.Kinds.{kind_number};
ghost use Rattle.laying.specs.Lists.{term_of, row_parts_of};
ghost use Rattle.laying.specs.Writes.{Writes};
ghost use Rattle.integers.specs.Bounds.{bounds_in};
ghost use Rattle.fixedblocks.specs.Rows.{where_row};

use extremes::gap_plus;
use integers::{minus, opposite};
use laying::Writer;
use laying::term::Term;
use words::domain::{Domain, domain_of};
use words::kind::Kind;

// x + q×y + c, of a kind.
// `two_terms` and `three_terms` stay beside `Writer::row`: the first coefficient is 1, and a list of `Term`s would make most of their calls some lines longer. Their numbers are the letters of the rule.
pub fn two_terms(writer: &mut Writer, kind: Kind, x: usize, q: i64, y: usize, c: i64)
    ensures { Writes writer.old writer.new (row_parts_of (kind_number kind) (term_of +1 x ∷ term_of q y ∷ []) c) }
{
    writer.row(kind, &[Term::new(1, x), Term::new(q, y)], c);
}

// x + q×y + p×z + c, of a kind. In the blocks with seven numbers these stay parameters too: they are the letters of the rule, and a struct of them would be made for each call alone.
pub fn three_terms(
    writer: &mut Writer,
    kind: Kind,
    x: usize,
    q: i64,
    y: usize,
    p: i64,
    z: usize,
    c: i64,
)
    ensures { Writes writer.old writer.new (row_parts_of (kind_number kind) (term_of +1 x ∷ term_of q y ∷ term_of p z ∷ []) c) }
{
    writer.row(
        kind,
        &[Term::new(1, x), Term::new(q, y), Term::new(p, z)],
        c,
    );
}

// x − y + d ≤ 0 where z is 1: x − y + P×z + d − P ≤ 0, P = hi x − lo y + d. Where z is 0, if it is not `one`: x − y − P×z + d ≤ 0.
// The flag stays: the definition of the row is one choice by it, and two functions would be twins.
pub fn where_bit(
    writer: &mut Writer,
    z: usize,
    x: usize,
    y: usize,
    d: i64,
    domains: &[Domain],
    one: bool,
)
    requires { nat_abs d ≤ 1 }
    ensures { let β = bounds_in domains.now in Writes writer.old writer.new (where_row one x y z ((β x).upper ⊖ (β y).lower ⊕ d) d) }
{
    let p = gap_plus(domain_of(domains, x), domain_of(domains, y), d);
    if one {
        three_terms(writer, Kind::AtMost, x, -1, y, p, z, minus(d, p));
    } else {
        three_terms(writer, Kind::AtMost, x, -1, y, opposite(p), z, d);
    }
}
