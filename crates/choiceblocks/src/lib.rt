// The blocks of lists with one choice: elements, maximum and minimum of a list, membership.
// The arguments, the domains and the number of the first auxiliary stay parameters: a `Context` has lists of shared variables too, which asks more, and a struct of the three would be made at each call from outside for one or two uses.
#![tactic(auto)]

ghost use Rattle.std.specs.Prelude.{◌≡◌, ◌+◌, ◌<◌, ◌≤◌, replicate};
ghost use Rattle.integers.specs.Number.{count, +0};
ghost use Rattle.integers.specs.Bounds.{◌to◌, bounds_in, width};
ghost use Rattle.words.specs.Limit as Limit;
ghost use Rattle.words.specs.Small.{Near};
ghost use Rattle.models.specs.Model.{var, nums, size};
ghost use Rattle.rules.specs.Parts.{places, members};
ghost use Rattle.rules.specs.Rule.{rule};
ghost use Rattle.laying.specs.Part.{block_parts};
ghost use Rattle.laying.specs.Writes.{Writes};
ghost use Rattle.laying.specs.Sizes.{first_numbers};
ghost use Rattle.choiceblocks.specs.FrontListed.{FrontListed};
ghost use Rattle.choiceblocks.specs.Rows.{one_of_parts, extreme_block, number_element_of, variable_element_of, set_of, set_reified_of};

use arguments::{count_of, past_at, size_at, var_at};
use extremes::{members, places_of, width_of};
use laying::Writer;
use laying::terms::first_if;
use rows::{choice, first_only, gated, gates, member_row, number_row, one_bit, value_row};
use words::domain::{Domain, domain_of};
use words::limit;

pub mod rows;

// The bounds of the variable at place 0.
pub fn index_of(args: &[u32], domains: &[Domain]) -> Domain
    ensures { result ≡ bounds_in domains.now (var args.now 0) }
{
    domain_of(domains, var_at(args, 0))
}

// The places of the list at place 1 that the variable at place 0 can have as an index.
pub fn element_places(args: &[u32], domains: &[Domain]) -> Domain
    ensures { result ≡ places (bounds_in domains.now (var args.now 0)) (size args.now 1) }
{
    places_of(index_of(args, domains), size_at(args, 1))
}

// How many they are.
pub fn labels(args: &[u32], domains: &[Domain]) -> usize
    ensures value { result ≡ width (places (bounds_in domains.now (var args.now 0)) (size args.now 1)) }
    ensures size { result ≤ Limit.list_length }
{
    width_of(element_places(args, domains))
}

// Where the element at the first of these places stands.
pub fn first_element(place: i64) -> usize
    requires { Near place }
    ensures value { result ≡ 1 + count place }
    ensures size { result < 1000000000 }
{
    1 + count_of(place)
}

// Puts the members of the set at place 1 that two bounds leave into a list of zeros; how many there are. Two numbers and no domain, as `extremes::members` takes them.
pub fn members_of(args: &[u32], lower: i64, upper: i64, vs: &mut [i64]) -> usize
    requires { Near upper × (vs.old ≡ replicate Limit.list_length +0) }
    ensures { FrontListed (members (nums args.now 1) (lower to upper)) result vs.new }
{
    members(args, 1, lower, upper, vs)
}

// The block of array_int_element.
pub fn array_int_element(writer: &mut Writer, args: &[u32], domains: &[Domain], first: usize)
    requires { first < first_numbers }
    ensures { Writes writer.old writer.new (block_parts first (rule (bounds_in domains.now) (number_element_of args.now))) }
{
    let places = element_places(args, domains);
    let n = labels(args, domains);
    writer.bits(n);
    choice(writer, places.lower(), first, n, var_at(args, 0));
    number_row(
        writer,
        args,
        first_element(places.lower()),
        first,
        n,
        var_at(args, past_at(args, 1)),
    );
}

// The block of array_var_int_element.
pub fn array_var_int_element(writer: &mut Writer, args: &[u32], domains: &[Domain], first: usize)
    requires { first < first_numbers }
    ensures { Writes writer.old writer.new (block_parts first (rule (bounds_in domains.now) (variable_element_of args.now))) }
{
    let places = element_places(args, domains);
    let n = labels(args, domains);
    let base = first_element(places.lower());
    gates(
        writer,
        args,
        base,
        n,
        |x| domain_of(domains, x).lower(),
        |x| domain_of(domains, x).upper(),
    );
    choice(writer, places.lower(), first, n, var_at(args, 0));
    gated(writer, args, base, first, n, var_at(args, past_at(args, 1)));
}

// What array_int_maximum and array_int_minimum begin with: m is one of the list.
fn one_of(writer: &mut Writer, args: &[u32], domains: &[Domain], first: usize)
    requires { first < first_numbers }
    ensures { Writes writer.old writer.new (one_of_parts (bounds_in domains.now) args.now first) }
{
    let n = size_at(args, 1);
    gates(
        writer,
        args,
        2,
        n,
        |x| domain_of(domains, x).lower(),
        |x| domain_of(domains, x).upper(),
    );
    one_bit(writer, first, n);
    gated(writer, args, 2, first, n, var_at(args, 0));
}

// The block of array_int_maximum; of array_int_minimum, where it is not `up`.
// `up` is a flag, since the clause reads as a choice by one; two functions would be twins.
pub fn array_int_extreme(
    writer: &mut Writer,
    args: &[u32],
    domains: &[Domain],
    first: usize,
    up: bool,
)
    requires { first < first_numbers }
    ensures { Writes writer.old writer.new (block_parts first (extreme_block (bounds_in domains.now) up args.now)) }
{
    let m = var_at(args, 0);
    let n = size_at(args, 1);
    one_of(writer, args, domains, first);
    writer.order(args, 2, m, n, up);
    first_only(
        writer,
        |k| first_if(up, var_at(args, 2 + k), m),
        |k| first_if(up, m, var_at(args, 2 + k)),
        first,
        n,
        domains,
    );
}

// The block of set_in. The members stand at the front of 32 numbers, n of them, here and below: memory is fixed.
pub fn set_in(writer: &mut Writer, args: &[u32], domains: &[Domain], first: usize)
    requires { first < first_numbers }
    ensures { Writes writer.old writer.new (block_parts first (rule (bounds_in domains.now) (set_of args.now))) }
{
    let index = index_of(args, domains);
    let mut vs = [0i64; limit::LIST_LENGTH];
    let n = members_of(args, index.lower(), index.upper(), &mut vs);
    writer.bits(n);
    one_bit(writer, first, n);
    value_row(writer, &vs, first, n, var_at(args, 0));
}

// The block of set_in_reif.
pub fn set_in_reif(writer: &mut Writer, args: &[u32], domains: &[Domain], first: usize)
    requires { (first < first_numbers) × (width (bounds_in domains.now (var args.now 0)) ≤ Limit.set_bits) }
    ensures { Writes writer.old writer.new (block_parts first (rule (bounds_in domains.now) (set_reified_of args.now))) }
{
    let index = index_of(args, domains);
    let mut vs = [0i64; limit::LIST_LENGTH];
    let n = members_of(args, index.lower(), index.upper(), &mut vs);
    let width = width_of(index);
    writer.bits(width);
    choice(writer, index.lower(), first, width, var_at(args, 0));
    member_row(
        writer,
        &vs,
        index.lower(),
        first,
        n,
        var_at(args, past_at(args, 1)),
    );
}
