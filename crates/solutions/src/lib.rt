// Every solution of a small model: the value lists within its bounds, one after another, each judged by the places of the model's constraints.
#![tactic(auto)]

ghost use Rattle.std.specs.Prelude.{◌≡◌, not, min, ◌*◌, ◌<◌, ◌≤◌, ltb, nat_abs, length, set, take, IfOk};
ghost use mathlib.Core.List.{flatten};
ghost use Rattle.words.specs.Faults.{written_of};
ghost use Rattle.words.specs.Overlay.{overlay};
ghost use Rattle.words.specs.Variables.{variables};
ghost use Rattle.words.specs.Small.{Small};
ghost use Rattle.modelreading.specs.Seen.{Heads};
ghost use Rattle.sharing.specs.SharedSolutions.{Passes};
ghost use Rattle.checking.specs.ReadModel.{Listed};
ghost use Rattle.solutions.specs.Lists.{list_count};
ghost use Rattle.solutions.specs.AllWithin.{lowest_list};
ghost use Rattle.solutions.specs.Odometer.{is_last, next_list};
ghost use Rattle.solutions.specs.Solutions.{every_true, solutions as solutions_of, solutions_answer, solutions_listed};
ghost use Rattle.solutions.specs.AllSolutions.{AllSolutions};
ghost use Rattle.solutions.specs.Walk.{count_cap, bounds_to, solutions_from, solutions_in, Walkable, ListsSized};

use checking::check_model;
use checking::read::ReadModel;
use extremes::width_of;
use integers::plus;
use modeljudge::first_false;
use words::answer::Verdict;
use words::domain::{Domain, domain_of};
use words::fault::{Fault, Refusal};
use words::list::{lay, put};
use words::{limit, value_at};

// One more value list than are listed, `count_cap`.
const CAP: usize = limit::LISTED_LISTS + 1;

// A count, or 65,537 if it is more.
fn capped_count(n: usize) -> usize
    ensures { result ≡ min n count_cap }
{
    n.min(CAP)
}

// How many value lists the bounds of the variables leave, capped.
fn list_count(domains: &[Domain]) -> usize
    ensures { result ≡ min (list_count (bounds_to domains.now (length domains.now))) count_cap }
{
    let mut count = 1;
    for &domain in domains {
        let width = capped_count(width_of(domain));
        count = capped_count(count * width);
    }
    count
}

// Puts a value into a list, if the place is one of its places. Not `put` at each place: the cast wants a bound, which stands here once.
fn put_value(values: &mut [i32], at: usize, v: i64)
    requires { nat_abs v < 2147483648 }
    ensures { values.new ≡ set values.old at v }
{
    put(values, at, v as i32);
}

// Puts the first value list into a list.
fn set_lowest(domains: &[Domain], values: &mut [i32])
    ensures { values.new ≡ lowest_list (bounds_to domains.now (length values.old)) }
{
    for i in 0..values.len() {
        put_value(values, i, domain_of(domains, i).lower());
    }
}

// Puts the next value list there, the first one after the last; whether it is not the first one.
fn step(domains: &[Domain], values: &mut [i32]) -> bool
    requires { Small values.old }
    ensures more { result ≡ not (is_last (bounds_to domains.now (length values.old)) values.old) }
    ensures list { values.new ≡ next_list (bounds_to domains.now (length values.old)) values.old }
{
    for k in (0..values.len()).rev() {
        let v = value_at(values, k);
        let domain = domain_of(domains, k);
        if v < domain.upper() {
            put_value(values, k, plus(v, 1));
            return true;
        }
        put_value(values, k, domain.lower());
    }
    false
}

// The words of a model that was read, the places of its constraints' heads, and the bounds of its variables.
// `ListsSized` stays in the clauses of the methods: tried as a ghost field, the proof did not close, since `AllWithin` goes by recursion, and antt has to find that such a fact has one proof at most.
#[derive(Clone, Copy)]
struct Search<'a> {
    ws: &'a [u32],
    heads: &'a [usize],
    domains: &'a [Domain],
    ghost read: { Heads ws.now heads.now (length heads.now) },
}

impl<'a> Search<'a> {
    // Whether every builtin is true of the values.
    fn all_true(&self, values: &[i32]) -> bool
        requires { Small values.now }
        ensures { result ≡ every_true self.now.ws.now values.now }
    {
        matches!(first_false(self.ws, self.heads, values), Verdict::Holds)
    }

    // Lays the solutions from a value list on over the front of a list, one after another; how many there are.
    fn write_from(&self, values: &mut [i32], out: &mut [i32]) -> usize
        requires { Walkable self.now.domains.now values.old }
        ensures count { result ≡ length (solutions_from self.now.ws.now self.now.domains.now values.old) }
        ensures output { out.new ≡ overlay out.old 0 (flatten (solutions_from self.now.ws.now self.now.domains.now values.old)) }
    {
        let mut count = 0;
        let mut at = 0;
        let mut more = true;
        // no list or count to go over: the walk ends by what a step says
        while more {
            if self.all_true(values) {
                lay(out, at, values);
                at += values.len();
                count += 1;
            }
            more = step(self.domains, values);
        }
        count
    }

    // Lays all solutions over the front of a list; how many there are. The values hold the value lists that are gone through.
    fn write_all(&self, values: &mut [i32], out: &mut [i32]) -> usize
        requires { ListsSized self.now.domains.now (length values.old) }
        ensures count { result ≡ length (solutions_in self.now.ws.now self.now.domains.now (length values.old)) }
        ensures output { out.new ≡ overlay out.old 0 (flatten (solutions_in self.now.ws.now self.now.domains.now (length values.old))) }
    {
        set_lowest(self.domains, values);
        self.write_from(values, out)
    }

    // Lays the solutions within the bounds of the variables over the front of a list; how many there are.
    fn write_in(&self, out: &mut [i32]) -> usize
        requires { ListsSized self.now.domains.now (length self.now.domains.now) }
        ensures count { result ≡ length (solutions_in self.now.ws.now self.now.domains.now (length self.now.domains.now)) }
        ensures output { out.new ≡ overlay out.old 0 (flatten (solutions_in self.now.ws.now self.now.domains.now (length self.now.domains.now))) }
    {
        // fixed memory: a value for each variable that a listed model may have
        let mut values = [0i32; limit::LISTED_VARIABLES];
        self.write_all(&mut values[..self.domains.len()], out)
    }

    // Whether so many places are too few for the solutions; these are counted, over an empty list, only where not all of the value lists would fit.
    fn too_short(&self, lists: usize, room: usize) -> bool
        requires { let n = length self.now.domains.now in ListsSized self.now.domains.now n × (lists ≡ list_count (bounds_to self.now.domains.now n)) }
        ensures { result ≡ ltb room (length (solutions_in self.now.ws.now self.now.domains.now (length self.now.domains.now)) * length self.now.domains.now) }
    {
        let n = self.domains.len();
        if lists * n <= room {
            return false;
        }
        let needed = self.write_in(&mut []) * n;
        room < needed
    }

    // Lists the solutions where the output has room.
    fn list_solutions(&self, lists: usize, out: &mut [i32]) -> Result<usize, Refusal>
        requires { let Ds = self.now.domains.now in let Bs = bounds_to Ds (length Ds) in ListsSized Ds (length Ds) × (lists ≡ list_count Bs) × Passes self.now.ws.now × (Bs ≡ variables self.now.ws.now) }
        ensures answer { written_of result ≡ solutions_answer self.now.ws.now (length out.old) }
        ensures output { out.new ≡ solutions_listed self.now.ws.now out.old }
    {
        if self.too_short(lists, out.len()) {
            return Err(Refusal {
                fault: Fault::OutputTooShort,
                place: 0,
            });
        }
        Ok(self.write_in(out))
    }
}

// Of a model that passes the check.
fn solutions_passed(read: &ReadModel, out: &mut [i32]) -> Result<usize, Refusal>
    requires { Passes read.now.ws.now × Listed read.now }
    ensures answer { written_of result ≡ solutions_answer read.now.ws.now (length out.old) }
    ensures output { out.new ≡ solutions_listed read.now.ws.now out.old }
{
    let n = read.model.variables;
    let too_many = Refusal {
        fault: Fault::TooManyLists,
        place: 0,
    };
    if limit::LISTED_VARIABLES < n {
        return Err(too_many);
    }
    let search = Search {
        ws: read.ws,
        heads: &read.heads[..read.model.constraints],
        domains: &read.domains[..n],
    };
    let lists = list_count(search.domains);
    if limit::LISTED_LISTS < lists {
        return Err(too_many);
    }
    search.list_solutions(lists, out)
}

// Lists every solution to the front of the output; a refusal changes nothing.
pub fn solutions(ws: &[u32], out: &mut [i32]) -> Result<usize, Refusal>
    ensures answer { written_of result ≡ solutions_answer ws.now (length out.old) }
    ensures output { out.new ≡ solutions_listed ws.now out.old }
    ensures room { IfOk result (λ n. n * length (variables ws.now) ≤ length out.new) }
    ensures front { IfOk result (λ n. take (n * length (variables ws.now)) out.new ≡ flatten (solutions_of ws.now)) }
    ensures all { AllSolutions ws.now (written_of result) out.new }
{
    let mut read = ReadModel::of(ws);
    check_model(&mut read)?;
    solutions_passed(&read, out)
}
