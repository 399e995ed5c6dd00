// The blocks of array_int_element, array_var_int_element, set_in and set_in_reif over a shared variable: its bits are the block's own or an earlier block's.
#![tactic(auto)]

ghost use Rattle.std.specs.Prelude.{◌≡◌, true, ◌<◌, ◌≤◌, length};
ghost use Rattle.integers.specs.Bounds.{bounds_in};
ghost use Rattle.words.specs.Limit as Limit;
ghost use Rattle.models.specs.Codes.{code_number};
ghost use Rattle.models.specs.Model.{var};
ghost use Rattle.rules.specs.Shared.{new_bits};
ghost use Rattle.laying.specs.Writes.{Writes};
ghost use Rattle.encodings.specs.Uses.{choosing};
ghost use Rattle.sharedblocks.specs.Pieces.{bits_from, place_bit, Encodable, new_bit_parts, new_row_parts, left_out_parts, shared_parts, zero_parts, own_row_parts, numbers_row, product_rows, members_row};

use arguments::{count_of, past_at, var_at};
use choiceblocks::rows::{choice, member_row, number_row, one_row, zeros};
use choiceblocks::{element_places, first_element, index_of, labels, members_of};
use extremes::width_of;
use integers::minus;
use laying::Writer;
use left_out::left_row;
use models::code::Code;
use words::domain::{Domain, domain_of};
use words::limit;
use words::list::at_or;

mod left_out;

// A constraint over a shared variable: its code and arguments, the bounds of the variables, the first bits of those that have bits, and the number of its block's first auxiliary.
#[derive(Clone, Copy)]
struct SharedBlock<'a> {
    code: Code,
    args: &'a [u32],
    domains: &'a [Domain],
    encoded: &'a [usize],
    first: usize,
    ghost encodable: { Encodable (bounds_in domains.now) encoded.now first args.now },
}

impl<'a> SharedBlock<'a> {
    // The number of the first bit of the variable at place 0: the block's own bits are numbered from `first` on.
    // No Option in the record, here and in the two `at_or` below: its definition (`Encoded`) is a list of numbers and reads 0 as none (see `encodings::record_encoding`), so an array of Options would need a map to it in each clause, and be no plainer.
    fn first_bit(&self) -> usize
        ensures value { result ≡ bits_from self.now.encoded.now self.now.first (var self.now.args.now 0) }
        ensures size { result < 10000 }
    {
        let known = at_or(self.encoded, var_at(self.args, 0), 0);
        if known == 0 {
            return self.first;
        }
        known
    }

    // The number of the bit of the first place of the list at place 1 that the variable at place 0 can have.
    fn place_bit(&self) -> usize
        ensures value { result ≡ place_bit self.now.encoded.now self.now.first (var self.now.args.now 0) (bounds_in self.now.domains.now (var self.now.args.now 0)).lower }
        ensures size { result < 1000000000 }
    {
        let place = element_places(self.args, self.domains).lower();
        let lower = index_of(self.args, self.domains).lower();
        self.first_bit() + count_of(minus(place, lower))
    }

    // How many bits the block adds.
    fn new_bits(&self) -> usize
        ensures value { result ≡ length (new_bits (bounds_in self.now.domains.now) self.now.encoded.now (var self.now.args.now 0)) }
        ensures size { result ≤ Limit.set_bits }
    {
        if at_or(self.encoded, var_at(self.args, 0), 0) == 0 {
            return width_of(index_of(self.args, self.domains));
        }
        0
    }

    // The bounds of the new bits.
    fn write_new_bits(&self, writer: &mut Writer)
        ensures { Writes writer.old writer.new (new_bit_parts (bounds_in self.now.domains.now) self.now.encoded.now self.now.args.now) }
    {
        writer.bits(self.new_bits());
    }

    // The two rows of the new bits.
    fn write_new_rows(&self, writer: &mut Writer)
        ensures { Writes writer.old writer.new (new_row_parts (bounds_in self.now.domains.now) self.now.encoded.now self.now.first self.now.args.now) }
    {
        let x = var_at(self.args, 0);
        if at_or(self.encoded, x, 0) == 0 {
            let index = index_of(self.args, self.domains);
            choice(writer, index.lower(), self.first, width_of(index), x);
        }
    }

    // The row of the bits left out.
    fn write_left_out(&self, writer: &mut Writer)
        ensures { Writes writer.old writer.new (left_out_parts (bounds_in self.now.domains.now) self.now.encoded.now self.now.first (code_number self.now.code) self.now.args.now) }
    {
        let index = index_of(self.args, self.domains);
        let v = self.first_bit();
        left_row(
            writer,
            self.code,
            self.args,
            index.lower(),
            v,
            width_of(index),
        );
    }

    // The row of the numbers: array_int_element.
    fn write_numbers_row(&self, writer: &mut Writer)
        ensures { Writes writer.old writer.new (numbers_row (bounds_in self.now.domains.now) self.now.args.now self.now.encoded.now self.now.first) }
    {
        let places = element_places(self.args, self.domains);
        let v = self.place_bit();
        number_row(
            writer,
            self.args,
            first_element(places.lower()),
            v,
            labels(self.args, self.domains),
            var_at(self.args, past_at(self.args, 1)),
        );
    }

    // The bounds of the products: array_var_int_element; another code has none.
    fn write_kept_zeros(&self, writer: &mut Writer)
        ensures { Writes writer.old writer.new (zero_parts (bounds_in self.now.domains.now) (code_number self.now.code) self.now.args.now) }
    {
        match self.code {
            Code::ArrayVarIntElement => {
                let domains = self.domains;
                zeros(
                    writer,
                    self.args,
                    first_element(element_places(self.args, domains).lower()),
                    labels(self.args, domains),
                    |x| domain_of(domains, x).lower(),
                    |x| domain_of(domains, x).upper(),
                );
            }
            _ => {}
        }
    }

    // The products and their row: array_var_int_element.
    fn write_product_rows(&self, writer: &mut Writer)
        ensures { Writes writer.old writer.new (product_rows (bounds_in self.now.domains.now) self.now.args.now self.now.encoded.now self.now.first) }
    {
        let n = labels(self.args, self.domains);
        let at = first_element(element_places(self.args, self.domains).lower());
        let b = self.place_bit();
        let z = self.first + self.new_bits();
        writer.products(self.args, at, z, b, n);
        one_row(writer, z, n, var_at(self.args, past_at(self.args, 1)));
    }

    // The row of the members: set_in_reif.
    fn write_members_row(&self, writer: &mut Writer)
        ensures { Writes writer.old writer.new (members_row (bounds_in self.now.domains.now) self.now.args.now self.now.encoded.now self.now.first) }
    {
        let index = index_of(self.args, self.domains);
        // fixed memory: as many numbers as a set may have. The row reads the whole list, which is 0 past the members (`FrontListed`), so a slice of the first n would need a law of its own, and be no plainer.
        let mut vs = [0i64; limit::LIST_LENGTH];
        let n = members_of(self.args, index.lower(), index.upper(), &mut vs);
        let r = var_at(self.args, past_at(self.args, 1));
        member_row(writer, &vs, index.lower(), self.first_bit(), n, r);
    }

    // The rows of the code after those of the new bits: of the bits left out, and its own.
    // Of the four codes that choose, the last arm is set_in's: an arm for each other code would be no plainer.
    fn write_own_rows(&self, writer: &mut Writer)
        ensures { Writes writer.old writer.new (own_row_parts (bounds_in self.now.domains.now) self.now.encoded.now self.now.first (code_number self.now.code) self.now.args.now) }
    {
        match self.code {
            Code::ArrayIntElement => {
                self.write_left_out(writer);
                self.write_numbers_row(writer);
            }
            Code::ArrayVarIntElement => {
                self.write_left_out(writer);
                self.write_product_rows(writer);
            }
            Code::SetInReif => self.write_members_row(writer),
            _ => self.write_left_out(writer),
        }
    }
}

// The block of a code that chooses by a shared variable.
// The five come one by one and not as `Constraint` and `encodings::context::Context`, which has the uses too: a block over a shared variable does not depend on them, and asks for none.
pub fn shared_block(
    writer: &mut Writer,
    code: Code,
    args: &[u32],
    domains: &[Domain],
    encoded: &[usize],
    first: usize,
)
    requires { Encodable (bounds_in domains.now) encoded.now first args.now × (choosing (code_number code) ≡ true) }
    ensures { Writes writer.old writer.new (shared_parts (bounds_in domains.now) encoded.now first (code_number code) args.now) }
{
    let block = SharedBlock {
        code,
        args,
        domains,
        encoded,
        first,
    };
    block.write_new_bits(writer);
    block.write_kept_zeros(writer);
    block.write_new_rows(writer);
    block.write_own_rows(writer);
}
