// A row system for reading: a line or an object of JSON for each variable, auxiliary, row and product.
#![tactic(auto)]

ghost use Rattle.std.specs.Prelude.{◌≡◌, ◌++◌, ◌≤◌, drop, IfOk, OnOk, string_bytes};
ghost use Rattle.rowlines.specs.Terms.{variable_in, named_text, sign_text, size_text, term_text, term_pair, constant_text};
ghost use Rattle.rowlines.specs.Items.{bounds_line, bounds_object, product_object, row_front, row_object};

use answers::named::{Name, Variable};
use answers::{Answer, Style, printed, put};
use std::alloc::{AllocError, Global};
use words::kind::Kind;
use words::limit::TERMS;
use words::list::at_or;
use words::word::Word;

// What variables are called: those of a text by their names, the others as `other` says.
#[derive(Clone, Copy, Debug)]
pub struct Names<'a> {
    pub given: &'a [Name<'a>],
    pub other: Name<'a>,
}

impl<'a> Names<'a> {
    // A variable by its number.
    pub fn variable(&self, number: usize) -> Variable<'a>
        ensures { result ≡ variable_in self.now number }
    {
        Variable {
            number,
            name: at_or(self.given, number, self.other),
        }
    }
}

// A variable, after what is there.
fn put_variable(
    alloc: Global,
    out: &mut Vec<u8>,
    names: &Names,
    number: usize,
) -> Result<(), AllocError>
    ensures { OnOk result (out.new.items ≡ out.old.items ++ named_text names.now number) }
{
    let variable = names.variable(number);
    let text = variable.text(alloc)?;
    put(out, text.as_bytes())
}

// What stands before a coefficient: a sign, after blanks where other terms stand before it.
fn sign_text(first: bool, minus: bool) -> &'static [u8]
    ensures { result.now ≡ sign_text first minus }
{
    if first {
        return if minus { b"-" } else { b"" };
    }
    if minus { b" - " } else { b" + " }
}

// The size of a coefficient, where it is not 1.
fn size_text(alloc: Global, size: u64) -> Result<String, AllocError>
    ensures { IfOk result (λ s. string_bytes s ≡ size_text size) }
{
    if size == 1 {
        return Ok(String::new(alloc));
    }
    format!(in alloc; "{size}*")
}

// A term of a row, for reading.
fn put_term(
    alloc: Global,
    out: &mut Vec<u8>,
    names: &Names,
    first: bool,
    c: i64,
    x: usize,
) -> Result<(), AllocError>
    ensures { OnOk result (out.new.items ≡ out.old.items ++ term_text names.now first c x) }
{
    let size = size_text(alloc, c.unsigned_abs())?;
    put(out, sign_text(first, c < 0))?;
    put(out, size.as_bytes())?;
    put_variable(alloc, out, names, x)
}

// A term of a row, as a list of JSON.
#[tactic(auto, unfolding(crate::specs::Terms::term_pair))]
fn term_pair(alloc: Global, c: i64, x: usize) -> Result<String, AllocError>
    ensures { IfOk result (λ s. string_bytes s ≡ term_pair c x) }
{
    format!(in alloc; "[{c},{x}]")
}

// The constant of a row, for reading: by itself where there are no terms, else with its sign where it is not 0.
fn constant_text(alloc: Global, alone: bool, k: i64) -> Result<String, AllocError>
    ensures { IfOk result (λ s. string_bytes s ≡ constant_text alone k) }
{
    if alone {
        return format!(in alloc; "{k}");
    }
    let size = k.unsigned_abs();
    if k < 0 {
        return format!(in alloc; " - {size}");
    }
    if k == 0 {
        return Ok(String::new(alloc));
    }
    format!(in alloc; " + {size}")
}

// The bounds of a variable or an auxiliary, for reading, after its name.
#[tactic(auto, unfolding(crate::specs::Items::bounds_line))]
fn bounds_line(alloc: Global, lower: i64, upper: i64, auxiliary: bool) -> Result<String, AllocError>
    ensures { IfOk result (λ s. string_bytes s ≡ bounds_line lower upper auxiliary) }
{
    if auxiliary {
        return format!(in alloc; " in {lower}..{upper}, auxiliary\n");
    }
    format!(in alloc; " in {lower}..{upper}\n")
}

// A variable or an auxiliary, as an object of JSON.
#[tactic(auto, unfolding(crate::specs::Items::bounds_object))]
fn bounds_object(
    alloc: Global,
    number: usize,
    lower: i64,
    upper: i64,
    auxiliary: bool,
) -> Result<String, AllocError>
    ensures { IfOk result (λ s. string_bytes s ≡ bounds_object number lower upper auxiliary) }
{
    if auxiliary {
        return format!(in alloc;
            "{{\"variable\":{number},\"lower\":{lower},\"upper\":{upper},\"auxiliary\":true}}"
        );
    }
    format!(in alloc;
        "{{\"variable\":{number},\"lower\":{lower},\"upper\":{upper},\"auxiliary\":false}}"
    )
}

// The front of a row, for reading and as an object of JSON.
fn row_front(alloc: Global, row: usize) -> Result<String, AllocError>
    ensures { IfOk result (λ s. string_bytes s ≡ row_front row) }
{
    format!(in alloc; "row {row}: ")
}

#[tactic(auto, unfolding(crate::specs::Items::row_object))]
fn row_object(alloc: Global, row: usize, equal: bool) -> Result<String, AllocError>
    ensures { IfOk result (λ s. string_bytes s ≡ row_object row equal) }
{
    if equal {
        return format!(in alloc; "{{\"row\":{row},\"sign\":\"=\",\"terms\":[");
    }
    format!(in alloc; "{{\"row\":{row},\"sign\":\"<=\",\"terms\":[")
}

// A product, for reading, after its row's front.
fn put_product(
    alloc: Global,
    out: &mut Vec<u8>,
    names: &Names,
    factors: [usize; 3],
) -> Result<(), AllocError> {
    let [r, f, g] = factors;
    put_variable(alloc, out, names, r)?;
    put(out, b" = ")?;
    put_variable(alloc, out, names, f)?;
    put(out, b" * ")?;
    put_variable(alloc, out, names, g)?;
    put(out, b"\n")
}

// A product, as an object of JSON.
#[tactic(auto, unfolding(crate::specs::Items::product_object))]
fn product_object(
    alloc: Global,
    row: usize,
    r: usize,
    f: usize,
    g: usize,
) -> Result<String, AllocError>
    ensures { IfOk result (λ s. string_bytes s ≡ product_object row r f g) }
{
    format!(in alloc; "{{\"row\":{row},\"product\":[{r},{f},{g}]}}")
}

// The number of the terms of a row; in accepted words no row has more than 66.
fn terms_of(head: Word) -> usize
    ensures { result ≤ 66 }
{
    head.payload().min(TERMS)
}

// The terms of a row before others, and its constant: for reading, then in JSON.
fn put_terms(
    alloc: Global,
    out: &mut Vec<u8>,
    names: &Names,
    words: &[u32],
    terms: usize,
) -> Result<(), AllocError> {
    for t in 0..terms.min(words.len()) {
        let c = Word::at(words, 2 * t + 1).signed();
        put_term(
            alloc,
            out,
            names,
            t == 0,
            c,
            Word::at(words, 2 * t).payload(),
        )?;
    }
    Ok(())
}

fn put_pairs(
    alloc: Global,
    out: &mut Vec<u8>,
    words: &[u32],
    terms: usize,
) -> Result<(), AllocError> {
    for t in 0..terms.min(words.len()) {
        if t != 0 {
            put(out, b",")?;
        }
        let c = Word::at(words, 2 * t + 1).signed();
        let pair = term_pair(alloc, c, Word::at(words, 2 * t).payload())?;
        put(out, pair.as_bytes())?;
    }
    Ok(())
}

// A row, from its head on, for reading.
fn put_row(
    alloc: Global,
    out: &mut Vec<u8>,
    names: &Names,
    words: &[u32],
    row: usize,
) -> Result<(), AllocError> {
    let head = Word::at(words, 0);
    let terms = terms_of(head);
    let front = row_front(alloc, row)?;
    let k = Word::at(words, 2 * terms + 1).signed();
    let constant = constant_text(alloc, terms == 0, k)?;
    put(out, front.as_bytes())?;
    put_terms(alloc, out, names, after(words, 1), terms)?;
    put(out, constant.as_bytes())?;
    put(
        out,
        if head.is(Kind::Equal) {
            b" = 0\n"
        } else {
            b" <= 0\n"
        },
    )
}

// A row, from its head on, as an object of JSON.
fn put_row_object(
    alloc: Global,
    out: &mut Vec<u8>,
    words: &[u32],
    row: usize,
) -> Result<(), AllocError> {
    let head = Word::at(words, 0);
    let terms = terms_of(head);
    let front = row_object(alloc, row, head.is(Kind::Equal))?;
    let k = Word::at(words, 2 * terms + 1).signed();
    let end = format!(in alloc; "],\"constant\":{k}}}")?;
    put(out, front.as_bytes())?;
    put_pairs(alloc, out, after(words, 1), terms)?;
    put(out, end.as_bytes())
}

// The words after so many.
fn after(words: &[u32], n: usize) -> &[u32]
    ensures { result.now ≡ drop n words.now }
{
    if words.len() <= n {
        return &[];
    }
    &words[n..]
}

// What a word begins.
#[derive(Clone, Copy, Debug, PartialEq, Eq)]
enum Begins {
    Variable,
    Boolean,
    Auxiliary,
    Product,
    Row,
}

fn beginning_of(head: Word) -> Begins {
    if head.is(Kind::Lower) {
        return Begins::Variable;
    }
    if head.is(Kind::Boolean) {
        return Begins::Boolean;
    }
    if head.is(Kind::AuxiliaryLower) {
        return Begins::Auxiliary;
    }
    if head.is(Kind::Product) {
        return Begins::Product;
    }
    Begins::Row
}

// How many words an item has that begins with a word.
fn item_size(head: Word) -> usize
    ensures { result ≤ 134 }
{
    match beginning_of(head) {
        Begins::Variable => 2,
        Begins::Boolean => 1,
        Begins::Auxiliary => 2,
        Begins::Product => 4,
        Begins::Row => 2 + 2 * terms_of(head),
    }
}

// Whether a word begins a variable or an auxiliary.
fn declares(head: Word) -> bool {
    matches!(
        beginning_of(head),
        Begins::Variable | Begins::Boolean | Begins::Auxiliary
    )
}

// The bounds of the variable that words begin with.
fn bounds_at(words: &[u32]) -> (i64, i64) {
    let head = Word::at(words, 0);
    if beginning_of(head) == Begins::Boolean {
        return (0, 1);
    }
    (head.signed(), Word::at(words, 1).signed())
}

// The numbers of the variables of the product that words begin with.
fn factors_at(words: &[u32]) -> [usize; 3] {
    [
        Word::at(words, 1).payload(),
        Word::at(words, 2).payload(),
        Word::at(words, 3).payload(),
    ]
}

// The item that words begin with, the variable or row of a number, for reading.
fn put_item(
    alloc: Global,
    out: &mut Vec<u8>,
    names: &Names,
    words: &[u32],
    number: usize,
) -> Result<(), AllocError> {
    let head = Word::at(words, 0);
    if declares(head) {
        let (lower, upper) = bounds_at(words);
        let line = bounds_line(alloc, lower, upper, head.is(Kind::AuxiliaryLower))?;
        put_variable(alloc, out, names, number)?;
        return put(out, line.as_bytes());
    }
    if head.is(Kind::Product) {
        let front = row_front(alloc, number)?;
        put(out, front.as_bytes())?;
        return put_product(alloc, out, names, factors_at(words));
    }
    put_row(alloc, out, names, words, number)
}

// The same as an object of JSON.
fn put_object(
    alloc: Global,
    out: &mut Vec<u8>,
    words: &[u32],
    number: usize,
) -> Result<(), AllocError> {
    let head = Word::at(words, 0);
    if declares(head) {
        let (lower, upper) = bounds_at(words);
        let object = bounds_object(alloc, number, lower, upper, head.is(Kind::AuxiliaryLower))?;
        return put(out, object.as_bytes());
    }
    if head.is(Kind::Product) {
        let [r, f, g] = factors_at(words);
        let object = product_object(alloc, number, r, f, g)?;
        return put(out, object.as_bytes());
    }
    put_row_object(alloc, out, words, number)
}

// The items of a row system, all but its end, for reading.
fn put_items(
    alloc: Global,
    out: &mut Vec<u8>,
    names: &Names,
    words: &[u32],
) -> Result<(), AllocError> {
    let mut rest = words;
    let mut variables = 0usize;
    let mut rows = 0usize;
    for _ in 0..words.len() {
        if rest.len() <= 1 {
            break;
        }
        let head = Word::at(rest, 0);
        if declares(head) {
            put_item(alloc, out, names, rest, variables)?;
            variables = variables.saturating_add(1);
        } else {
            put_item(alloc, out, names, rest, rows)?;
            rows = rows.saturating_add(1);
        }
        rest = after(rest, item_size(head));
    }
    Ok(())
}

// The same as objects of JSON, with commas between them.
fn put_objects(alloc: Global, out: &mut Vec<u8>, words: &[u32]) -> Result<(), AllocError> {
    let mut rest = words;
    let mut variables = 0usize;
    let mut rows = 0usize;
    for k in 0..words.len() {
        if rest.len() <= 1 {
            break;
        }
        if k != 0 {
            put(out, b",")?;
        }
        let head = Word::at(rest, 0);
        if declares(head) {
            put_object(alloc, out, rest, variables)?;
            variables = variables.saturating_add(1);
        } else {
            put_object(alloc, out, rest, rows)?;
            rows = rows.saturating_add(1);
        }
        rest = after(rest, item_size(head));
    }
    Ok(())
}

// The answer that is a row system for reading.
pub fn told_rows(
    alloc: Global,
    names: &Names,
    words: &[u32],
    style: Style,
) -> Result<Answer, AllocError> {
    let mut out = Vec::new(alloc);
    match style {
        Style::Text => put_items(alloc, &mut out, names, words)?,
        Style::Json => {
            put(&mut out, b"{\"answer\":\"done\",\"items\":[")?;
            put_objects(alloc, &mut out, words)?;
            put(&mut out, b"]}\n")?;
        }
    }
    Ok(printed(alloc, out, 0))
}
