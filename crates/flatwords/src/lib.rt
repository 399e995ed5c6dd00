// The words of a model: variables, calls, the end; and whether its numbers and lists fit them.
#![tactic(auto)]

ghost use Rattle.std.specs.Prelude.{◌≡◌, ◌↔◌, ◌&&◌, true, List, [], ◌∷◌, ◌++◌, map, OnOk, IfOk};
ghost use Rattle.models.specs.Builtin.{Builtin};
ghost use Rattle.flatzinc.specs.Calls.{built_all};
ghost use Rattle.std.specs.List.{list_all};
ghost use Rattle.words.specs.Word.{word, number_word, in_range};
ghost use Rattle.words.specs.Kind as Kinds;
ghost use Rattle.flatwords.specs.CallWords.{atom_word, written, all_written, call_words, all_call_words};
ghost use Rattle.flatwords.specs.CallFits.{atom_fits, product_fits, argument_fits, call_fits, variable_fits};
ghost use Rattle.flatwords.specs.Fits.{ModelFits};
ghost use Rattle.flatwords.specs.SystemWords.{variable_words, all_variable_words, words_of};

use flatzinc::{Argument, Atom, Call, ModelVariable, Product};
use models::code::Code;
use std::alloc::{AllocError, Global};
use words::kind::Kind;
use words::limit::{EXPONENT, HIGHEST, LIST_LENGTH, LOWEST, PAYLOADS};
use words::word::Word;

// The word of a variable, or of a number of the range.
fn put_variable(out: &mut Vec<u32>, a: Atom) -> Result<(), AllocError>
    ensures { OnOk result (out.new.items ≡ out.old.items ++ atom_word a ∷ []) }
{
    out.push(Word::new(Kind::Variable, a.number()).bits())?;
    Ok(())
}

fn put_number(out: &mut Vec<u32>, n: i64) -> Result<(), AllocError>
    ensures { OnOk result (out.new.items ≡ out.old.items ++ number_word Kinds.number n ∷ []) }
{
    out.push(Word::of_number(Kind::Number, n).bits())?;
    Ok(())
}

// The word of a list's length.
fn put_length(out: &mut Vec<u32>, n: usize) -> Result<(), AllocError>
    ensures { OnOk result (out.new.items ≡ out.old.items ++ word Kinds.number n ∷ []) }
{
    out.push(Word::new(Kind::Number, n).bits())?;
    Ok(())
}

// The words of numbers, of variables, of a sum's coefficients and of its variables.
fn put_numbers(out: &mut Vec<u32>, ns: &[i64]) -> Result<(), AllocError>
    ensures { OnOk result (out.new.items ≡ out.old.items ++ map (number_word Kinds.number) ns.now) }
{
    for n in ns {
        put_number(out, *n)?;
    }
    Ok(())
}

fn put_atoms(out: &mut Vec<u32>, atoms: &[Atom]) -> Result<(), AllocError>
    ensures { OnOk result (out.new.items ≡ out.old.items ++ map atom_word atoms.now) }
{
    for a in atoms {
        put_variable(out, *a)?;
    }
    Ok(())
}

fn put_coefficients(out: &mut Vec<u32>, products: &[Product]) -> Result<(), AllocError>
    ensures { OnOk result (out.new.items ≡ out.old.items ++ map (λ p. number_word Kinds.number p.coefficient) products.now) }
{
    for p in products {
        put_number(out, p.coefficient)?;
    }
    Ok(())
}

fn put_factors(out: &mut Vec<u32>, products: &[Product]) -> Result<(), AllocError>
    ensures { OnOk result (out.new.items ≡ out.old.items ++ map (λ p. atom_word p.atom) products.now) }
{
    for p in products {
        put_variable(out, p.atom)?;
    }
    Ok(())
}

// The words of an argument, of all arguments of a call, of a call, of all calls.
#[tactic(auto, unfolding(crate::specs::CallWords::written))]
fn put_argument(out: &mut Vec<u32>, g: &Argument) -> Result<(), AllocError>
    ensures { OnOk result (out.new.items ≡ out.old.items ++ written g.now) }
{
    match g {
        Argument::One(a) => put_variable(out, *a),
        Argument::Number(n) => put_number(out, *n),
        Argument::Numbers(ns) => {
            put_length(out, ns.len())?;
            put_numbers(out, ns)
        }
        Argument::Many(atoms) => {
            put_length(out, atoms.len())?;
            put_atoms(out, atoms)
        }
        Argument::Sum(products) => {
            put_length(out, products.len())?;
            put_coefficients(out, products)?;
            put_factors(out, products)
        }
    }
}

fn put_arguments(out: &mut Vec<u32>, arguments: &[Argument]) -> Result<(), AllocError>
    ensures { OnOk result (out.new.items ≡ out.old.items ++ all_written arguments.now) }
{
    for g in arguments {
        put_argument(out, g)?;
    }
    Ok(())
}

#[tactic(auto, unfolding(crate::specs::CallWords::call_words))]
fn put_call(out: &mut Vec<u32>, call: &Call) -> Result<(), AllocError>
    ensures { OnOk result (out.new.items ≡ out.old.items ++ call_words call.now) }
{
    out.push(Word::new(Kind::Constraint, call.code.number()).bits())?;
    put_arguments(out, &call.arguments)
}

fn put_calls(out: &mut Vec<u32>, calls: &[Call]) -> Result<(), AllocError>
    ensures { OnOk result (out.new.items ≡ out.old.items ++ all_call_words calls.now) }
{
    for call in calls {
        put_call(out, call)?;
    }
    Ok(())
}

// The words of a variable, of all variables.
#[tactic(auto, unfolding(crate::specs::SystemWords::variable_words))]
fn put_declared(out: &mut Vec<u32>, v: ModelVariable) -> Result<(), AllocError>
    ensures { OnOk result (out.new.items ≡ out.old.items ++ variable_words v.is_boolean v.bounds) }
{
    if v.is_boolean {
        out.push(Word::new(Kind::Boolean, 0).bits())?;
        return Ok(());
    }
    out.push(Word::of_number(Kind::Lower, v.bounds.lower).bits())?;
    out.push(Word::of_number(Kind::Upper, v.bounds.upper).bits())?;
    Ok(())
}

fn put_variables(out: &mut Vec<u32>, variables: &[ModelVariable]) -> Result<(), AllocError>
    ensures { OnOk result (out.new.items ≡ out.old.items ++ all_variable_words variables.now) }
{
    for v in variables {
        put_declared(out, *v)?;
    }
    Ok(())
}

// The words of a model of these variables and calls.
pub fn model_words(
    alloc: Global,
    variables: &[ModelVariable],
    calls: &[Call],
) -> Result<Vec<u32>, AllocError>
    ensures { (bs : List Builtin) → built_all calls.now ≡ Some bs → IfOk result (λ out. out.items ≡ words_of variables.now bs) }
{
    let mut out = Vec::new(alloc);
    put_variables(&mut out, variables)?;
    put_calls(&mut out, calls)?;
    out.push(Word::new(Kind::ModelEnd, 0).bits())?;
    Ok(out)
}

// ---- whether a model fits its words

#[tactic(auto, unfolding(integers::specs::Bounds::within))]
fn number_fits(n: i64) -> bool
    ensures { result ≡ in_range n }
{
    LOWEST <= n && n <= HIGHEST
}

fn atom_fits(a: Atom) -> bool
    ensures { result ≡ atom_fits a }
{
    a.number() < PAYLOADS
}

fn product_fits(p: Product) -> bool
    ensures { result ≡ product_fits p }
{
    number_fits(p.coefficient) && atom_fits(p.atom)
}

fn numbers_fit(ns: &[i64]) -> bool
    ensures { result ≡ list_all in_range ns.now }
{
    ns.iter().all(|n| number_fits(*n))
}

fn atoms_fit(atoms: &[Atom]) -> bool
    ensures { result ≡ list_all atom_fits atoms.now }
{
    atoms.iter().all(|a| atom_fits(*a))
}

fn products_fit(products: &[Product]) -> bool
    ensures { result ≡ list_all product_fits products.now }
{
    products.iter().all(|p| product_fits(*p))
}

fn argument_fits(power: bool, g: &Argument) -> bool
    ensures { result ≡ argument_fits power g.now }
{
    match g {
        Argument::One(a) => atom_fits(*a),
        Argument::Number(n) => {
            if power {
                *n <= EXPONENT as i64
            } else {
                number_fits(*n)
            }
        }
        Argument::Numbers(ns) => ns.len() <= LIST_LENGTH && numbers_fit(ns),
        Argument::Many(atoms) => atoms.len() <= LIST_LENGTH && atoms_fit(atoms),
        Argument::Sum(products) => products.len() <= LIST_LENGTH && products_fit(products),
    }
}

fn call_fits(call: &Call) -> bool
    ensures { result ≡ call_fits call.now }
{
    let power = call.code == Code::IntPow;
    call.arguments.iter().all(|g| argument_fits(power, g))
}

fn variable_fits(v: ModelVariable) -> bool
    ensures { result ≡ variable_fits v }
{
    v.is_boolean || number_fits(v.bounds.lower) && number_fits(v.bounds.upper)
}

fn variables_fit(variables: &[ModelVariable]) -> bool
    ensures { result ≡ list_all variable_fits variables.now }
{
    variables.iter().all(|v| variable_fits(*v))
}

fn calls_fit(calls: &[Call]) -> bool
    ensures { result ≡ list_all call_fits calls.now }
{
    calls.iter().all(|k| call_fits(k))
}

fn all_fit(variables: &[ModelVariable], calls: &[Call]) -> bool
    ensures { result ≡ (list_all variable_fits variables.now && list_all call_fits calls.now) }
{
    variables_fit(variables) && calls_fit(calls)
}

// Whether all variables and calls fit.
pub fn fits(variables: &[ModelVariable], calls: &[Call]) -> bool
    ensures { (bs : List Builtin) → built_all calls.now ≡ Some bs → (result ≡ true) ↔ ModelFits variables.now bs }
{
    all_fit(variables, calls)
}

#[cfg(test)]
mod tests {
    use super::{AllocError, Argument, Atom, Call, Code, Global, ModelVariable, fits, model_words};
    use integers::Bounds;
    use std::test::Fail;

    // A Boolean variable, one from -1 to `upper`, and bool2int of them.
    fn model(alloc: Global, upper: i64) -> Result<(Vec<ModelVariable>, Vec<Call>), AllocError> {
        let mut variables = Vec::new(alloc);
        variables.push(ModelVariable {
            is_boolean: true,
            bounds: Bounds { lower: 0, upper: 1 },
        })?;
        variables.push(ModelVariable {
            is_boolean: false,
            bounds: Bounds { lower: -1, upper },
        })?;
        let mut arguments = Vec::new(alloc);
        arguments.push(Argument::One(Atom::Variable(0)))?;
        arguments.push(Argument::One(Atom::Variable(1)))?;
        let mut calls = Vec::new(alloc);
        calls.push(Call {
            code: Code::Bool2int,
            arguments,
        })?;
        Ok((variables, calls))
    }

    #[test]
    fn words_of_two_variables(rt: HostRuntime) -> Result<(), Fail> {
        let (variables, calls) = model(rt.alloc(), 5)?;
        let words = model_words(rt.alloc(), &variables, &calls)?;
        let expected = [
            0x30000000, 0x1fffffff, 0x20000005, 0x40000010, 0x50000000, 0x50000001, 0x70000000,
        ];
        assert_eq!(rt; words.as_slice(), expected.as_slice());
        Ok(())
    }

    #[test]
    fn the_range_ends_at_134217727(rt: HostRuntime) -> Result<(), Fail> {
        let (variables, calls) = model(rt.alloc(), 134217727)?;
        assert!(rt; fits(&variables, &calls));
        let (variables, calls) = model(rt.alloc(), 134217728)?;
        assert!(rt; !fits(&variables, &calls));
        Ok(())
    }
}
