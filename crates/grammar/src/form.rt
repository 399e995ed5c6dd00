// The arguments of the builtins in a text.
#![tactic(auto)]

ghost use Rattle.std.specs.Prelude.{◌≡◌, ◌<◌, map, IfSome};
ghost use Rattle.tokens.specs.Sorts.{sort_number};
ghost use Rattle.models.specs.Codes.{code_number};
ghost use Rattle.grammar.specs.Form.{argument_forms, argument_form};
ghost use Rattle.grammar.specs.Machine.{opening_of, element_of, closing_of, is_second, text_form, form_or_missing};

use models::code::Code;
use tokens::sort::Sort;

// What stands in brackets.
#[derive(Clone, Copy, Debug, PartialEq, Eq)]
pub enum Bracketed {
    // a list of numbers, a list of variables, a set of numbers
    Numbers,
    Variables,
    Set,
    // the variables of parallel lists, after their numbers
    Parallel,
}

impl Bracketed {
    // The sort of its opening bracket.
    pub fn opening(self) -> Sort
        ensures { sort_number result ≡ opening_of self }
    {
        match self {
            Bracketed::Set => Sort::OpenSet,
            Bracketed::Numbers | Bracketed::Variables | Bracketed::Parallel => Sort::OpenList,
        }
    }

    // The sort of its elements.
    pub(crate) fn element(self) -> Sort
        ensures { sort_number result ≡ element_of self }
    {
        match self {
            Bracketed::Numbers | Bracketed::Set => Sort::Number,
            Bracketed::Variables | Bracketed::Parallel => Sort::Name,
        }
    }

    // Whether it is the second of parallel lists.
    pub fn is_second(self) -> bool
        ensures { result ≡ is_second self }
    {
        self == Bracketed::Parallel
    }

    // The sort of its closing bracket.
    pub(crate) fn closing(self) -> Sort
        ensures { sort_number result ≡ closing_of self }
    {
        match self {
            Bracketed::Set => Sort::CloseSet,
            Bracketed::Numbers | Bracketed::Variables | Bracketed::Parallel => Sort::CloseList,
        }
    }
}

// An argument in a text.
#[derive(Clone, Copy, Debug, PartialEq, Eq)]
pub enum Form {
    Variable,
    Number,
    Bracketed(Bracketed),
}

const VARIABLE: Form = Form::Variable;

const NUMBERS: Form = Form::Bracketed(Bracketed::Numbers);

const VARIABLES: Form = Form::Bracketed(Bracketed::Variables);

const SET: Form = Form::Bracketed(Bracketed::Set);

const PARALLEL: Form = Form::Bracketed(Bracketed::Parallel);

// The arguments of a builtin, in their order. No table for this and for a model: of parallel lists a text has two, a model one, and a text tells a
// set from a list.
#[tactic(auto, unfolding(crate::specs::Form::argument_forms, crate::specs::Form::in_text))]
pub(crate) fn arguments(code: Code) -> &'static [Form]
    ensures { map text_form result.now ≡ argument_forms (code_number code) }
{
    match code {
        Code::IntEq
        | Code::IntLe
        | Code::IntLt
        | Code::IntNe
        | Code::IntAbs
        | Code::Bool2int
        | Code::BoolNot => &[VARIABLE, VARIABLE],
        Code::IntLeReif
        | Code::IntPlus
        | Code::IntTimes
        | Code::IntMax
        | Code::IntEqReif
        | Code::BoolAnd
        | Code::BoolOr
        | Code::BoolXor
        | Code::IntMin
        | Code::IntLtReif
        | Code::IntNeReif
        | Code::BoolEqReif
        | Code::BoolLeReif
        | Code::BoolLtReif
        | Code::IntDiv
        | Code::IntMod => &[VARIABLE, VARIABLE, VARIABLE],
        Code::IntPow => &[VARIABLE, Form::Number, VARIABLE],
        Code::IntLinEq | Code::IntLinLe | Code::IntLinNe => &[NUMBERS, PARALLEL, Form::Number],
        Code::IntLinEqReif | Code::IntLinLeReif | Code::IntLinNeReif => {
            &[NUMBERS, PARALLEL, Form::Number, VARIABLE]
        }
        Code::BoolClause => &[VARIABLES, VARIABLES],
        Code::ArrayBoolAnd => &[VARIABLES, VARIABLE],
        Code::ArrayBoolXor => &[VARIABLES],
        Code::ArrayIntElement => &[VARIABLE, NUMBERS, VARIABLE],
        Code::ArrayVarIntElement => &[VARIABLE, VARIABLES, VARIABLE],
        Code::ArrayIntMaximum | Code::ArrayIntMinimum => &[VARIABLE, VARIABLES],
        Code::SetIn => &[VARIABLE, SET],
        Code::SetInReif => &[VARIABLE, SET, VARIABLE],
    }
}

// The argument of a builtin with a number, counted from 0, if there is one; then the number is few, so that the next one is a number of the machine.
pub(crate) fn argument(code: Code, k: usize) -> Option<Form>
    ensures value { form_or_missing result ≡ argument_form (code_number code) k }
    ensures few { IfSome result (λ form. k < 9223372036854775808) }
{
    arguments(code).get(k).copied()
}
