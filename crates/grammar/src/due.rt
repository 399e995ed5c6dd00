// What is due at the next token of a text.
#![tactic(auto)]

ghost use Rattle.std.specs.Prelude.{◌≡◌, eqb, leb};
ghost use Rattle.grammar.specs.Grammar.{declaration_stage, constraint_stage, end_stage};
ghost use Rattle.grammar.specs.Machine.{stage_number};

use crate::form::Bracketed;
use models::code::Code;
use words::word::Word;

// Which items may still come in a text.
#[derive(Clone, Copy, Debug, PartialEq, Eq)]
pub enum Stage {
    // declarations, constraints, the last item
    Declarations = 0,
    // constraints and the last item
    Constraints = 1,
    // none: the last item was read
    Ended = 2,
}

impl Stage {
    // Whether a declaration may come.
    pub(crate) fn takes_declarations(self) -> bool
        ensures { result ≡ eqb (stage_number self) declaration_stage }
    {
        self == Stage::Declarations
    }

    // Whether a constraint or the last item may come.
    pub(crate) fn takes_constraints(self) -> bool
        ensures { result ≡ leb (stage_number self) constraint_stage }
    {
        self != Stage::Ended
    }

    // Whether the last item was read.
    pub(crate) fn has_ended(self) -> bool
        ensures { result ≡ eqb (stage_number self) end_stage }
    {
        self == Stage::Ended
    }
}

// A place among the arguments of a constraint in a text: its code, the number of the argument, counted from 0, and the length of the list before it.
#[derive(Clone, Copy, Debug, PartialEq, Eq)]
pub struct ArgumentPlace {
    pub code: Code,
    pub argument: usize,
    pub length: usize,
}

#[derive(Clone, Copy, Debug, PartialEq, Eq)]
pub enum Due {
    // the start of an item
    Item(Stage),
    // after "var": "bool" or the lower bound; ".."; the upper bound; ":"; the name
    Domain,
    Dots,
    Upper,
    Colon,
    Name,
    // ";", which ends an item, and which items may come after it
    Semicolon(Stage),
    // after "constraint": the builtin's name, "("
    Builtin,
    Opening(Code),
    // an argument
    Argument(ArgumentPlace),
    // "," before an argument, or ")"
    Next(ArgumentPlace),
    // after "solve": "satisfy"
    Satisfy,
}

// A list or set: what stands in its brackets, and the place of the argument after it, with the length of the list before it.
#[derive(Clone, Copy, Debug, PartialEq, Eq)]
pub struct ListPlace {
    pub bracketed: Bracketed,
    pub next: ArgumentPlace,
}

// What a token that fits gives: the word that it writes, and what is due next; or it opens a list or set.
#[derive(Clone, Copy, Debug, PartialEq, Eq)]
pub enum Step {
    Single { word: Option<Word>, next: Due },
    Opens(ListPlace),
}

// What a token that fits inside brackets is: an element, by its word, a comma, the closing bracket.
#[derive(Clone, Copy, Debug, PartialEq, Eq)]
pub enum Inside {
    Element(Word),
    Comma,
    Closing,
}
