// A term of a row.
ghost use Rattle.std.specs.Prelude.{◌≡◌};

// A coefficient times a variable.
#[derive(Clone, Copy, Debug, PartialEq, Eq)]
pub struct Term {
    pub coefficient: i64,
    pub variable: usize,
}

impl Term {
    pub fn new(coefficient: i64, variable: usize) -> Term
        ensures { result ≡ record { coefficient = coefficient; variable = variable } }
    {
        Term {
            coefficient,
            variable,
        }
    }

    // Its coefficient, as a number whose range a proof knows.
    pub fn number(self) -> i64
        ensures { result ≡ self.coefficient }
    {
        self.coefficient
    }
}
