// What an argument of a builtin is.
ghost use Rattle.std.specs.Prelude.{◌≡◌};
ghost use Rattle.models.specs.Shapes.{shape_number};

#[derive(Clone, Copy, Debug, PartialEq, Eq)]
pub enum Shape {
    // an integer variable, a Boolean one; these are also the types of variables
    Integer = 1,
    Boolean = 2,
    // a number, the exponent of a power
    Number = 3,
    Exponent = 4,
    // a list of numbers, of integer variables, of Boolean ones
    Numbers = 5,
    Integers = 6,
    Booleans = 7,
    // numbers and as many integer variables
    Parallel = 8,
}

impl Shape {
    // Its number.
    pub fn number(self) -> u32
        ensures { result ≡ shape_number self }
    {
        self as u32
    }
}
