// The arguments of each code, as a table. A constant table from code to shapes is a rule of the project, 01 names this form; the code is the place in it,
// for `argument_of` and `items::arguments_at`, and a number that is no builtin's has no argument. It is another one than a text's (grammar::form), which has parallel lists as two arguments and sets.
ghost use Rattle.std.specs.Prelude.{◌≡◌, map};
ghost use Rattle.models.specs.Shape.{argument};
ghost use Rattle.models.specs.Shapes.{argument_number};
ghost use Rattle.modelitems.specs.Argument.{table};

use models::shape::Shape;
use models::shape::Shape::{
    Boolean, Booleans, Exponent, Integer, Integers, Number, Numbers, Parallel,
};

// the last code
pub const LAST_CODE: usize = 39;

// the most arguments of a code
pub const MOST_ARGUMENTS: usize = 3;

// The arguments of each code, from 0, which is no code.
const SHAPES: [[Option<Shape>; MOST_ARGUMENTS]; LAST_CODE + 1] = [
    [None, None, None],
    [Some(Integer), Some(Integer), None],
    [Some(Integer), Some(Integer), None],
    [Some(Integer), Some(Integer), None],
    [Some(Integer), Some(Integer), None],
    [Some(Integer), Some(Integer), Some(Boolean)],
    [Some(Integer), Some(Integer), Some(Integer)],
    [Some(Integer), Some(Integer), Some(Integer)],
    [Some(Integer), Some(Integer), None],
    [Some(Integer), Some(Integer), Some(Integer)],
    [Some(Parallel), Some(Number), None],
    [Some(Parallel), Some(Number), None],
    [Some(Parallel), Some(Number), None],
    [Some(Parallel), Some(Number), Some(Boolean)],
    [Some(Integer), Some(Integer), Some(Boolean)],
    [Some(Parallel), Some(Number), Some(Boolean)],
    [Some(Boolean), Some(Integer), None],
    [Some(Boolean), Some(Boolean), None],
    [Some(Boolean), Some(Boolean), Some(Boolean)],
    [Some(Boolean), Some(Boolean), Some(Boolean)],
    [Some(Boolean), Some(Boolean), Some(Boolean)],
    [Some(Booleans), Some(Booleans), None],
    [Some(Booleans), Some(Boolean), None],
    [Some(Booleans), None, None],
    [Some(Integer), Some(Numbers), Some(Integer)],
    [Some(Integer), Some(Integers), Some(Integer)],
    [Some(Integer), Some(Integers), None],
    [Some(Integer), Some(Numbers), None],
    [Some(Integer), Some(Numbers), Some(Boolean)],
    [Some(Integer), Some(Integer), Some(Integer)],
    [Some(Integer), Some(Integer), Some(Boolean)],
    [Some(Integer), Some(Integer), Some(Boolean)],
    [Some(Parallel), Some(Number), Some(Boolean)],
    [Some(Integer), Some(Integers), None],
    [Some(Boolean), Some(Boolean), Some(Boolean)],
    [Some(Boolean), Some(Boolean), Some(Boolean)],
    [Some(Boolean), Some(Boolean), Some(Boolean)],
    [Some(Integer), Some(Integer), Some(Integer)],
    [Some(Integer), Some(Integer), Some(Integer)],
    [Some(Integer), Some(Exponent), Some(Integer)],
];

// The table, as a list to lend.
#[tactic(auto, unfolding(crate::specs::Argument::table, models::specs::Shape::shapes))]
pub fn table() -> [[Option<Shape>; MOST_ARGUMENTS]; LAST_CODE + 1]
    ensures { map (map argument_number) result ≡ table }
{
    SHAPES
}

// The k-th argument of a code, counted from 0, in the lent table.
pub fn argument_of(
    shapes: &[[Option<Shape>; MOST_ARGUMENTS]; LAST_CODE + 1],
    code: usize,
    k: usize,
) -> Option<Shape>
    requires { map (map argument_number) shapes.now ≡ table }
    ensures { argument_number result ≡ argument code k }
{
    if code <= LAST_CODE && k < MOST_ARGUMENTS {
        return shapes[code][k];
    }
    None
}
