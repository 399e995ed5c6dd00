// A constraint of a model: its code, and the words after its head.
use crate::code::Code;
use words::word::Word;

#[derive(Clone, Copy)]
pub struct Constraint<'a> {
    pub code: Code,
    pub args: &'a [u32],
}

impl<'a> Constraint<'a> {
    ghost use Rattle.std.specs.Prelude.{◌<◌, length};
    ghost use Rattle.models.specs.Headed.{Headed};

    // The constraint whose head stands at a place; none where the head's number is no builtin's code, as in no accepted model.
    pub fn at(ws: &'a [u32], place: usize) -> Option<Constraint<'a>>
        requires { place < length ws.now }
        ensures { Headed ws.now place result }
    {
        let code = Code::try_from(Word::at(ws, place).payload()).ok()?;
        Some(Constraint {
            code,
            args: &ws[place + 1..],
        })
    }
}
