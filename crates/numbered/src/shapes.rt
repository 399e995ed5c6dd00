// Types of variables given by the numbers of shapes.
ghost use Rattle.std.specs.Prelude.{◌≡◌, ◌≤◌, get_or, take};
ghost use Rattle.words.specs.Limit as Limit;
ghost use Rattle.words.specs.Word.{payload};
ghost use Rattle.models.specs.Reading.{fault_variable};
ghost use Rattle.models.specs.Shape as Shape;

use words::fault::Fault;
use words::kind::Kind;
use words::word::Word;

// The number of the fault of a word that is to name a variable of a type among the first v, 0 for none.
#[tactic(auto, unfolding(models::specs::Reading::fault_variable))]
pub fn of_variable(types: &[u32; 256], v: usize, wanted: u32, w: u32) -> u32
    requires { (v ≤ Limit.variables) × (Shape.integer ≤ wanted) }
    ensures { result ≡ fault_variable (get_or (take v types.now) (payload w) 0) wanted w }
{
    let word = Word::from(w);
    if !word.is(Kind::Variable) {
        return Fault::WrongKind.number();
    }
    let x = word.payload();
    if v <= x {
        return Fault::NotDeclared.number();
    }
    if types[x] != wanted {
        return Fault::NotDeclared.number();
    }
    0
}
