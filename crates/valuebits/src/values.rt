// The values of a row system's variables, each near 0, as those are that keep every bound.
ghost use Rattle.std.specs.Prelude.{◌≡◌};
ghost use Rattle.integers.specs.Terms.{value};
ghost use Rattle.words.specs.Small.{Near, Small};

use words::value_at;

#[derive(Clone, Copy)]
pub struct Values<'a> {
    pub list: &'a [i32],
    ghost small: { Small list.now },
}

impl Values<'_> {
    // The value of variable v, 0 past the last one.
    #[tactic(auto, unfolding(integers::specs::Terms::value))]
    pub fn at(&self, v: usize) -> i64
        ensures value { result ≡ value self.now.list.now v }
        ensures near { Near result }
    {
        value_at(self.list, v)
    }
}
