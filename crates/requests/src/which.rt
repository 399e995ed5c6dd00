// The commands.
ghost use Rattle.std.specs.Prelude.{◌≡◌};
ghost use Rattle.requests.specs.Taken.{name_of, takes_values, takes_candidates, takes_rows, prints_words};

#[derive(Clone, Copy, Debug, PartialEq, Eq)]
pub enum Which {
    Check,
    Translate,
    Rows,
    Sheet,
    Judge,
    Fill,
    Reason,
    Solutions,
    Bits,
    Text,
}

impl Which {
    // Its name.
    pub fn name(self) -> &'static str
        ensures { result.now ≡ name_of self }
    {
        match self {
            Which::Check => "check",
            Which::Translate => "translate",
            Which::Rows => "rows",
            Which::Sheet => "sheet",
            Which::Judge => "judge",
            Which::Fill => "fill",
            Which::Reason => "reason",
            Which::Solutions => "solutions",
            Which::Bits => "bits",
            Which::Text => "text",
        }
    }

    // Whether it takes values.
    pub fn takes_values(self) -> bool
        ensures { result ≡ takes_values self }
    {
        matches!(self, Which::Judge | Which::Fill | Which::Reason)
    }

    // Whether it works on one of two candidates.
    pub fn takes_candidates(self) -> bool
        ensures { result ≡ takes_candidates self }
    {
        !matches!(self, Which::Reason | Which::Solutions | Which::Text)
    }

    // Whether it takes the words of a row system; of text, which takes no words, something else is said.
    pub fn takes_rows(self) -> bool
        ensures { result ≡ takes_rows self }
    {
        !matches!(
            self,
            Which::Translate | Which::Fill | Which::Reason | Which::Solutions
        )
    }

    // Whether it prints words.
    pub fn prints_words(self) -> bool
        ensures { result ≡ prints_words self }
    {
        matches!(self, Which::Translate | Which::Bits | Which::Text)
    }
}
