// Why a FlatZinc text is not carried over.
ghost use Rattle.std.specs.Prelude.{◌≡◌, MatchResult};
ghost use Rattle.flatzinc.specs.declared.trouble.Trouble.TheVariants.{Fault, Memory};

use std::alloc::{AllocError, AllocFailed};

// Memory that ran out, or what is wrong with the text, in words.
#[derive(Debug, Drop)]
pub enum Trouble {
    Memory,
    Fault(String),
}

impl From<AllocError> for Trouble {
    ghost from_gives = { λ _ e. e ≡ Memory };

    fn from(_error: AllocError) -> Trouble {
        Trouble::Memory
    }
}

impl<T: Drop> From<AllocFailed<T>> for Trouble {
    ghost from_gives = { λ _ e. e ≡ Memory };

    fn from(_error: AllocFailed<T>) -> Trouble {
        Trouble::Memory
    }
}

impl Trouble {
    // A fault of this message, or memory that ran out on the way to it.
    pub fn told(message: Result<String, AllocError>) -> Trouble
        ensures { MatchResult message (λ t. result ≡ Fault t) (λ e. result ≡ Memory) }
    {
        match message {
            Ok(text) => Trouble::Fault(text),
            Err(_) => Trouble::Memory,
        }
    }
}
