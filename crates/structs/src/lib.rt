// The structs that the calls hand a host written in C, each made from what a call answers. Their fields are those of the header for C, which takes no
// enum: numbers say what is answered, and which fault, 0 for none.
// Each has a conversion of its own: the names of the fields are the header's, and a verdict and a filling have other cases.
#![tactic(auto)]

ghost use Rattle.std.specs.Prelude.{◌≡◌};
ghost use Rattle.words.specs.Answer.{refusal_number};
ghost use Rattle.checking.specs.Checked.{checked};

use filling::Filling;
use reasoning::answer::Reason;
use valuebits::Encoded;
use words::answer::Verdict;
use words::fault::Refusal;

// What a judge, fill or value_bits answers a host, by what it said: 0 refused, with the fault and its place; 1 holds, in fill with how many values it wrote, in value_bits with how many bits; 2 the variable out of bounds; 3 the false constraint or row.
#[repr(C)]
#[derive(Clone, Copy, Debug, PartialEq, Eq)]
pub struct Judgement {
    pub said: u32,
    pub fault: u32,
    pub at: usize,
}

// What check answers a host: the counts, or a fault and its place.
#[repr(C)]
#[derive(Clone, Copy, Debug, PartialEq, Eq)]
pub struct Counts {
    pub fault: u32,
    pub place: usize,
    pub variables: usize,
    pub constraints: usize,
    pub auxiliaries: usize,
    pub rows: usize,
    pub words: usize,
}

// What translate, text, bits or best_bits answers a host: how many words it wrote, or a fault and its place.
#[repr(C)]
#[derive(Clone, Copy, Debug, PartialEq, Eq)]
pub struct WrittenWords {
    pub fault: u32,
    pub place: usize,
    pub words: usize,
}

// What sheet answers a host: how many bytes it wrote, or a fault and its place.
#[repr(C)]
#[derive(Clone, Copy, Debug, PartialEq, Eq)]
pub struct PrintedBytes {
    pub fault: u32,
    pub place: usize,
    pub bytes: usize,
}

// What bit_values answers a host: how many values it wrote, or a fault and its place.
#[repr(C)]
#[derive(Clone, Copy, Debug, PartialEq, Eq)]
pub struct WrittenValues {
    pub fault: u32,
    pub place: usize,
    pub values: usize,
}

// What bit_energy answers a host: the energy, or a fault and its place.
#[repr(C)]
#[derive(Clone, Copy, Debug, PartialEq, Eq)]
pub struct Energy {
    pub fault: u32,
    pub place: usize,
    pub energy: i64,
}

// What listing the solutions answers a host: how many there are, or a fault and its place.
#[repr(C)]
#[derive(Clone, Copy, Debug, PartialEq, Eq)]
pub struct Listed {
    pub fault: u32,
    pub place: usize,
    pub solutions: usize,
}

// What reason answers a host, by the reason: 0 refused, with the fault and its place; 1 no row fails; 2 the variable out of bounds, in `place`; 3 the row fails and the constraint's builtin is false of the source values; 4 it is true, and auxiliaries in the row are wrong.
#[repr(C)]
#[derive(Clone, Copy, Debug, PartialEq, Eq)]
pub struct Explanation {
    pub reason: u32,
    pub fault: u32,
    pub place: usize,
    pub row: usize,
    pub constraint: usize,
}

// A judge's answer for a host.
impl From<Result<Verdict, Refusal>> for Judgement {
    ghost use Rattle.std.specs.Prelude.{◌≡◌};
    ghost use Rattle.words.specs.Faults.{verdict_of};
    ghost use Rattle.structs.specs.Structs.{judgement_of};

    ghost from_gives = { λ answer judgement. judgement ≡ judgement_of (verdict_of answer) };

    #[tactic(auto, unfolding(crate::specs::Structs::judgement_of))]
    fn from(answer: Result<Verdict, Refusal>) -> Judgement {
        match answer {
            Err(r) => Judgement {
                said: 0,
                fault: r.fault.number(),
                at: r.place,
            },
            Ok(Verdict::Holds) => Judgement {
                said: 1,
                fault: 0,
                at: 0,
            },
            Ok(Verdict::OutOfBounds(i)) => Judgement {
                said: 2,
                fault: 0,
                at: i,
            },
            Ok(Verdict::False(i)) => Judgement {
                said: 3,
                fault: 0,
                at: i,
            },
        }
    }
}

// Fill's answer for a host.
impl From<Result<Filling, Refusal>> for Judgement {
    ghost use Rattle.std.specs.Prelude.{◌≡◌};
    ghost use Rattle.filling.specs.Filled.{handed};
    ghost use Rattle.structs.specs.Structs.{judgement_of};

    ghost from_gives = { λ answer judgement. judgement ≡ judgement_of (handed answer) };

    #[tactic(auto, unfolding(crate::specs::Structs::judgement_of))]
    fn from(answer: Result<Filling, Refusal>) -> Judgement {
        match answer {
            Err(r) => Judgement {
                said: 0,
                fault: r.fault.number(),
                at: r.place,
            },
            Ok(Filling::Values(n)) => Judgement {
                said: 1,
                fault: 0,
                at: n,
            },
            Ok(Filling::OutOfBounds(i)) => Judgement {
                said: 2,
                fault: 0,
                at: i,
            },
            Ok(Filling::False(i)) => Judgement {
                said: 3,
                fault: 0,
                at: i,
            },
        }
    }
}

// The answer of value_bits for a host.
impl From<Result<Encoded, Refusal>> for Judgement {
    ghost use Rattle.std.specs.Prelude.{◌≡◌};
    ghost use Rattle.valuebits.specs.Encoded.{encoded};
    ghost use Rattle.structs.specs.Structs.{judgement_of};

    ghost from_gives = { λ answer judgement. judgement ≡ judgement_of (encoded answer) };

    #[tactic(auto, unfolding(crate::specs::Structs::judgement_of))]
    fn from(answer: Result<Encoded, Refusal>) -> Judgement {
        match answer {
            Err(r) => Judgement {
                said: 0,
                fault: r.fault.number(),
                at: r.place,
            },
            Ok(Encoded::Bits(n)) => Judgement {
                said: 1,
                fault: 0,
                at: n,
            },
            Ok(Encoded::OutOfBounds(i)) => Judgement {
                said: 2,
                fault: 0,
                at: i,
            },
            Ok(Encoded::False(i)) => Judgement {
                said: 3,
                fault: 0,
                at: i,
            },
        }
    }
}

// Reason's answer for a host.
impl From<Result<Reason, Refusal>> for Explanation {
    ghost use Rattle.std.specs.Prelude.{◌≡◌};
    ghost use Rattle.reasoning.specs.Told.{told};
    ghost use Rattle.structs.specs.Structs.{explanation_of};

    ghost from_gives = { λ answer explanation. explanation ≡ explanation_of (told answer) };

    #[tactic(auto, unfolding(crate::specs::Structs::explanation_of))]
    fn from(answer: Result<Reason, Refusal>) -> Explanation {
        match answer {
            Err(r) => Explanation {
                reason: 0,
                fault: r.fault.number(),
                place: r.place,
                row: 0,
                constraint: 0,
            },
            Ok(Reason::Nothing) => Explanation {
                reason: 1,
                fault: 0,
                place: 0,
                row: 0,
                constraint: 0,
            },
            Ok(Reason::OutOfBounds(i)) => Explanation {
                reason: 2,
                fault: 0,
                place: i,
                row: 0,
                constraint: 0,
            },
            Ok(
                Reason::Because {
                    row,
                    constraint,
                    holds,
                },
            ) => Explanation {
                reason: if holds { 4 } else { 3 },
                fault: 0,
                place: 0,
                row,
                constraint,
            },
        }
    }
}

// Check's answer for a host.
impl From<Result<checking::Counts, Refusal>> for Counts {
    ghost use Rattle.std.specs.Prelude.{◌≡◌};
    ghost use Rattle.checking.specs.Checked.{checked};
    ghost use Rattle.structs.specs.Structs.{counts_of};

    ghost from_gives = { λ answer counts. counts ≡ counts_of (checked answer) };

    #[tactic(auto, unfolding(crate::specs::Structs::counts_of))]
    fn from(answer: Result<checking::Counts, Refusal>) -> Counts {
        match answer {
            Err(r) => Counts {
                fault: r.fault.number(),
                place: r.place,
                variables: 0,
                constraints: 0,
                auxiliaries: 0,
                rows: 0,
                words: 0,
            },
            Ok(n) => Counts {
                fault: 0,
                place: 0,
                variables: n.variables,
                constraints: n.constraints,
                auxiliaries: n.auxiliaries,
                rows: n.rows,
                words: n.words,
            },
        }
    }
}

// The number of check's refusal, 0 if it accepts; no Option, since a call for C answers this number.
#[tactic(auto, unfolding(words::specs::Answer::refusal_number))]
pub fn refusal_number(answer: Result<checking::Counts, Refusal>) -> u32
    ensures { result ≡ refusal_number (checked answer) }
{
    match answer {
        Ok(_) => 0,
        Err(r) => r.fault.number(),
    }
}

// The answer of translate, text, bits and best_bits for a host.
impl From<Result<usize, Refusal>> for WrittenWords {
    ghost use Rattle.std.specs.Prelude.{◌≡◌};
    ghost use Rattle.words.specs.Faults.{written_of};
    ghost use Rattle.structs.specs.Structs.{written_words_of};

    ghost from_gives = { λ answer written. written ≡ written_words_of (written_of answer) };

    #[tactic(auto, unfolding(crate::specs::Structs::counted_answer, crate::specs::Structs::written_words_of))]
    fn from(answer: Result<usize, Refusal>) -> WrittenWords {
        match answer {
            Ok(n) => WrittenWords {
                fault: 0,
                place: 0,
                words: n,
            },
            Err(r) => WrittenWords {
                fault: r.fault.number(),
                place: r.place,
                words: 0,
            },
        }
    }
}

// Sheet's answer for a host.
impl From<Result<usize, Refusal>> for PrintedBytes {
    ghost use Rattle.std.specs.Prelude.{◌≡◌};
    ghost use Rattle.words.specs.Faults.{written_of};
    ghost use Rattle.structs.specs.Structs.{printed_of};

    ghost from_gives = { λ answer printed. printed ≡ printed_of (written_of answer) };

    #[tactic(auto, unfolding(crate::specs::Structs::counted_answer, crate::specs::Structs::printed_of))]
    fn from(answer: Result<usize, Refusal>) -> PrintedBytes {
        match answer {
            Ok(n) => PrintedBytes {
                fault: 0,
                place: 0,
                bytes: n,
            },
            Err(r) => PrintedBytes {
                fault: r.fault.number(),
                place: r.place,
                bytes: 0,
            },
        }
    }
}

// The answer of listing the solutions for a host.
impl From<Result<usize, Refusal>> for Listed {
    ghost use Rattle.std.specs.Prelude.{◌≡◌};
    ghost use Rattle.words.specs.Faults.{written_of};
    ghost use Rattle.structs.specs.Structs.{listed_of};

    ghost from_gives = { λ answer listed. listed ≡ listed_of (written_of answer) };

    #[tactic(auto, unfolding(crate::specs::Structs::counted_answer, crate::specs::Structs::listed_of))]
    fn from(answer: Result<usize, Refusal>) -> Listed {
        match answer {
            Ok(n) => Listed {
                fault: 0,
                place: 0,
                solutions: n,
            },
            Err(r) => Listed {
                fault: r.fault.number(),
                place: r.place,
                solutions: 0,
            },
        }
    }
}

// The answer of bit_values for a host.
impl From<Result<usize, Refusal>> for WrittenValues {
    ghost use Rattle.std.specs.Prelude.{◌≡◌};
    ghost use Rattle.words.specs.Faults.{written_of};
    ghost use Rattle.structs.specs.Structs.{written_values_of};

    ghost from_gives = { λ answer written. written ≡ written_values_of (written_of answer) };

    #[tactic(auto, unfolding(crate::specs::Structs::counted_answer, crate::specs::Structs::written_values_of))]
    fn from(answer: Result<usize, Refusal>) -> WrittenValues {
        match answer {
            Ok(n) => WrittenValues {
                fault: 0,
                place: 0,
                values: n,
            },
            Err(r) => WrittenValues {
                fault: r.fault.number(),
                place: r.place,
                values: 0,
            },
        }
    }
}

// The answer of bit_energy for a host.
impl From<Result<i64, Refusal>> for Energy {
    ghost use Rattle.std.specs.Prelude.{◌≡◌};
    ghost use Rattle.bitanswers.specs.BitEnergy.{energy_of};
    ghost use Rattle.structs.specs.Structs.{energy_struct_of};

    ghost from_gives = { λ answer energy. energy ≡ energy_struct_of (energy_of answer) };

    #[tactic(auto, unfolding(crate::specs::Structs::energy_struct_of))]
    fn from(answer: Result<i64, Refusal>) -> Energy {
        match answer {
            Ok(e) => Energy {
                fault: 0,
                place: 0,
                energy: e,
            },
            Err(r) => Energy {
                fault: r.fault.number(),
                place: r.place,
                energy: 0,
            },
        }
    }
}
