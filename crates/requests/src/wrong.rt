// What is wrong about a command line.
#[derive(Clone, Copy, Debug, PartialEq, Eq)]
pub enum Wrong {
    // an option that takes a word stands a second time
    SecondValues,
    SecondData,
    SecondCandidate,
    // options that exclude each other, and a candidate that is neither 1 nor 2
    Forms,
    Candidate,
    ModelAndRows,
    CandidateAndRows,
    BytesAndJson,
    // what a command wants or does not take
    NoFile,
    TakesNoValues,
    TakesNoCandidate,
    PrintsNoWords,
    SameInput,
}

impl Wrong {
    // It in words.
    pub fn text(self) -> &'static str {
        match self {
            Wrong::SecondValues => "a second time: --values",
            Wrong::SecondData => "a second time: --data",
            Wrong::SecondCandidate => "a second time: --candidate",
            Wrong::Forms => "--text, --hex and --bytes exclude each other",
            Wrong::Candidate => "--candidate wants 1 or 2",
            Wrong::ModelAndRows => "--model and --rows exclude each other",
            Wrong::CandidateAndRows => "--candidate and --rows exclude each other",
            Wrong::BytesAndJson => "--out-bytes and --json exclude each other",
            Wrong::NoFile => "a file is wanted, - for standard input",
            Wrong::TakesNoValues => "this command takes no values",
            Wrong::TakesNoCandidate => "this command takes no candidate",
            Wrong::PrintsNoWords => "this command prints no words",
            Wrong::SameInput => "standard input holds the file or the values, not both",
        }
    }

    // Whether the command's name belongs to it.
    pub fn names_command(self) -> bool {
        matches!(
            self,
            Wrong::TakesNoValues | Wrong::TakesNoCandidate | Wrong::PrintsNoWords
        )
    }
}
