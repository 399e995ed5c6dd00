// The FlatZinc text of a model's words.
#![tactic(auto)]
