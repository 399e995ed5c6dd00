// Values of variables, given by words: numbers in order, or NAME=NUMBER.
#![tactic(auto)]

use std::alloc::{AllocError, AllocFailed, Global};

// Why words give no values.
#[derive(Clone, Copy, Debug, PartialEq, Eq)]
pub enum Wrong {
    Memory,
    // a word has a name where variables have none, or one that no variable has, or one a second time, or no number of 32 bits
    NoNames,
    NoSuchName,
    SecondValue,
    NoNumber,
    // some are in order and some by name; a variable of a number has none
    Mixed,
    Missing(usize),
}

impl From<AllocError> for Wrong {
    fn from(_: AllocError) -> Wrong {
        Wrong::Memory
    }
}

impl From<AllocFailed<i32>> for Wrong {
    fn from(_: AllocFailed<i32>) -> Wrong {
        Wrong::Memory
    }
}

// The values so far: those in order, and by name one for each variable.
#[derive(Drop)]
pub struct Given {
    ordered: Vec<i32>,
    named: Vec<Option<i32>>,
    some_named: bool,
}

// The number that a text says, with a hyphen and no other sign, if it has 32 bits.
pub fn number_of(text: &str) -> Option<i32> {
    if text.starts_with('+') {
        return None;
    }
    text.parse::<i32>().ok()
}

// The place of a name among names.
fn place_of(names: &[&str], name: &str) -> Option<usize> {
    for (k, known) in names.iter().enumerate() {
        if *known == name {
            return Some(k);
        }
    }
    None
}

impl Given {
    // No values, of so many variables with names.
    pub fn none(alloc: Global, names: usize) -> Result<Given, AllocError> {
        Ok(Given {
            ordered: Vec::new(alloc),
            named: vec![in alloc; None; names]?,
            some_named: false,
        })
    }

    // A value by name.
    fn put(&mut self, names: &[&str], name: &str, number: &str) -> Result<(), Wrong> {
        let Some(place) = place_of(names, name) else {
            return Err(Wrong::NoSuchName);
        };
        let Some(slot) = self.named.get_mut(place) else {
            return Err(Wrong::NoSuchName);
        };
        if slot.is_some() {
            return Err(Wrong::SecondValue);
        }
        let Some(value) = number_of(number) else {
            return Err(Wrong::NoNumber);
        };
        *slot = Some(value);
        self.some_named = true;
        Ok(())
    }

    // What a word gives, where the variables have names or not.
    pub fn add(&mut self, names: Option<&[&str]>, word: &str) -> Result<(), Wrong> {
        match word.split_once('=') {
            None => {
                let Some(value) = number_of(word) else {
                    return Err(Wrong::NoNumber);
                };
                self.ordered.push(value)?;
                Ok(())
            }
            Some((name, number)) => match names {
                None => Err(Wrong::NoNames),
                Some(names) => self.put(names, name, number),
            },
        }
    }

    // The values, in order.
    pub fn values(self, alloc: Global) -> Result<Vec<i32>, Wrong> {
        let Given {
            ordered,
            named,
            some_named,
        } = self;
        if !some_named {
            return Ok(ordered);
        }
        if !ordered.is_empty() {
            return Err(Wrong::Mixed);
        }
        let mut values = Vec::new(alloc);
        for (k, slot) in named.iter().enumerate() {
            match *slot {
                None => return Err(Wrong::Missing(k)),
                Some(value) => values.push(value)?,
            }
        }
        Ok(values)
    }
}
