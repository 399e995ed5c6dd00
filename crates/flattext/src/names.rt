// Names that are free: none that FlatZinc has, and each another one.
ghost use Rattle.std.specs.Prelude.{◌≡◌, true, false, ℕ, List, IfOk, OnOk, MatchOption};
ghost use Rattle.flattext.specs.Name.{is_plain, has, FreshName};

use crate::text::put_decimal;
use flatplaces::labels::put_number;
use flattokens::Token;
use flatzinc::trouble::Trouble;
use std::alloc::{AllocError, Global};
use std::collections::{BTreeMap, BTreeSet};

// The longest name that a text may have, and the bytes of a name that stay before a number.
const LONGEST: usize = 32;

const STEM: usize = 20;

// More numbers than a name is given.
const NUMBERS: usize = 1_000_000_000;

// The names that are in use, and of each stem the number that is tried next.
#[derive(Drop)]
pub struct Names {
    alloc: Global,
    pub used: BTreeSet<Vec<u8>>,
    next: BTreeMap<Vec<u8>, usize>,
}

// Whether bytes are a name that the text may have: at most 32 letters, digits and _, a letter first.
fn is_plain(name: &[u8]) -> bool
    ensures { result ≡ is_plain name.now }
{
    let Some(first) = name.first() else {
        return false;
    };
    if !first.is_ascii_alphabetic() || LONGEST < name.len() {
        return false;
    }
    for byte in name {
        if !byte.is_ascii_alphanumeric() && *byte != b'_' {
            return false;
        }
    }
    true
}

// A stem with a number behind it.
fn numbered(alloc: Global, stem: &[u8], k: usize) -> Result<Vec<u8>, AllocError> {
    let mut name = stem.to_vec(alloc)?;
    name.push(b'_')?;
    put_decimal(alloc, &mut name, k)?;
    Ok(name)
}

impl Names {
    // None.
    pub fn new(alloc: Global) -> Names {
        Names {
            alloc,
            used: BTreeSet::new(alloc),
            next: BTreeMap::new(alloc),
        }
    }

    // Puts a name to those in use.
    fn put(&mut self, name: &[u8]) -> Result<(), AllocError>
        ensures taken { OnOk result (has self.new.used name.now ≡ true) }
        ensures kept { (bs : List ℕ) → has self.old.used bs ≡ true → has self.new.used bs ≡ true }
    {
        self.used.insert(name.to_vec(self.alloc)?)?;
        Ok(())
    }

    // Puts the names among tokens of the FlatZinc to those in use; longer ones than a text has are in nobody's way.
    pub fn spell(&mut self, tokens: &[Token<'_>]) -> Result<(), AllocError> {
        for token in tokens {
            if let Token::Name(name) = token
                && name.len() <= LONGEST
            {
                self.put(name)?;
            }
        }
        Ok(())
    }

    // Puts a name to those in use if it is plain and free, and answers it then.
    fn take(&mut self, name: &[u8]) -> Result<Option<Vec<u8>>, AllocError>
        ensures { IfOk result (λ o. MatchOption o (self.new.used ≡ self.old.used) (λ v. FreshName self.old.used self.new.used v.items)) }
    {
        if !is_plain(name) || self.used.contains(name) {
            return Ok(None);
        }
        self.put(name)?;
        Ok(Some(name.to_vec(self.alloc)?))
    }

    // A name that is a wish, or the first 20 bytes of it with the least number from 1 on that makes it free.
    fn fresh(&mut self, wish: &[u8]) -> Result<Vec<u8>, Trouble>
        ensures { IfOk result (λ v. FreshName self.old.used self.new.used v.items) }
    {
        if let Some(name) = self.take(wish)? {
            return Ok(name);
        }
        let stem = if wish.len() <= STEM {
            wish
        } else {
            &wish[..STEM]
        };
        let from = self.next.get(stem).copied().unwrap_or(1);
        for k in from..NUMBERS {
            let numbered = numbered(self.alloc, stem, k)?;
            if let Some(name) = self.take(&numbered)? {
                self.next.insert(stem.to_vec(self.alloc)?, k + 1)?;
                return Ok(name);
            }
        }
        Err(Trouble::told(format!(in self.alloc; "no name is free")))
    }

    // The name of a variable that FlatZinc calls so: its own, if the text may have it.
    pub fn of_variable(&mut self, given: &[u8]) -> Result<Vec<u8>, Trouble>
        ensures own { is_plain given.now ≡ true → IfOk result (λ v. v.items ≡ given.now) }
        ensures other { is_plain given.now ≡ false → IfOk result (λ v. FreshName self.old.used self.new.used v.items) }
    {
        if is_plain(given) {
            return Ok(given.to_vec(self.alloc)?);
        }
        self.fresh(b"n")
    }

    // The name of the variable that stands for a number: c5, cm5.
    pub fn of_number(&mut self, n: i64) -> Result<Vec<u8>, Trouble>
        ensures { IfOk result (λ v. FreshName self.old.used self.new.used v.items) }
    {
        let mut digits = Vec::new(self.alloc);
        put_number(self.alloc, &mut digits, n)?;
        let mut wish = Vec::new(self.alloc);
        wish.push(b'c')?;
        for byte in &digits {
            wish.push(if *byte == b'-' { b'm' } else { *byte })?;
        }
        self.fresh(&wish)
    }

    // The name of the variable that stands for a Boolean.
    pub fn of_truth(&mut self, truth: bool) -> Result<Vec<u8>, Trouble>
        ensures { IfOk result (λ v. FreshName self.old.used self.new.used v.items) }
    {
        if truth {
            return self.fresh(b"true_");
        }
        self.fresh(b"false_")
    }

    // The name of a part of a list.
    pub fn of_part(&mut self) -> Result<Vec<u8>, Trouble>
        ensures { IfOk result (λ v. FreshName self.old.used self.new.used v.items) }
    {
        self.fresh(b"part")
    }
}
