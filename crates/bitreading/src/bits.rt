// The bits that a caller lends, one a byte, each 0 or 1.
#![tactic(auto)]

ghost use Rattle.std.specs.Prelude.{◌≡◌, get_or};
ghost use Rattle.bitreading.specs.FineBits.{FineBits};

use words::list::at_or;

#[derive(Clone, Copy)]
pub struct Bits<'a> {
    pub bytes: &'a [u8],
    ghost fine: { FineBits bytes.now },
}

impl Bits<'_> {
    // A bit, 0 past the last one.
    pub fn at(&self, i: usize) -> usize
        ensures { result ≡ get_or self.now.bytes.now i 0 }
    {
        at_or(self.bytes, i, 0) as usize
    }
}
