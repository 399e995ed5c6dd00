// Words as text: eight capital hexadecimal digits.
#![tactic(auto)]

ghost use Rattle.std.specs.Prelude.{◌≡◌, ◌<◌, length};
ghost use Rattle.hexadecimal.specs.Digits.{digit, digits};

// The digit of a number below 16.
#[tactic(auto, unfolding(crate::specs::Digits::digit))]
fn hex_digit(n: u32) -> u8
    requires { n < 16 }
    ensures { result ≡ digit n }
{
    if n < 10 {
        b'0' + n as u8
    } else {
        b'A' - 10 + n as u8
    }
}

// The digits of a word. `{:08X}` is no plainer here: a format needs a writer, and the digits go to a page of fixed memory.
#[tactic(auto, unfolding(crate::specs::Digits::digits, crate::specs::Digits::digit_at))]
pub fn hex_digits(w: u32) -> [u8; 8]
    ensures text { result ≡ digits w }
    ensures eight { 8 ≡ length result }
{
    [
        hex_digit(w / 268435456 % 16),
        hex_digit(w / 16777216 % 16),
        hex_digit(w / 1048576 % 16),
        hex_digit(w / 65536 % 16),
        hex_digit(w / 4096 % 16),
        hex_digit(w / 256 % 16),
        hex_digit(w / 16 % 16),
        hex_digit(w % 16),
    ]
}
