// The line and the column of a byte.
ghost use Rattle.std.specs.Prelude.{◌≡◌, ◌≤◌};
ghost use Rattle.labels.specs.Position.{after, position_of};

// A place in a text for a reader: its line and its column, both counted from 1.
#[derive(Clone, Copy, Debug, PartialEq, Eq)]
pub struct Position {
    pub line: usize,
    pub column: usize,
}

// The position after a byte.
fn after(p: Position, b: u8) -> Position
    requires { (p.line ≤ 9223372036854775808) × (p.column ≤ 9223372036854775808) }
    ensures { result ≡ after p b }
{
    if b == b'\n' {
        return Position {
            line: p.line + 1,
            column: 1,
        };
    }
    Position {
        line: p.line,
        column: p.column + 1,
    }
}

// The position of a byte of a text, or of the place after the last one.
pub fn position_of(text: &[u8], byte: usize) -> Position
    ensures { result ≡ position_of text.now byte }
{
    let front = &text[..byte.min(text.len())];
    let mut p = Position { line: 1, column: 1 };
    for &b in front {
        p = after(p, b);
    }
    p
}
