// Which token of a text writes which word of its model.
use tokens::next_token;
use tokens::sort::Sort;

// Where a text is read: at an item, in a declaration, at a builtin's name, in its arguments, of which so many lists were opened; or nothing follows.
#[derive(Clone, Copy, Debug, PartialEq, Eq)]
enum Part {
    Item,
    Declaration,
    Builtin,
    Arguments { parallel: bool, lists: usize },
    Ended,
}

// The part behind a token.
fn part_behind(part: Part, sort: Sort, spelled: &[u8]) -> Part {
    match part {
        Part::Item if spelled == b"constraint".as_slice() => Part::Builtin,
        Part::Item if spelled == b"solve".as_slice() => Part::Ended,
        Part::Item => Part::Declaration,
        Part::Builtin => Part::Arguments {
            parallel: spelled.starts_with(b"int_lin_"),
            lists: 0,
        },
        _ if sort == Sort::Semicolon => Part::Item,
        Part::Arguments { parallel, lists } if sort == Sort::OpenList => Part::Arguments {
            parallel,
            lists: lists.wrapping_add(1),
        },
        _ => part,
    }
}

// Whether a token writes a word: a bound or `bool`, a builtin's name, an argument, the bracket before a list but the second of parallel ones, `satisfy`.
fn writes(part: Part, sort: Sort, spelled: &[u8]) -> bool {
    match part {
        Part::Item => false,
        Part::Declaration => sort == Sort::Number || spelled == b"bool".as_slice(),
        Part::Builtin => true,
        Part::Arguments { parallel, lists } => match sort {
            Sort::Number | Sort::Name | Sort::OpenSet => true,
            Sort::OpenList => !(parallel && lists == 1),
            _ => false,
        },
        Part::Ended => sort == Sort::Name,
    }
}

// The place of the token that writes word k of a text's model; the end of the text where none does.
pub fn place_of_word(text: &[u8], k: usize) -> usize {
    let mut left = k;
    let mut part = Part::Item;
    let mut at = 0;
    // no `for`: a token's length is read and not counted
    while let Some(t) = next_token(text, at) {
        let spelled = t.bytes(text);
        if writes(part, t.sort, spelled) {
            if left == 0 {
                return t.place;
            }
            left -= 1;
        }
        part = part_behind(part, t.sort, spelled);
        at = t.stop;
    }
    text.len()
}
