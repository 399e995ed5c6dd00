// What a token is.
// The sort of a token. The specs have its number: the byte of the token where that is one byte.
#[derive(Clone, Copy, Debug, PartialEq, Eq)]
pub enum Sort {
    // no token of the language
    Broken,
    Number,
    Name,
    // "(", ")", ",", ".."
    Opening,
    Closing,
    Comma,
    Dots,
    // ":", ";", "[", "]", "{", "}"
    Colon,
    Semicolon,
    OpenList,
    CloseList,
    OpenSet,
    CloseSet,
    // the end of the text, past the last token, where `next_token` answers None: the definition's step takes the end as a token, and so does the grammar's
    End,
}
