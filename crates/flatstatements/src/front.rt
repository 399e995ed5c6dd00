// What stands at the front of a list of tokens.
ghost use Rattle.std.specs.Prelude.{◌≡◌, map, drop, option_map};
ghost use Rattle.flattokens.specs.Token.{token as seen};
ghost use Rattle.flatstatements.specs.Front.{is_sign, is_word, is_dots, is_colons, name_of, number_of, begins, IsFront, Passes, name_at, number_at};

use flattokens::Token;

// Whether a token is a sign, a word, dots, colons.
#[tactic(auto, unfolding(crate::specs::Front::is_sign))]
pub(crate) fn is_sign(token: &Token, sign: u8) -> bool
    ensures { result ≡ is_sign sign (seen token.now) }
{
    match token {
        Token::Sign(b) => *b == sign,
        _ => false,
    }
}

#[tactic(auto, unfolding(crate::specs::Front::is_word))]
pub(crate) fn is_word(token: &Token, word: &[u8]) -> bool
    ensures { result ≡ is_word word.now (seen token.now) }
{
    match token {
        Token::Name(bytes) => *bytes == word,
        _ => false,
    }
}

#[tactic(auto, unfolding(crate::specs::Front::is_dots))]
fn is_dots(token: &Token) -> bool
    ensures { result ≡ is_dots (seen token.now) }
{
    matches!(token, Token::Dots)
}

#[tactic(auto, unfolding(crate::specs::Front::is_colons))]
pub(crate) fn is_colons(token: &Token) -> bool
    ensures { result ≡ is_colons (seen token.now) }
{
    matches!(token, Token::Colons)
}

// The bytes of a name, the number that a token says.
#[tactic(auto, unfolding(crate::specs::Front::name_of))]
fn name_of<'a>(token: &Token<'a>) -> Option<&'a [u8]>
    ensures { option_map (λ x. x.now) result ≡ name_of (seen token.now) }
{
    match token {
        Token::Name(bytes) => Some(bytes),
        _ => None,
    }
}

#[tactic(auto, unfolding(crate::specs::Front::number_of))]
fn number_of(token: &Token) -> Option<i64>
    ensures { result ≡ number_of (seen token.now) }
{
    match token {
        Token::Number(n) => Some(*n),
        _ => None,
    }
}

// The tokens from a place on.
fn tail<'b, 'a>(tokens: &'b [Token<'a>], at: usize) -> &'b [Token<'a>]
    ensures { result.now ≡ drop at tokens.now }
{
    if tokens.len() < at {
        return &[];
    }
    &tokens[at..]
}

// The same, as they are seen.
pub(crate) fn rest_at<'b, 'a>(tokens: &'b [Token<'a>], at: usize) -> &'b [Token<'a>]
    ensures { map seen result.now ≡ drop at (map seen tokens.now) }
{
    tail(tokens, at)
}

// The token at a place, and the place behind it.
pub(crate) fn token_at<'a>(tokens: &[Token<'a>], at: usize) -> Option<(Token<'a>, usize)>
    ensures { IsFront (map seen tokens.now) at (option_map (λ x. (seen x.0, x.1)) result) }
{
    if tokens.len() <= at {
        return None;
    }
    Some((tokens[at], at + 1))
}

// The place behind the token at a place, if it is a sign, a word, dots.
#[tactic(auto, unfolding(crate::specs::Front::begins))]
pub(crate) fn behind_sign(tokens: &[Token], at: usize, sign: u8) -> Option<usize>
    ensures { Passes (is_sign sign) (map seen tokens.now) at result }
{
    match token_at(tokens, at) {
        Some((token, next)) => {
            if is_sign(&token, sign) {
                return Some(next);
            }
            None
        }
        None => None,
    }
}

#[tactic(auto, unfolding(crate::specs::Front::begins))]
pub(crate) fn behind_word(tokens: &[Token], at: usize, word: &[u8]) -> Option<usize>
    ensures { Passes (is_word word.now) (map seen tokens.now) at result }
{
    match token_at(tokens, at) {
        Some((token, next)) => {
            if is_word(&token, word) {
                return Some(next);
            }
            None
        }
        None => None,
    }
}

#[tactic(auto, unfolding(crate::specs::Front::begins))]
pub(crate) fn behind_dots(tokens: &[Token], at: usize) -> Option<usize>
    ensures { Passes is_dots (map seen tokens.now) at result }
{
    match token_at(tokens, at) {
        Some((token, next)) => {
            if is_dots(&token) {
                return Some(next);
            }
            None
        }
        None => None,
    }
}

// The name at a place, the number at a place, and the place behind it.
#[tactic(auto, unfolding(crate::specs::Front::name_at))]
pub(crate) fn name_at<'a>(tokens: &[Token<'a>], at: usize) -> Option<(&'a [u8], usize)>
    ensures { option_map (λ x. (x.0.now, drop x.1 (map seen tokens.now))) result ≡ name_at (drop at (map seen tokens.now)) }
{
    match token_at(tokens, at) {
        Some((token, next)) => match name_of(&token) {
            Some(name) => Some((name, next)),
            None => None,
        },
        None => None,
    }
}

#[tactic(auto, unfolding(crate::specs::Front::number_at))]
pub(crate) fn number_at(tokens: &[Token], at: usize) -> Option<(i64, usize)>
    ensures { option_map (λ x. (x.0, drop x.1 (map seen tokens.now))) result ≡ number_at (drop at (map seen tokens.now)) }
{
    match token_at(tokens, at) {
        Some((token, next)) => match number_of(&token) {
            Some(n) => Some((n, next)),
            None => None,
        },
        None => None,
    }
}
