// The limits of documents 01 and 02.

// the range of numbers
pub const LOWEST: i64 = -134217727;

pub const HIGHEST: i64 = 134217727;
// how many payloads there are
pub const PAYLOADS: usize = 268435456;
// the payload of the lowest 28-bit number, from which on payloads are negative numbers
pub const HALF: usize = 134217728;
// words of a model and of a row system
pub const MODEL_WORDS: usize = 8192;

pub const ROW_WORDS: usize = 262144;
// variables and constraints of a model
pub const VARIABLES: usize = 256;

pub const CONSTRAINTS: usize = 256;
// elements of a list, terms of a row
pub const LIST_LENGTH: usize = 32;

pub const TERMS: usize = 66;
// the exponent of a power
pub const EXPONENT: usize = 27;
// auxiliaries of a code 28, and of a list that constraints share
pub const SET_BITS: usize = 64;
// variables and auxiliaries together
pub const IN_ALL: usize = 4096;
// bytes of a name
pub const NAME_BYTES: usize = 32;
// variables and value lists of a model whose solutions are listed
pub const LISTED_VARIABLES: usize = 8;

pub const LISTED_LISTS: usize = 65536;
// bits of a form, numbers of a row over bits
pub const BITS: usize = 1024;

pub const BIT_NUMBERS: i64 = 16384;
