// Bytes of a file or a name in an answer: in a string of JSON, and on a terminal.
ghost use Rattle.std.specs.Prelude.{◌≡◌, ◌++◌, ◌≤◌, codes, length, take, OnOk};
ghost use Rattle.std.specs.List.{flat_map};
ghost use Rattle.answers.specs.Escaped.{json_byte, json_text, name_byte, name_text, shown_byte, shown_token};

use crate::put;
use hexadecimal::hex_digits;
use std::alloc::AllocError;

// So many bytes of a token stand in a message.
const LONGEST: usize = 40;

// A byte of no known encoding, in a string of JSON.
fn put_json_byte(out: &mut Vec<u8>, b: u8) -> Result<(), AllocError>
    ensures { OnOk result (out.new.items ≡ out.old.items ++ json_byte b) }
{
    if b == b'"' || b == b'\\' {
        return put(out, &[b'\\', b]);
    }
    if b < 32 || 127 <= b {
        put(out, b"\\u")?;
        return put(out, &hex_digits(b as u32)[4..]);
    }
    put(out, &[b])
}

// Bytes of no known encoding, as a string of JSON.
pub fn put_json(out: &mut Vec<u8>, text: &[u8]) -> Result<(), AllocError>
    ensures { OnOk result (out.new.items ≡ out.old.items ++ json_text text.now) }
{
    put(out, b"\"")?;
    put_json_bytes(out, text)?;
    put(out, b"\"")
}

fn put_json_bytes(out: &mut Vec<u8>, text: &[u8]) -> Result<(), AllocError>
    ensures { OnOk result (out.new.items ≡ out.old.items ++ flat_map json_byte text.now) }
{
    for &b in text {
        put_json_byte(out, b)?;
    }
    Ok(())
}

// A byte of a name, whose bytes are UTF-8, in a string of JSON.
fn put_name_byte(out: &mut Vec<u8>, b: u8) -> Result<(), AllocError>
    ensures { OnOk result (out.new.items ≡ out.old.items ++ name_byte b) }
{
    if 127 < b {
        return put(out, &[b]);
    }
    put_json_byte(out, b)
}

fn put_name_bytes(out: &mut Vec<u8>, text: &[u8]) -> Result<(), AllocError>
    ensures { OnOk result (out.new.items ≡ out.old.items ++ flat_map name_byte text.now) }
{
    for &b in text {
        put_name_byte(out, b)?;
    }
    Ok(())
}

// A name, as a string of JSON.
pub fn put_name(out: &mut Vec<u8>, text: &[u8]) -> Result<(), AllocError>
    ensures { OnOk result (out.new.items ≡ out.old.items ++ name_text text.now) }
{
    put(out, b"\"")?;
    put_name_bytes(out, text)?;
    put(out, b"\"")
}

// A byte on a terminal.
fn put_shown_byte(out: &mut Vec<u8>, b: u8) -> Result<(), AllocError>
    ensures { OnOk result (out.new.items ≡ out.old.items ++ shown_byte b) }
{
    if b < 32 || 126 < b {
        put(out, b"\\x")?;
        return put(out, &hex_digits(b as u32)[6..]);
    }
    put(out, &[b])
}

fn put_shown_bytes(out: &mut Vec<u8>, text: &[u8]) -> Result<(), AllocError>
    ensures { OnOk result (out.new.items ≡ out.old.items ++ flat_map shown_byte text.now) }
{
    for &b in text {
        put_shown_byte(out, b)?;
    }
    Ok(())
}

// The front of a token that is cut.
fn put_cut(out: &mut Vec<u8>, token: &[u8]) -> Result<(), AllocError>
    requires { 40 ≤ length token.now }
    ensures { OnOk result (out.new.items ≡ out.old.items ++ (codes ", '" ++ (flat_map shown_byte (take 40 token.now) ++ codes "..'"))) }
{
    let front = &token[..40];
    put(out, b", '")?;
    put_shown_bytes(out, front)?;
    put(out, b"..'")
}

// A token that is not.
fn put_whole(out: &mut Vec<u8>, token: &[u8]) -> Result<(), AllocError>
    ensures { OnOk result (out.new.items ≡ out.old.items ++ (codes ", '" ++ (flat_map shown_byte token.now ++ codes "'"))) }
{
    put(out, b", '")?;
    put_shown_bytes(out, token)?;
    put(out, b"'")
}

// A token in a message: a long one is cut; none is the end of the text.
pub fn put_shown(out: &mut Vec<u8>, token: &[u8]) -> Result<(), AllocError>
    ensures { OnOk result (out.new.items ≡ out.old.items ++ shown_token token.now) }
{
    if token.is_empty() {
        return put(out, b", the end of the text");
    }
    if LONGEST < token.len() {
        return put_cut(out, token);
    }
    put_whole(out, token)
}
