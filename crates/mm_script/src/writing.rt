//! Pieces of texts, put behind other bytes.

ghost use Rattle.std.specs.Prelude.{◌≡◌, ◌<◌, ◌++◌, ◌∷◌, length, flat_map, codes, decimal, OnOk, OnErr};
ghost use Rattle.mm_notation.specs.Written.{written_string, written_byte, Grows};
ghost use Rattle.mm_script.specs.Replies.{with_number, with_name};

use itoa::Buffer;
use std::alloc::AllocError;

pub(crate) fn put(out: &mut Vec<u8>, bytes: &[u8]) -> Result<(), AllocError>
    ensures ok { OnOk result (out.new.items ≡ out.old.items ++ bytes.now) }
    ensures err { OnErr result (out.new.items ≡ out.old.items) }
{
    out.extend_from_slice(bytes)
}

pub(crate) fn put_number(out: &mut Vec<u8>, number: u64) -> Result<(), AllocError>
    ensures ok { OnOk result (out.new.items ≡ out.old.items ++ decimal number) }
    ensures err { OnErr result (out.new.items ≡ out.old.items) }
{
    let mut digits = Buffer::new();
    put(out, digits.format(number).as_bytes())
}

/// Puts a byte of a string that stands in quotes.
fn put_byte(out: &mut Vec<u8>, byte: u8) -> Result<(), AllocError>
    ensures ok { OnOk result (out.new.items ≡ out.old.items ++ written_byte byte) }
    ensures err { OnErr result (Grows out.old.items out.new.items) }
{
    if byte == b'"' || byte == b'\\' {
        return put(out, &[b'\\', byte]);
    }
    if byte < 0x20 {
        let mut digits = [0, 0];
        hex::encode_to_slice([byte].as_slice(), &mut digits).unwrap();
        put(out, b"\\u00")?;
        return put(out, &digits);
    }
    put(out, &[byte])
}

fn put_inside(out: &mut Vec<u8>, text: &[u8]) -> Result<(), AllocError>
    ensures ok { OnOk result (out.new.items ≡ out.old.items ++ flat_map written_byte text.now) }
    ensures err { OnErr result (Grows out.old.items out.new.items) }
{
    for byte in text {
        put_byte(out, *byte)?;
    }
    Ok(())
}

/// Puts a text in quotes, as a string of the notation.
fn put_string(out: &mut Vec<u8>, text: &[u8]) -> Result<(), AllocError>
    ensures ok { OnOk result (out.new.items ≡ out.old.items ++ written_string text.now) }
    ensures err { OnErr result (Grows out.old.items out.new.items) }
{
    put(out, b"\"")?;
    put_inside(out, text)?;
    put(out, b"\"")
}

/// Puts a word and a number.
pub(crate) fn put_counted(out: &mut Vec<u8>, word: &[u8], number: u64) -> Result<(), AllocError>
    ensures ok { OnOk result (out.new.items ≡ out.old.items ++ with_number word.now number) }
    ensures err { OnErr result (Grows out.old.items out.new.items) }
{
    put(out, word)?;
    put_number(out, number)
}

/// Puts a word and a name in quotes.
pub(crate) fn put_named(out: &mut Vec<u8>, word: &[u8], name: &[u8]) -> Result<(), AllocError>
    ensures ok { OnOk result (out.new.items ≡ out.old.items ++ with_name word.now name.now) }
    ensures err { OnErr result (Grows out.old.items out.new.items) }
{
    put(out, word)?;
    put_string(out, name)
}
