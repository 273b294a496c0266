ghost use Rattle.std.specs.Prelude.{◌≡◌, ◌<◌, ◌∷◌, ◌++◌, [], OnOk};
ghost use Rattle.std.specs.Fmt.{signed_decimal};
ghost use Rattle.ipg_ast.specs.Canonical.{byte_text, bytes_text, hex_digit};

use itoa::Buffer;
use std::alloc::AllocError;

/// Appends a token that is its own text, and a space.
pub fn put(bytes: &[u8], out: &mut Vec<u8>) -> Result<(), AllocError>
    ensures { OnOk result (out.new.items ≡ out.old.items ++ (bytes.now ++ (32 ∷ []))) }
{
    out.extend_from_slice(bytes)?;
    out.push(b' ')?;
    Ok(())
}

/// Appends a `;` and a line feed.
pub fn put_end(out: &mut Vec<u8>) -> Result<(), AllocError>
    ensures { OnOk result (out.new.items ≡ out.old.items ++ (59 ∷ 10 ∷ [])) }
{
    out.extend_from_slice(b";\n")
}

/// Appends a number in decimal, and a space.
pub fn put_number(n: i64, out: &mut Vec<u8>) -> Result<(), AllocError>
    ensures { OnOk result (out.new.items ≡ out.old.items ++ (signed_decimal n ++ (32 ∷ []))) }
{
    let mut buffer = Buffer::new();
    put(buffer.format(n).as_bytes(), out)
}

/// Appends a string in its quotes, and a space.
pub fn put_string(bytes: &[u8], out: &mut Vec<u8>) -> Result<(), AllocError>
    ensures { OnOk result (out.new.items ≡ out.old.items ++ (34 ∷ (bytes_text bytes.now ++ (34 ∷ 32 ∷ [])))) }
{
    out.push(b'"')?;
    for byte in bytes {
        put_byte(*byte, out)?;
    }
    out.extend_from_slice(b"\" ")
}

fn put_byte(byte: u8, out: &mut Vec<u8>) -> Result<(), AllocError>
    ensures { OnOk result (out.new.items ≡ out.old.items ++ byte_text byte) }
{
    match byte {
        b'"' => out.extend_from_slice(b"\\\""),
        b'\\' => out.extend_from_slice(b"\\\\"),
        b' '..=b'~' => Ok(out.push(byte)?),
        _ => out.extend_from_slice(&[b'\\', b'x', hex(byte / 16), hex(byte % 16)]),
    }
}

fn hex(digit: u8) -> u8
    requires { digit < 16 }
    ensures { result ≡ hex_digit digit }
{
    if digit < 10 {
        b'0' + digit
    } else {
        b'a' + (digit - 10)
    }
}
