//! Bytes and numbers, for a person.
ghost use Rattle.std.specs.Prelude.{◌≡◌, ◌++◌, ◌≤◌, length, decimal, OnOk};
ghost use Rattle.std.specs.Fmt.{signed_decimal};
ghost use Rattle.hex.specs.Hex.{encode_lower};
ghost use Rattle.ipg_app_explain.specs.Bytes.{bytes_words, bytes_unit, counted, extent, more_mark};

use crate::spot::{add_seen, upto};
use hex::encode_to_slice;
use itoa::Buffer;
use std::alloc::AllocError;

/// So many bytes are shown at most.
pub const MOST_SHOWN: usize = 16;

pub fn add_number(out: &mut Vec<u8>, number: u64) -> Result<(), AllocError>
    ensures { OnOk result (out.new.items ≡ out.old.items ++ decimal number) }
{
    let mut buffer = Buffer::new();
    out.extend_from_slice(buffer.format(number).as_bytes())
}

pub fn add_signed(out: &mut Vec<u8>, number: i64) -> Result<(), AllocError>
    ensures { OnOk result (out.new.items ≡ out.old.items ++ signed_decimal number) }
{
    let mut buffer = Buffer::new();
    out.extend_from_slice(buffer.format(number).as_bytes())
}

fn unit(number: u64) -> &'static [u8]
    ensures { result.now ≡ bytes_unit number }
{
    if number == 1 { b" byte" } else { b" bytes" }
}

/// So many bytes.
pub fn add_counted(out: &mut Vec<u8>, number: u64) -> Result<(), AllocError>
    ensures { OnOk result (out.new.items ≡ out.old.items ++ counted number) }
{
    add_number(out, number)?;
    out.extend_from_slice(unit(number))
}

/// From a byte up to, and not including, another.
pub fn add_extent(out: &mut Vec<u8>, from: u32, to: u32) -> Result<(), AllocError>
    ensures { OnOk result (out.new.items ≡ out.old.items ++ extent from to) }
{
    add_number(out, u64::from(from))?;
    out.extend_from_slice(b"..")?;
    add_number(out, u64::from(to))
}

/// Two digits for each of a few bytes.
fn add_hex(out: &mut Vec<u8>, bytes: &[u8]) -> Result<(), AllocError>
    requires { length bytes.now ≤ 16 }
    ensures { OnOk result (out.new.items ≡ out.old.items ++ encode_lower bytes.now) }
{
    let mut digits = [0; 2 * MOST_SHOWN];
    let _fits = encode_to_slice(bytes, &mut digits[..2 * bytes.len()]);
    out.extend_from_slice(&digits[..2 * bytes.len()])
}

/// How many more bytes there are than are shown.
fn add_more(out: &mut Vec<u8>, number: u64) -> Result<(), AllocError>
    ensures { OnOk result (out.new.items ≡ out.old.items ++ more_mark number) }
{
    if number == 0 {
        return Ok(());
    }
    out.push(b'+')?;
    add_number(out, number)
}

/// Bytes as text and in hexadecimal.
pub fn add_bytes(out: &mut Vec<u8>, bytes: &[u8]) -> Result<(), AllocError>
    ensures { OnOk result (out.new.items ≡ out.old.items ++ bytes_words bytes.now) }
{
    let shown = upto(bytes, MOST_SHOWN);
    out.push(b'"')?;
    add_seen(out, shown)?;
    out.extend_from_slice(b"\" (")?;
    add_hex(out, shown)?;
    add_more(out, bytes.len().saturating_sub(MOST_SHOWN) as u64)?;
    out.extend_from_slice(b")")
}
